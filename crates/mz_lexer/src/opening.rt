// What is open: parentheses, and texts up to their next piece.

ghost use Rattle.std.specs.Prelude.{ℕ, List, ◌≡◌, ◌∷◌, [], OnOk};
ghost use Rattle.mz_lexer.specs.Lexemes.{begins_piece, closed, opens_behind};
ghost use Rattle.mz_lexer.specs.Views.{lexeme};

use crate::token::{Symbol, Tok};
use std::alloc::{AllocError, Global};
use std::marker::Model;

/// A parenthesis, or a text up to its next piece.
#[derive(Clone, Copy, Debug)]
pub enum Opening {
    Paren,
    Text,
}

/// What is open. A contract sees it innermost first.
#[derive(Drop)]
pub struct Opens {
    all: Vec<Opening>,
}

impl Model for Opens {
    ghost use Rattle.std.specs.Prelude.{List, reverse};
    ghost use Rattle.mz_lexer.specs.declared.opening.Opening.{Opening};

    ghost Value = { List Opening };

    ghost view = { λ o. reverse o.all.items };
}

impl Opens {
    /// Nothing is open.
    pub fn new(alloc: Global) -> Opens
        ensures { result ≡ [] }
    {
        Opens {
            all: Vec::new(alloc),
        }
    }

    /// Whether a `)` begins the next piece of a text.
    pub fn begins_piece(&self) -> bool
        ensures { result ≡ begins_piece self.now }
    {
        matches!(self.all.as_slice().last(), Some(Opening::Text))
    }

    fn open(&mut self, opening: Opening) -> Result<(), AllocError>
        ensures { OnOk result (self.new ≡ opening ∷ self.old) }
    {
        self.all.push(opening)?;
        Ok(())
    }

    fn close(&mut self)
        ensures { self.new ≡ closed self.old }
    {
        let _ = self.all.pop();
    }

    /// Passes a token.
    pub fn pass(&mut self, tok: &Tok) -> Result<(), AllocError>
        ensures { (names : List (List ℕ)) → OnOk result (self.new ≡ opens_behind (lexeme names tok.now) self.old) }
    {
        match tok {
            Tok::TextHead(_) => self.open(Opening::Text),
            Tok::Sym(Symbol::SLParen) => self.open(Opening::Paren),
            Tok::TextTail(_) | Tok::Sym(Symbol::SRParen) => {
                self.close();
                Ok(())
            }
            _ => Ok(()),
        }
    }
}
