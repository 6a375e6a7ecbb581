// How the names of a tree are spelled.

ghost use Rattle.std.specs.Prelude.{All, IfSome, ◌<◌, length};
ghost use Rattle.mz_lexer.specs.Views.{HasName, IsNamed};

use mz_base::{Memory, Name, Names};
use mz_lexer::{Tok, Token};
use std::alloc::Global;

/// The names of a file's tokens, with their texts.
#[derive(Drop)]
pub struct Spellings {
    known: Vec<(Name, String)>,
}

/// The name of a token, where it has one.
fn name_of(tok: Tok, names: &Names) -> Option<Name>
    requires { IsNamed names.now tok }
    ensures { IfSome result (λ n. n < length names.now) }
{
    match tok {
        Tok::Ident(n) => Some(n),
        Tok::Text(n) => Some(n),
        Tok::TextHead(n) => Some(n),
        Tok::TextMid(n) => Some(n),
        Tok::TextTail(n) => Some(n),
        _ => None,
    }
}

impl Spellings {
    /// The names of these tokens.
    pub fn of(alloc: Global, tokens: &[Token], names: &Names) -> Result<Spellings, Memory>
        requires { All (HasName names.now) tokens.now }
    {
        let mut known = Vec::new(alloc);
        for token in tokens {
            if let Some(n) = name_of(token.tok, names) {
                known.push((n, String::from_str(alloc, names.text(n))?))?;
            }
        }
        Ok(Spellings { known })
    }

    /// The text of a name; `?` for one that no token has.
    pub fn text(&self, n: Name) -> &str {
        for (known, text) in self.known.as_slice() {
            if *known == n {
                return text.as_str();
            }
        }
        "?"
    }
}
