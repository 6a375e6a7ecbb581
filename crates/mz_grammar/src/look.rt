// Tests on one token.

ghost use Rattle.std.specs.Prelude.{◌≡◌};
ghost use Rattle.mz_grammar.specs.Look.{keyword_number, symbol_number, is_word, is_sym};

use mz_lexer::{Keyword, Symbol, Tok};

#[tactic(auto, unfolding(crate::specs::Look::keyword_number))]
fn keyword_number(k: Keyword) -> u8
    ensures { result ≡ keyword_number k }
{
    k as u8
}

#[tactic(auto, unfolding(crate::specs::Look::symbol_number))]
fn symbol_number(s: Symbol) -> u8
    ensures { result ≡ symbol_number s }
{
    s as u8
}

/// Whether the token is this keyword.
pub fn is_word(k: Keyword, tok: Option<Tok>) -> bool
    ensures { result ≡ is_word k tok }
{
    match tok {
        Some(Tok::Word(w)) => keyword_number(w) == keyword_number(k),
        _ => false,
    }
}

/// Whether the token is this symbol.
pub fn is_sym(s: Symbol, tok: Option<Tok>) -> bool
    ensures { result ≡ is_sym s tok }
{
    match tok {
        Some(Tok::Sym(t)) => symbol_number(t) == symbol_number(s),
        _ => false,
    }
}
