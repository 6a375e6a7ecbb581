// Tests on the next token.

ghost use Rattle.std.specs.Prelude.{◌≡◌, Some};
ghost use Rattle.mz_grammar.specs.Tokens.{tok_at};
ghost use Rattle.mz_grammar.specs.Tests.{begins_type, text_of};

use mz_base::Name;
use mz_grammar::Cursor;
use mz_lexer::{Keyword, Tok};

fn token_begins_type(tok: Tok) -> bool
    ensures { result ≡ begins_type (Some tok) }
{
    match tok {
        Tok::Word(k) => matches!(
            k,
            Keyword::KArray
                | Keyword::KList
                | Keyword::KVar
                | Keyword::KPar
                | Keyword::KOpt
                | Keyword::KSet
                | Keyword::KBool
                | Keyword::KInt
        ),
        _ => false,
    }
}

/// Whether a keyword stands here with which a type begins.
pub fn begins_type(cur: &Cursor<'_>) -> bool
    ensures { result ≡ begins_type (tok_at cur.now.rest.now) }
{
    match cur.tok() {
        None => false,
        Some(t) => token_begins_type(t),
    }
}

fn token_text(tok: Tok) -> Option<Name>
    ensures { result ≡ text_of (Some tok) }
{
    match tok {
        Tok::Text(n) => Some(n),
        _ => None,
    }
}

/// The text that stands here, if it is one with nothing between its pieces.
pub fn text_of(cur: &Cursor<'_>) -> Option<Name>
    ensures { result ≡ text_of (tok_at cur.now.rest.now) }
{
    match cur.tok() {
        None => None,
        Some(t) => token_text(t),
    }
}
