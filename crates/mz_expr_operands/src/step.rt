// Single tokens and separators.

ghost use Rattle.std.specs.Prelude.{◌≡◌, ◌<◌, OnOk, length, Some};
ghost use Rattle.mz_grammar.specs.Tokens.{tok_at};
ghost use Rattle.mz_grammar.specs.RulesPromise.{Gives};
ghost use Rattle.mz_grammar.specs.Tests.{closes, is_left_out, ident_of, middle_of, tail_of, ends_row, begins_expression, begins_base};
ghost use Rattle.mz_grammar.specs.Steps.{ident_at, separator_at, let_separator_at};

use mz_base::{Name, Span, Stop};
use mz_grammar::{Closing, Cursor, is_sym, is_word};
use mz_lexer::{Keyword, Symbol, Tok};

/// Whether the token closes the list.
pub fn closes(c: Closing, tok: Option<Tok>) -> bool
    ensures { result ≡ closes c tok }
{
    match c {
        Closing::Paren => is_sym(Symbol::SRParen, tok),
        Closing::Bracket => is_sym(Symbol::SRBrack, tok),
        Closing::Elements => is_sym(Symbol::SRBrack, tok),
        Closing::Brace => is_sym(Symbol::SRBrace, tok),
    }
}

fn is_left_out(c: Closing, tok: Option<Tok>) -> bool
    ensures { result ≡ is_left_out c tok }
{
    match c {
        Closing::Elements => is_sym(Symbol::SColon, tok),
        _ => false,
    }
}

/// Whether a row of an array literal ends here.
pub fn ends_row(cur: &Cursor<'_>) -> bool
    ensures { result ≡ ends_row (tok_at cur.now.rest.now) }
{
    is_sym(Symbol::SBar, cur.tok()) || is_sym(Symbol::SRRows, cur.tok())
}

fn begins_expression(tok: Option<Tok>) -> bool
    ensures { result ≡ begins_expression tok }
{
    match tok {
        None => false,
        Some(t) => token_begins_expression(t),
    }
}

fn token_begins_expression(tok: Tok) -> bool
    ensures { result ≡ begins_expression (Some tok) }
{
    match tok {
        Tok::Int(_) => true,
        Tok::Text(_) => true,
        Tok::TextHead(_) => true,
        Tok::Ident(_) => true,
        Tok::Word(k) => matches!(
            k,
            Keyword::KTrue | Keyword::KFalse | Keyword::KIf | Keyword::KLet | Keyword::KNot
        ),
        Tok::Sym(s) => matches!(
            s,
            Symbol::SPlus
                | Symbol::SMinus
                | Symbol::SAbsent
                | Symbol::SLParen
                | Symbol::SLBrack
                | Symbol::SLRows
                | Symbol::SLBrace
        ),
        _ => false,
    }
}

/// Whether an index type may begin here.
pub fn begins_base(cur: &Cursor<'_>) -> bool
    ensures { result ≡ begins_base (tok_at cur.now.rest.now) }
{
    is_word(Keyword::KBool, cur.tok())
        || is_word(Keyword::KInt, cur.tok())
        || begins_expression(cur.tok())
}

fn token_ident(tok: Tok) -> Option<Name>
    ensures { result ≡ ident_of (Some tok) }
{
    match tok {
        Tok::Ident(n) => Some(n),
        _ => None,
    }
}

/// The name of the identifier that stands here.
pub fn ident_of(cur: &Cursor<'_>) -> Option<Name>
    ensures { result ≡ ident_of (tok_at cur.now.rest.now) }
{
    match cur.tok() {
        None => None,
        Some(t) => token_ident(t),
    }
}

fn token_middle(tok: Tok) -> Option<Name>
    ensures { result ≡ middle_of (Some tok) }
{
    match tok {
        Tok::TextMid(n) => Some(n),
        _ => None,
    }
}

/// The piece between two others of a text that stands here.
pub fn middle_of(cur: &Cursor<'_>) -> Option<Name>
    ensures { result ≡ middle_of (tok_at cur.now.rest.now) }
{
    match cur.tok() {
        None => None,
        Some(t) => token_middle(t),
    }
}

fn token_tail(tok: Tok) -> Option<Name>
    ensures { result ≡ tail_of (Some tok) }
{
    match tok {
        Tok::TextTail(n) => Some(n),
        _ => None,
    }
}

/// The last piece of a text that stands here.
pub fn tail_of(cur: &Cursor<'_>) -> Option<Name>
    ensures { result ≡ tail_of (tok_at cur.now.rest.now) }
{
    match cur.tok() {
        None => None,
        Some(t) => token_tail(t),
    }
}

/// An identifier, with its place.
pub fn ident(cur: &mut Cursor<'_>) -> Result<(Name, Span), Stop>
    ensures reads { Gives (λ i. i) cur.new.end cur.new.rest.now result (ident_at cur.old.rest.now) }
    ensures room { cur.new.room ≡ cur.old.room }
    ensures end { cur.new.end ≡ cur.old.end }
    ensures shorter { OnOk result (length cur.new.rest.now < length cur.old.rest.now) }
{
    match ident_of(cur) {
        None => Err(cur.unfit()),
        Some(n) => Ok((n, cur.pass())),
    }
}

/// What follows an element: a comma, after which another may stand, or the closing token.
pub fn separator(cur: &mut Cursor<'_>, c: Closing) -> Result<bool, Stop>
    ensures reads { Gives (λ b. b) cur.new.end cur.new.rest.now result (separator_at c cur.old.rest.now) }
    ensures room { cur.new.room ≡ cur.old.room }
    ensures end { cur.new.end ≡ cur.old.end }
    ensures shorter { OnOk result (length cur.new.rest.now < length cur.old.rest.now) }
{
    if is_sym(Symbol::SComma, cur.tok()) {
        cur.skip();
        return Ok(true);
    }
    if closes(c, cur.tok()) {
        cur.skip();
        return Ok(false);
    }
    if is_left_out(c, cur.tok()) {
        return Err(cur.left_out());
    }
    Err(cur.unfit())
}

/// What follows an item of a `let`.
pub fn let_separator(cur: &mut Cursor<'_>) -> Result<bool, Stop>
    ensures reads { Gives (λ b. b) cur.new.end cur.new.rest.now result (let_separator_at cur.old.rest.now) }
    ensures room { cur.new.room ≡ cur.old.room }
    ensures end { cur.new.end ≡ cur.old.end }
    ensures shorter { OnOk result (length cur.new.rest.now < length cur.old.rest.now) }
{
    if is_sym(Symbol::SComma, cur.tok()) || is_sym(Symbol::SSemi, cur.tok()) {
        cur.skip();
        return Ok(true);
    }
    if is_sym(Symbol::SRBrace, cur.tok()) {
        cur.skip();
        return Ok(false);
    }
    Err(cur.unfit())
}
