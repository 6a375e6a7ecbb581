// What one token of a data file is.

ghost use Rattle.std.specs.Prelude.{◌≡◌};
ghost use Rattle.std.specs.Option.{option_map};
ghost use Rattle.mz_tree.specs.Data.{value};
ghost use Rattle.mz_grammar.specs.Tests.{ident_of, ends_row};
ghost use Rattle.mz_grammar.specs.Data.{literal_of, negated_of};

use mz_base::Name;
use mz_lexer::{Keyword, Symbol, Tok};
use mz_tree::{Datum, make_bool_datum, make_ident_datum, make_int_datum};

/// The name of an identifier.
pub fn ident_of(tok: Option<Tok>) -> Option<Name>
    ensures { result ≡ ident_of tok }
{
    match &tok {
        Some(Tok::Ident(n)) => Some(*n),
        _ => None,
    }
}

/// Whether a row of a table ends before this token.
#[tactic(auto, unfolding(mz_grammar::specs::Look::symbol_number))]
pub fn ends_row(tok: Option<Tok>) -> bool
    ensures { result ≡ ends_row tok }
{
    match tok {
        Some(Tok::Sym(Symbol::SBar)) => true,
        Some(Tok::Sym(Symbol::SRRows)) => true,
        _ => false,
    }
}

/// The value that one token is.
pub fn literal_of(tok: Option<Tok>) -> Option<Datum>
    ensures { option_map value result ≡ literal_of tok }
{
    match &tok {
        Some(Tok::Word(Keyword::KTrue)) => Some(make_bool_datum(true)),
        Some(Tok::Word(Keyword::KFalse)) => Some(make_bool_datum(false)),
        Some(Tok::Int(z)) => Some(make_int_datum(*z)),
        Some(Tok::Ident(n)) => Some(make_ident_datum(*n)),
        _ => None,
    }
}

/// The number that a `-` makes of the number after it.
pub fn negated_of(tok: Option<Tok>) -> Option<i64>
    ensures { result ≡ negated_of tok }
{
    match tok {
        Some(Tok::Int(z)) => { if z < 0 { None } else { Some(-z) } }
        _ => None,
    }
}
