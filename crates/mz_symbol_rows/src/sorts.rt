// Which symbols a row takes.

ghost use Rattle.std.specs.Prelude.{◌≡◌, true, IfOk};
ghost use Rattle.mz_core.specs.declared.types.Base.TheVariants as base;
ghost use Rattle.mz_symbol_rows.specs.RowValues.{is_single};
ghost use Rattle.mz_symbol_rows.specs.StepsNodes.{IsOf, IsPair, symbol_of, is_ordinal};

use mz_arena::Id;
use mz_base::Memory;
use mz_core::Base;
use mz_symbol::Symbol;

/// The node of an integer that is no option.
pub(crate) fn integer(s: Symbol) -> Result<Id, Memory>
    ensures { IfOk result (λ id. IsOf base.Int id s) }
{
    match s.base {
        Base::Int => single(s),
        _ => Err(Memory),
    }
}

/// The node of a truth value that is no option.
pub(crate) fn truth(s: Symbol) -> Result<Id, Memory>
    ensures { IfOk result (λ id. IsOf base.Bool id s) }
{
    match s.base {
        Base::Bool => single(s),
        _ => Err(Memory),
    }
}

/// The node of a truth value or of a case that is no option.
pub(crate) fn with_ordinal(s: Symbol) -> Result<Id, Memory>
    ensures of { IfOk result (λ id. IsOf s.base id s) }
    ensures ordinal { IfOk result (λ _. is_ordinal s.base ≡ true) }
{
    match s.base {
        Base::Bool => single(s),
        Base::Enum(_) => single(s),
        _ => Err(Memory),
    }
}

/// The node of what is no option.
fn single(s: Symbol) -> Result<Id, Memory>
    ensures { IfOk result (λ id. IsOf s.base id s) }
{
    match s.occurs {
        None => Ok(s.term),
        Some(_) => Err(Memory),
    }
}

/// Whether these are two single values of one base, and no options.
pub(crate) fn is_pair(a: Symbol, b: Symbol) -> bool
    ensures { result ≡ true → IsPair a b }
{
    if a.occurs.is_some() {
        return false;
    }
    if b.occurs.is_some() {
        return false;
    }
    are_alike(a.base, b.base)
}

fn are_alike(a: Base, b: Base) -> bool
    ensures same { result ≡ true → b ≡ a }
    ensures single { result ≡ true → is_single a ≡ true }
{
    match a {
        Base::Bool => match b {
            Base::Bool => true,
            _ => false,
        },
        Base::Int => match b {
            Base::Int => true,
            _ => false,
        },
        Base::Enum(d) => match b {
            Base::Enum(e) => d == e,
            _ => false,
        },
        _ => false,
    }
}

/// A symbol that is no option.
pub(crate) fn symbol(base: Base, term: Id) -> Symbol
    ensures { result ≡ symbol_of base term }
{
    Symbol {
        base,
        occurs: None,
        term,
    }
}
