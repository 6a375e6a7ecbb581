// Which symbols are options.

ghost use Rattle.std.specs.Prelude.{◌≡◌, true, IfOk, IfSome};
ghost use Rattle.mz_symbol_rows.specs.RowValues.{is_single};
ghost use Rattle.mz_symbol_rows.specs.StepsOptions.{AreOptions, IsOption, IsPlain, symbol_of};

use mz_arena::Id;
use mz_base::Memory;
use mz_core::Base;
use mz_symbol::Symbol;

/// The node of an option's occurrence.
pub(crate) fn occurrence(s: Symbol) -> Result<Id, Memory>
    ensures { IfOk result (λ o. IsOption o s) }
{
    if !is_single(s.base) {
        return Err(Memory);
    }
    match s.occurs {
        Some(o) => Ok(o),
        None => Err(Memory),
    }
}

/// The nodes of the occurrences of two options of one base.
pub(crate) fn occurrences(a: Symbol, b: Symbol) -> Result<(Id, Id), Memory>
    ensures { IfOk result (λ q. AreOptions q.0 q.1 a b) }
{
    let o = occurrence(a)?;
    if !are_same(a.base, b.base) {
        return Err(Memory);
    }
    match b.occurs {
        Some(p) => Ok((o, p)),
        None => Err(Memory),
    }
}

/// Whether this is a single value that is no option.
pub(crate) fn is_plain(s: Symbol) -> bool
    ensures { result ≡ true → IsPlain s }
{
    if s.occurs.is_some() {
        return false;
    }
    is_single(s.base)
}

/// Whether a value of this base is a truth value, an integer or a case.
pub(crate) fn is_single(base: Base) -> bool
    ensures { result ≡ is_single base }
{
    match base {
        Base::Bool => true,
        Base::Int => true,
        Base::Enum(_) => true,
        _ => false,
    }
}

fn are_same(a: Base, b: Base) -> bool
    ensures { result ≡ true → b ≡ a }
{
    match a {
        Base::Bool => match b {
            Base::Bool => true,
            _ => false,
        },
        Base::Int => match b {
            Base::Int => true,
            _ => false,
        },
        Base::Enum(d) => match b {
            Base::Enum(e) => d == e,
            _ => false,
        },
        _ => false,
    }
}

pub(crate) fn symbol(base: Base, occurs: Option<Id>, term: Id) -> Symbol
    ensures { result ≡ symbol_of base occurs term }
{
    Symbol { base, occurs, term }
}
