// Which symbols a row over sets takes.

ghost use Rattle.std.specs.Prelude.{◌≡◌, IfOk};
ghost use Rattle.mz_symbol_rows.specs.StepsNodes.{symbol_of};
ghost use Rattle.mz_symbol_rows.specs.StepsSets.{combined_base, IsCaseOf, IsElementOf, IsSetOf};

use mz_arena::Id;
use mz_base::Memory;
use mz_core::Base;
use mz_symbol::Symbol;

/// The node of a set.
pub(crate) fn set_node(s: Symbol) -> Result<Id, Memory>
    ensures { IfOk result (λ id. IsSetOf id s) }
{
    match s.occurs {
        None => match s.base {
            Base::SetInt => Ok(s.term),
            Base::SetEnum(_) => Ok(s.term),
            _ => Err(Memory),
        },
        Some(_) => Err(Memory),
    }
}

/// The node of an integer or of a case.
pub(crate) fn element_node(s: Symbol) -> Result<Id, Memory>
    ensures { IfOk result (λ id. IsElementOf id s) }
{
    match s.occurs {
        None => match s.base {
            Base::Int => Ok(s.term),
            Base::Enum(_) => Ok(s.term),
            _ => Err(Memory),
        },
        Some(_) => Err(Memory),
    }
}

/// The enum of a case, and its node.
pub(crate) fn case_node(s: Symbol) -> Result<(u64, Id), Memory>
    ensures { IfOk result (λ q. IsCaseOf q.0 q.1 s) }
{
    match s.occurs {
        None => match s.base {
            Base::Enum(e) => Ok((e, s.term)),
            _ => Err(Memory),
        },
        Some(_) => Err(Memory),
    }
}

/// The base of what is made of two sets.
pub(crate) fn combined_base(a: Base, b: Base) -> Base
    ensures { result ≡ combined_base a b }
{
    match a {
        Base::SetEnum(e) => Base::SetEnum(e),
        _ => b,
    }
}

pub(crate) fn symbol(base: Base, term: Id) -> Symbol
    ensures { result ≡ symbol_of base term }
{
    Symbol {
        base,
        occurs: None,
        term,
    }
}
