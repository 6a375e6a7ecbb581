// The arguments of globals as nodes.

ghost use Rattle.std.specs.Prelude.{◌≡◌, ◌∷◌, [], IfOk, Some, length, map, slice_get};
ghost use Rattle.std.specs.Option.{option_map};
ghost use Rattle.mz_core.specs.declared.types.Base.TheVariants as base;
ghost use Rattle.mz_value.specs.Contents.{contents};
ghost use Rattle.mz_value.specs.Contents as values;
ghost use Rattle.mz_symbol.specs.Readings.{Reading, Reads};
ghost use Rattle.glob_nodes.specs.Arguments.{IsWhole, array_value, int_symbol};

use mz_arena::Id;
use mz_base::Memory;
use mz_core::Base;
use mz_symbol::{Run, Symbol};
use std::alloc::Global;

/// An array of integers, of one dimension.
#[derive(Drop)]
pub struct Numbers {
    /// The first index.
    pub first: i64,
    /// The last index, which is less than the first one where there is no element.
    pub last: i64,
    /// The Boolean node that is 1 where the array is defined.
    pub defined: Id,
    /// The elements; where the array is defined, each has a value.
    pub items: Vec<Id>,
}

/// A var array of integers under this index range. Out of memory too where there is no such array,
/// or an element is no integer.
pub fn numbers_of(
    alloc: Global,
    run: &Run,
    line: u64,
    first: i64,
    last: i64,
) -> Result<Numbers, Memory>
    ensures whole { IfOk result (λ a. IsWhole run.now a) }
    ensures value { IfOk result (λ a. (r : Reading) → Reads r run.now → array_value r a ≡ option_map (λ xs. values.array ((first, last) ∷ []) (contents xs)) (r.line line)) }
    ensures count { IfOk result (λ a. Some (length a.items.items) ≡ option_map (λ l. length l.items.items) (slice_get run.now.lines line)) }
{
    match run.line(line) {
        None => Err(Memory),
        Some(l) => {
            let items = integers(alloc, &l.items)?;
            Ok(gathered(first, last, l.defined, items))
        }
    }
}

fn gathered(first: i64, last: i64, defined: Id, items: Vec<Id>) -> Numbers
    ensures first { result.first ≡ first }
    ensures last { result.last ≡ last }
    ensures defined { result.defined ≡ defined }
    ensures items { result.items.items ≡ items.items }
{
    Numbers {
        first,
        last,
        defined,
        items,
    }
}

/// The nodes of integers that are no options.
fn integers(alloc: Global, items: &[Symbol]) -> Result<Vec<Id>, Memory>
    ensures { IfOk result (λ ids. map int_symbol ids.items ≡ items.now) }
{
    let mut ids = Vec::new(alloc);
    for s in items {
        ids.push(integer(*s)?)?;
    }
    Ok(ids)
}

/// The node of an integer that is no option. Out of memory of other symbols.
pub fn integer(s: Symbol) -> Result<Id, Memory>
    ensures { IfOk result (λ id. int_symbol id ≡ s) }
{
    match s.base {
        Base::Int => single(s),
        _ => Err(Memory),
    }
}

fn single(s: Symbol) -> Result<Id, Memory>
    requires { s.base ≡ base.Int }
    ensures { IfOk result (λ id. int_symbol id ≡ s) }
{
    match s.occurs {
        None => Ok(s.term),
        Some(_) => Err(Memory),
    }
}
