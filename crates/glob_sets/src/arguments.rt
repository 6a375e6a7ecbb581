// Arrays of sets of integers, and of Booleans, as nodes.

ghost use Rattle.std.specs.Prelude.{◌≡◌, ◌∷◌, [], IfOk, Some, length, map, slice_get};
ghost use Rattle.std.specs.Option.{option_map};
ghost use Rattle.mz_core.specs.declared.types.Base.TheVariants as base;
ghost use Rattle.mz_value.specs.Contents.{contents};
ghost use Rattle.mz_value.specs.Contents as values;
ghost use Rattle.mz_symbol.specs.Readings.{Reading, Reads};
ghost use Rattle.glob_sets.specs.Arrays.{AreSets, AreTruths, plain_symbol, sets_value, truths_value};

use glob_nodes::Numbers;
use mz_arena::Id;
use mz_base::Memory;
use mz_core::Base;
use mz_symbol::{Run, Symbol};
use std::alloc::Global;

/// A var array of sets of integers under this index range; its elements are the nodes of the sets. Out
/// of memory too where there is no such array, or an element is no set of integers.
pub fn sets_of(
    alloc: Global,
    run: &Run,
    line: u64,
    first: i64,
    last: i64,
) -> Result<Numbers, Memory>
    ensures sets { IfOk result (λ a. AreSets run.now a) }
    ensures value { IfOk result (λ a. (r : Reading) → Reads r run.now → sets_value r a ≡ option_map (λ xs. values.array ((first, last) ∷ []) (contents xs)) (r.line line)) }
    ensures count { IfOk result (λ a. Some (length a.items.items) ≡ option_map (λ l. length l.items.items) (slice_get run.now.lines line)) }
{
    match run.line(line) {
        None => Err(Memory),
        Some(l) => {
            let items = sets(alloc, &l.items)?;
            Ok(gathered(first, last, l.defined, items))
        }
    }
}

/// A var array of Booleans under this index range; its elements are the nodes of the Booleans. Out of
/// memory too where there is no such array, or an element is no Boolean.
pub fn truths_of(
    alloc: Global,
    run: &Run,
    line: u64,
    first: i64,
    last: i64,
) -> Result<Numbers, Memory>
    ensures truths { IfOk result (λ a. AreTruths run.now a) }
    ensures value { IfOk result (λ a. (r : Reading) → Reads r run.now → truths_value r a ≡ option_map (λ xs. values.array ((first, last) ∷ []) (contents xs)) (r.line line)) }
    ensures count { IfOk result (λ a. Some (length a.items.items) ≡ option_map (λ l. length l.items.items) (slice_get run.now.lines line)) }
{
    match run.line(line) {
        None => Err(Memory),
        Some(l) => {
            let items = truths(alloc, &l.items)?;
            Ok(gathered(first, last, l.defined, items))
        }
    }
}

fn gathered(first: i64, last: i64, defined: Id, items: Vec<Id>) -> Numbers
    ensures first { result.first ≡ first }
    ensures last { result.last ≡ last }
    ensures defined { result.defined ≡ defined }
    ensures items { result.items.items ≡ items.items }
{
    Numbers {
        first,
        last,
        defined,
        items,
    }
}

/// The nodes of sets of integers that are no options.
fn sets(alloc: Global, items: &[Symbol]) -> Result<Vec<Id>, Memory>
    ensures { IfOk result (λ ids. map (plain_symbol base.SetInt) ids.items ≡ items.now) }
{
    let mut ids = Vec::new(alloc);
    for s in items {
        ids.push(set_of_integers(*s)?)?;
    }
    Ok(ids)
}

/// The node of a set of integers that is no option. Out of memory of other symbols.
pub fn set_of_integers(s: Symbol) -> Result<Id, Memory>
    ensures { IfOk result (λ id. plain_symbol base.SetInt id ≡ s) }
{
    match s.base {
        Base::SetInt => single(s),
        _ => Err(Memory),
    }
}

/// The nodes of Booleans that are no options.
fn truths(alloc: Global, items: &[Symbol]) -> Result<Vec<Id>, Memory>
    ensures { IfOk result (λ ids. map (plain_symbol base.Bool) ids.items ≡ items.now) }
{
    let mut ids = Vec::new(alloc);
    for s in items {
        ids.push(truth(*s)?)?;
    }
    Ok(ids)
}

fn truth(s: Symbol) -> Result<Id, Memory>
    ensures { IfOk result (λ id. plain_symbol base.Bool id ≡ s) }
{
    match s.base {
        Base::Bool => single(s),
        _ => Err(Memory),
    }
}

fn single(s: Symbol) -> Result<Id, Memory>
    ensures { IfOk result (λ id. plain_symbol s.base id ≡ s) }
{
    match s.occurs {
        None => Ok(s.term),
        Some(_) => Err(Memory),
    }
}
