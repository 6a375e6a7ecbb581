// Calls of globals with sets.

ghost use Rattle.std.specs.Prelude.{◌∷◌, [], IfOk};
ghost use Rattle.mz_core.specs.declared.types.Base.TheVariants as base;
ghost use Rattle.mz_globals.specs.declared.global.Global.TheVariants as global;
ghost use Rattle.mz_symbol.specs.Makes.{GoesOn, GoesOnBy};
ghost use Rattle.glob_sets.specs.Arrays.{IsSet};
ghost use Rattle.mz_eval_global_terms.specs.Calls.{IsCall, IsSame, call_room};

use crate::arguments::{number_in, numbers_in, set_in, sets_in, truths_in};
use glob_count::among;
use glob_sets::{all_disjoint, channel, link, partition_set};
use mz_arena::Id;
use mz_base::Memory;
use mz_eval_cells::Known;
use mz_symbol::Run;
use mz_value::RangeSet;
use std::alloc::Global;

/// `among`.
pub(crate) fn of_among(
    alloc: Global,
    a: &Known,
    b: &Known,
    c: &Known,
    run: &mut Run,
) -> Result<Id, Memory>
    ensures goes { GoesOnBy (call_room global.Among (a.now ∷ b.now ∷ c.now ∷ [])) run.old run.new }
    ensures call { IfOk result (IsCall base.Bool global.Among (a.now ∷ b.now ∷ c.now ∷ []) run.old run.new) }
{
    let n = number_in(alloc, a, run)?;
    let v = set_in(alloc, c, run)?;
    let xs = numbers_in(alloc, b, run)?;
    let id = among(run, n, &xs, v)?;
    Ok(id)
}

/// The set that has no element.
fn no_element(alloc: Global, run: &mut Run) -> Result<Id, Memory>
    ensures goes { GoesOn run.old run.new }
    ensures same { IfOk result (λ _. IsSame run.old run.new) }
    ensures none { IfOk result (λ id. IsSet run.new id []) }
{
    let set = RangeSet::range(alloc, 1, 0)?;
    match run.set_term(set) {
        Ok(id) => Ok(id),
        Err(_) => Err(Memory),
    }
}

/// `all_disjoint`.
pub(crate) fn of_disjoint(alloc: Global, a: &Known, run: &mut Run) -> Result<Id, Memory>
    ensures goes { GoesOnBy (call_room global.Disjoint (a.now ∷ [])) run.old run.new }
    ensures call { IfOk result (IsCall base.Bool global.Disjoint (a.now ∷ []) run.old run.new) }
{
    let none = no_element(alloc, run)?;
    let ss = sets_in(alloc, a, run)?;
    let id = all_disjoint(run, &ss, none)?;
    Ok(id)
}

/// `partition_set`.
pub(crate) fn of_partition(alloc: Global, a: &Known, b: &Known, run: &mut Run) -> Result<Id, Memory>
    ensures goes { GoesOnBy (call_room global.Partition (a.now ∷ b.now ∷ [])) run.old run.new }
    ensures call { IfOk result (IsCall base.Bool global.Partition (a.now ∷ b.now ∷ []) run.old run.new) }
{
    let none = no_element(alloc, run)?;
    let u = set_in(alloc, b, run)?;
    let ss = sets_in(alloc, a, run)?;
    let id = partition_set(run, &ss, u, none)?;
    Ok(id)
}

/// `int_set_channel`.
pub(crate) fn of_channel(alloc: Global, a: &Known, b: &Known, run: &mut Run) -> Result<Id, Memory>
    ensures goes { GoesOnBy (call_room global.Channel (a.now ∷ b.now ∷ [])) run.old run.new }
    ensures call { IfOk result (IsCall base.Bool global.Channel (a.now ∷ b.now ∷ []) run.old run.new) }
{
    let xs = numbers_in(alloc, a, run)?;
    let ys = sets_in(alloc, b, run)?;
    let id = channel(alloc, run, &xs, &ys)?;
    Ok(id)
}

/// `link_set_to_booleans`.
pub(crate) fn of_link(alloc: Global, a: &Known, b: &Known, run: &mut Run) -> Result<Id, Memory>
    ensures goes { GoesOnBy (call_room global.Link (a.now ∷ b.now ∷ [])) run.old run.new }
    ensures call { IfOk result (IsCall base.Bool global.Link (a.now ∷ b.now ∷ []) run.old run.new) }
{
    let s = set_in(alloc, a, run)?;
    let bs = truths_in(alloc, b, run)?;
    let id = link(alloc, run, s, &bs)?;
    Ok(id)
}
