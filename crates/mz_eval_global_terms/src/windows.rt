// Calls of `sliding_sum`.

ghost use Rattle.std.specs.Prelude.{◌∷◌, [], IfOk};
ghost use Rattle.mz_core.specs.declared.types.Base.TheVariants as base;
ghost use Rattle.mz_globals.specs.declared.global.Global.TheVariants as global;
ghost use Rattle.mz_symbol.specs.Makes.{GoesOnBy};
ghost use Rattle.mz_eval_global_terms.specs.Calls.{IsCall, call_room};

use crate::arguments::{number_in, numbers_in};
use crate::par::{count_in, is_undefined};
use glob_count::sliding_sum;
use glob_nodes::truth;
use mz_arena::Id;
use mz_base::Memory;
use mz_eval_cells::Known;
use mz_symbol::Run;
use std::alloc::Global;

/// `sliding_sum` of so many elements.
fn of_windows(
    alloc: Global,
    a: &Known,
    b: &Known,
    n: &Known,
    d: &Known,
    run: &mut Run,
) -> Result<Id, Memory>
    ensures goes { GoesOnBy (call_room global.SlidingSum (a.now ∷ b.now ∷ n.now ∷ d.now ∷ [])) run.old run.new }
    ensures call { IfOk result (IsCall base.Bool global.SlidingSum (a.now ∷ b.now ∷ n.now ∷ d.now ∷ []) run.old run.new) }
{
    let seq = count_in(n)?;
    let low = number_in(alloc, a, run)?;
    let up = number_in(alloc, b, run)?;
    let xs = numbers_in(alloc, d, run)?;
    let id = sliding_sum(run, low, up, seq, &xs)?;
    Ok(id)
}

/// `sliding_sum`; false where the number of elements is undefined.
pub(crate) fn of_sliding(
    alloc: Global,
    a: &Known,
    b: &Known,
    n: &Known,
    d: &Known,
    run: &mut Run,
) -> Result<Id, Memory>
    ensures goes { GoesOnBy (call_room global.SlidingSum (a.now ∷ b.now ∷ n.now ∷ d.now ∷ [])) run.old run.new }
    ensures call { IfOk result (IsCall base.Bool global.SlidingSum (a.now ∷ b.now ∷ n.now ∷ d.now ∷ []) run.old run.new) }
{
    if is_undefined(n) {
        let id = truth(run, false)?;
        return Ok(id);
    }
    of_windows(alloc, a, b, n, d, run)
}
