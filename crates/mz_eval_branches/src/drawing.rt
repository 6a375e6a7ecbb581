// A var array whose charge is drawn from what the run has saved.

ghost use Rattle.std.specs.Prelude.{◌≡◌, ◌*◌, IfOk};
ghost use Rattle.mz_meaning.specs.Runs.{give};
ghost use Rattle.mz_symbol.specs.Makes.{GoesOn, Means};
ghost use Rattle.mz_eval_cells.specs.Views.{all_seen, seen};
ghost use Rattle.mz_eval_arrays.specs.ArrayCells.{array_over};

use mz_base::{Memory, Stop};
use mz_core::Base;
use mz_eval_arrays::array_over;
use mz_eval_cells::Known;
use mz_symbol::Run;
use std::alloc::Global;

/// What the nodes of so many elements may cost; out of memory where that is no number.
fn array_charge(count: u64) -> Result<u64, Memory>
    ensures { IfOk result (λ n. n ≡ 58 * count) }
{
    let each: u64 = 58;
    each.checked_mul(count).ok_or(Memory)
}

/// The var array of cells with these index ranges.
pub(crate) fn drawn_array(
    alloc: Global,
    run: &mut Run,
    base: Base,
    opt: bool,
    ranges: Vec<(i64, i64)>,
    all: &[Known],
) -> Result<Known, Stop>
    ensures goes { GoesOn run.old run.new }
    ensures means { Means seen result run.old run.new (λ r. give (array_over r.mode ranges.items (all_seen r all.now))) }
{
    let charge = array_charge(all.len() as u64)?;
    run.draw(charge)?;
    let k = array_over(alloc, run, base, opt, ranges, all)?;
    Ok(k)
}
