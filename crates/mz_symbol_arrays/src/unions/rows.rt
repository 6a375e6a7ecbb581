// The rows.

ghost use Rattle.std.specs.Prelude.{◌≡◌, ◌*◌, ◌+◌, IfOk, List, slice_get, true, false, ◌≤◌};
ghost use Rattle.mz_value.specs.Ranges.{Range};
ghost use Rattle.mz_operations.specs.declared.row.MadeRow.TheVariants as row;
ghost use Rattle.mz_meaning.specs.Cells.{held};
ghost use Rattle.mz_meaning.specs.Runs.{give};
ghost use Rattle.mz_symbol.specs.Readings.{Reading, Reads, symbol_seen};
ghost use Rattle.mz_symbol.specs.Makes.{GoesOnBy, Means};
ghost use Rattle.mz_symbol_arrays.specs.LineValues.{count_of};
ghost use Rattle.mz_symbol_arrays.specs.UnionValues.{sets_row};
ghost use Rattle.mz_symbol_arrays.specs.StepsUnions.{IsLost};

use crate::lines::defined;
use crate::unions::nodes::{guard_node, set_node, whole};
use crate::unions::walk::folded;
use mz_base::Stop;
use mz_operations::SetOp;
use mz_symbol::{Run, Symbol};
use mz_value::RangeSet;
use std::alloc::Global;

/// `array_union` of an array of sets. Undefined where the array is.
///
/// Out of memory too where there is no such array, or an element isn't a set.
#[tactic(auto, using(mz_symbol_rows::proofs::GoingOn::goes_both, mz_symbol_rows::proofs::GoingOn::goes_most))]
pub fn array_union(alloc: Global, run: &mut Run, line: u64) -> Result<Symbol, Stop>
    ensures goes { GoesOnBy (4 * count_of (slice_get run.old.lines line) + 8) run.old run.new }
    ensures means { (ix : List Range) → Means symbol_seen result run.old run.new (λ r. give (held r.mode (sets_row r row.ArrayUnion ix line))) }
{
    let found = defined(run, line)?;
    let none = RangeSet::range(alloc, 1, 0)?;
    let empty = run.set(None, none)?;
    let first = set_node(empty)?;
    let Ok(all) = folded(run, SetOp::Union, line, 0, found.1, first) else {
        return Err(Stop::Memory);
    };
    let term = guard_node(run, found.0, all)?;
    Ok(whole(term))
}

fn has_some(count: u64) -> bool
    ensures some { result ≡ true → 1 ≤ count }
    ensures none { result ≡ false → count ≡ 0 }
{
    count > 0
}

/// A set that is undefined.
#[tactic(auto, using(mz_symbol_rows::proofs::GoingOn::goes_both, mz_symbol_rows::proofs::GoingOn::goes_most))]
fn nothing(alloc: Global, run: &mut Run) -> Result<Symbol, Stop>
    ensures goes { GoesOnBy 8 run.old run.new }
    ensures lost { IfOk result (λ s. (r : Reading) → Reads r run.new → IsLost r run.old run.new s) }
{
    let none = RangeSet::range(alloc, 1, 0)?;
    let any = run.set(None, none)?;
    let no = run.truth_node(false)?;
    let term = guard_node(run, no, any.term)?;
    Ok(whole(term))
}

/// `array_intersect` of an array of sets. Undefined where the array is, and of none.
///
/// Out of memory too where there is no such array, or an element isn't a set.
#[tactic(auto, using(mz_symbol_rows::proofs::GoingOn::goes_both, mz_symbol_rows::proofs::GoingOn::goes_most))]
pub fn array_intersect(alloc: Global, run: &mut Run, line: u64) -> Result<Symbol, Stop>
    ensures goes { GoesOnBy (4 * count_of (slice_get run.old.lines line) + 8) run.old run.new }
    ensures means { (ix : List Range) → Means symbol_seen result run.old run.new (λ r. give (held r.mode (sets_row r row.ArrayIntersect ix line))) }
{
    let found = defined(run, line)?;
    if !has_some(found.1) {
        let Ok(none) = nothing(alloc, run) else {
            return Err(Stop::Memory);
        };
        return Ok(none);
    }
    let Some(item) = run.element(line, 0) else {
        return Err(Stop::Memory);
    };
    let first = set_node(item)?;
    let Ok(all) = folded(run, SetOp::Intersect, line, 1, found.1, first) else {
        return Err(Stop::Memory);
    };
    let term = guard_node(run, found.0, all)?;
    Ok(whole(term))
}
