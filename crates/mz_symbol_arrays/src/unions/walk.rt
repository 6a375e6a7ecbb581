// A walk over the sets of an array.

ghost use Rattle.std.specs.Prelude.{◌*◌, ◌≤◌, IfOk};
ghost use Rattle.mz_symbol.specs.Readings.{Reading, Reads};
ghost use Rattle.mz_symbol.specs.Makes.{GoesOnBy};
ghost use Rattle.mz_symbol_arrays.specs.StepsUnions.{Advances, Folds};

use crate::unions::nodes::{joined, set_node};
use mz_arena::Id;
use mz_base::Stop;
use mz_operations::SetOp;
use mz_symbol::Run;

/// A set more.
#[tactic(auto, using(mz_symbol_rows::proofs::GoingOn::goes_both))]
fn advanced(run: &mut Run, op: SetOp, line: u64, i: u64, acc: Id) -> Result<Id, Stop>
    ensures goes { GoesOnBy 4 run.old run.new }
    ensures advances { IfOk result (λ id. (r : Reading) → Reads r run.new → Advances r run.old run.new op line i acc id) }
{
    let Some(item) = run.element(line, i) else {
        return Err(Stop::Memory);
    };
    let set = set_node(item)?;
    let all = joined(run, op, acc, set)?;
    Ok(all)
}

/// What is made of a set and the elements from a place on.
pub(crate) fn folded(
    run: &mut Run,
    op: SetOp,
    line: u64,
    from: u64,
    count: u64,
    first: Id,
) -> Result<Id, Stop>
    requires { from ≤ count }
    ensures goes { GoesOnBy (4 * count) run.old run.new }
    ensures folds { IfOk result (λ id. (r : Reading) → Reads r run.new → Folds r run.old run.new op line from count first id) }
{
    let mut acc = first;
    for i in from..count {
        acc = advanced(run, op, line, i, acc)?;
    }
    Ok(acc)
}
