// A walk over the elements of a var array.

ghost use Rattle.std.specs.Prelude.{◌≡◌, ◌*◌, IfOk, slice_get};
ghost use Rattle.mz_symbol.specs.Readings.{Reading, Reads};
ghost use Rattle.mz_symbol.specs.Makes.{GoesOnBy};
ghost use Rattle.mz_symbol_arrays.specs.LineValues.{count_of, IsLineOf};
ghost use Rattle.mz_symbol_arrays.specs.StepsLines.{Advances, Walks};

use crate::lines::seen::{joined, seen};
use mz_arena::Id;
use mz_base::{Memory, Stop};
use mz_symbol::{Run, Symbol};

/// What is made of an array's elements.
#[derive(Clone, Copy)]
pub(crate) enum Walk {
    /// Whether all are true.
    Forall,
    /// Whether one is true.
    Exists,
    /// Whether an odd number is true.
    Xorall,
    /// How many are true.
    Count,
}

/// The node that is 1 where an array is defined, and how many elements it has.
///
/// Out of memory where there is no such array.
pub fn defined(run: &Run, line: u64) -> Result<(Id, u64), Memory>
    ensures line { IfOk result (λ q. IsLineOf run.now line q.0 q.1) }
    ensures count { IfOk result (λ q. q.1 ≡ count_of (slice_get run.now.lines line)) }
{
    match run.line(line) {
        Some(l) => Ok((l.defined, l.items.len() as u64)),
        None => Err(Memory),
    }
}

/// An element more.
#[tactic(auto, using(mz_symbol_rows::proofs::GoingOn::goes_both))]
fn advanced(run: &mut Run, walk: Walk, line: u64, i: u64, acc: Symbol) -> Result<Symbol, Stop>
    ensures goes { GoesOnBy 58 run.old run.new }
    ensures advances { IfOk result (λ s. (r : Reading) → Reads r run.new → Advances r run.old run.new walk line i acc s) }
{
    let Some(item) = run.element(line, i) else {
        return Err(Stop::Memory);
    };
    let truth = seen(run, walk, item)?;
    let all = joined(run, walk, acc, truth)?;
    Ok(all)
}

/// The first elements.
pub(crate) fn walked(
    run: &mut Run,
    walk: Walk,
    line: u64,
    count: u64,
    first: Symbol,
) -> Result<Symbol, Stop>
    ensures goes { GoesOnBy (58 * count) run.old run.new }
    ensures walks { IfOk result (λ s. (r : Reading) → Reads r run.new → Walks r run.old run.new walk line count first s) }
{
    let mut acc = first;
    for i in 0..count {
        acc = advanced(run, walk, line, i, acc)?;
    }
    Ok(acc)
}
