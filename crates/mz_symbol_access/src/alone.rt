// The place of an access with one index. An index outside its range has a place before the first
// element or after the last, where the access has no value, so nothing else asks whether it is inside.
// Where the place could leave the limit, the index is first brought next to the range on that side.

ghost use Rattle.std.specs.Prelude.{◌≡◌, IfOk, Some, true};
ghost use Rattle.mz_arena.specs.Values.{number};
ghost use Rattle.mz_meaning.specs.Runs.{give};
ghost use Rattle.mz_symbol.specs.Readings.{Reading, Reads};
ghost use Rattle.mz_symbol.specs.Makes.{GoesOnBy, Means};
ghost use Rattle.mz_symbol_access.specs.StepsPlace.{shift_term};
ghost use Rattle.mz_symbol_access.specs.StepsAlone.{after_term, before_term, first_after, last_before, IsAlone};

use crate::nodes::made;
use crate::shift::{listed, step_node, sum_node};
use mz_arena::{Id, Node, NodeKind};
use mz_base::{Memory, Stop};
use mz_symbol::Run;

/// The number before a range.
fn before(range: &(i64, i64)) -> Result<i64, Memory>
    ensures { IfOk result (λ n. n ≡ last_before range.now) }
{
    if range.0 < i64::MIN / 2 {
        return Err(Memory);
    }
    Ok(range.0 - 1)
}

/// The number after a range.
fn after(range: &(i64, i64)) -> Result<i64, Memory>
    ensures { IfOk result (λ n. n ≡ first_after range.now) }
{
    if range.1 > i64::MAX / 2 {
        return Err(Memory);
    }
    Ok(range.1 + 1)
}

fn before_node(run: &mut Run, range: &(i64, i64)) -> Result<Id, Stop>
    ensures goes { GoesOnBy 0 run.old run.new }
    ensures means { Means (λ r. r.term) result run.old run.new (λ _. give (Some (number (last_before range.now)))) }
{
    let number = before(range)?;
    let n = Node {
        kind: NodeKind::Int,
        a: 0,
        b: 0,
        c: 0,
        number,
    };
    let id = run.node(&n)?;
    Ok(id)
}

fn after_node(run: &mut Run, range: &(i64, i64)) -> Result<Id, Stop>
    ensures goes { GoesOnBy 0 run.old run.new }
    ensures means { Means (λ r. r.term) result run.old run.new (λ _. give (Some (number (first_after range.now)))) }
{
    let number = after(range)?;
    let n = Node {
        kind: NodeKind::Int,
        a: 0,
        b: 0,
        c: 0,
        number,
    };
    let id = run.node(&n)?;
    Ok(id)
}

/// The place of an index, of one before the range the place before the first.
#[tactic(auto, using(mz_symbol_rows::proofs::GoingOn::goes_both, mz_symbol_rows::proofs::GoingOn::goes_most))]
fn not_before(run: &mut Run, range: &(i64, i64), x: Id) -> Result<Id, Stop>
    ensures goes { GoesOnBy 28 run.old run.new }
    ensures means { Means (λ r. r.term) result run.old run.new (λ r. give (shift_term range.now true (before_term range.now (r.term x)))) }
{
    let least = before_node(run, range)?;
    let list = listed(run, x, least)?;
    let near = made(run, NodeKind::Max, list, 0)?;
    let step = step_node(run, range, true)?;
    made(run, NodeKind::Add, near, step)
}

/// The place of an index, of one after the range the place after the last.
#[tactic(auto, using(mz_symbol_rows::proofs::GoingOn::goes_both, mz_symbol_rows::proofs::GoingOn::goes_most))]
fn not_after(run: &mut Run, range: &(i64, i64), x: Id) -> Result<Id, Stop>
    ensures goes { GoesOnBy 28 run.old run.new }
    ensures means { Means (λ r. r.term) result run.old run.new (λ r. give (shift_term range.now true (after_term range.now (r.term x)))) }
{
    let greatest = after_node(run, range)?;
    let list = listed(run, x, greatest)?;
    let near = made(run, NodeKind::Min, list, 0)?;
    let step = step_node(run, range, true)?;
    made(run, NodeKind::Add, near, step)
}

/// The place of an index, where its difference from the lower end could leave the limit: below, of a
/// range of positive numbers, else above.
fn bounded(run: &mut Run, range: &(i64, i64), x: Id) -> Result<Id, Memory>
    ensures goes { GoesOnBy 28 run.old run.new }
    ensures alone { IfOk result (λ id. (r : Reading) → Reads r run.new → IsAlone r run.old run.new range.now x id) }
{
    if range.0 > 0 {
        match not_before(run, range, x) {
            Ok(id) => Ok(id),
            Err(_) => Err(Memory),
        }
    } else {
        match not_after(run, range, x) {
            Ok(id) => Ok(id),
            Err(_) => Err(Memory),
        }
    }
}

/// The place of an index, wherever the range begins.
#[tactic(auto, using(mz_symbol_rows::proofs::GoingOn::goes_both, mz_symbol_rows::proofs::GoingOn::goes_most))]
fn moved_alone(run: &mut Run, range: &(i64, i64), x: Id) -> Result<Id, Memory>
    ensures goes { GoesOnBy 32 run.old run.new }
    ensures alone { IfOk result (λ id. (r : Reading) → Reads r run.new → IsAlone r run.old run.new range.now x id) }
{
    let Ok(step) = step_node(run, range, true) else {
        return Err(Memory);
    };
    let sum = sum_node(x, step);
    let direct = run.tried(&sum)?;
    match direct {
        Some(id) => Ok(id),
        None => bounded(run, range, x),
    }
}

/// The place, from 1, of the only index of an access; an index stays as it is where the range begins
/// with 1.
pub fn alone_node(run: &mut Run, range: &(i64, i64), x: Id) -> Result<Id, Memory>
    ensures goes { GoesOnBy 32 run.old run.new }
    ensures alone { IfOk result (λ id. (r : Reading) → Reads r run.new → IsAlone r run.old run.new range.now x id) }
{
    if range.0 == 1 {
        return Ok(x);
    }
    moved_alone(run, range, x)
}
