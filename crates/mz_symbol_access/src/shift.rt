// How far an index lies from the lower end of a range, by one helper for all accesses. Where the difference could leave the limit, the index is brought into the range first.

ghost use Rattle.std.specs.Prelude.{◌≡◌, Some, IfOk};
ghost use Rattle.mz_arena.specs.Values.{as_number, cons_term, empty, number};
ghost use Rattle.mz_meaning.specs.Runs.{give};
ghost use Rattle.mz_symbol.specs.Readings.{Reading, Reads};
ghost use Rattle.mz_symbol.specs.Makes.{GoesOnBy, Means};
ghost use Rattle.mz_symbol_access.specs.StepsPlace.{inside_term, near_term, offset_in, shift_term, step_of, sum_node, Shifts};

use crate::nodes::made;
use mz_arena::{Id, Node, NodeKind};
use mz_base::{Memory, Stop};
use mz_symbol::Run;

/// The lower end of a range.
fn low_node(run: &mut Run, range: &(i64, i64)) -> Result<Id, Stop>
    ensures goes { GoesOnBy 0 run.old run.new }
    ensures means { Means (λ r. r.term) result run.old run.new (λ _. give (Some (number range.now.0))) }
{
    let n = Node {
        kind: NodeKind::Int,
        a: 0,
        b: 0,
        c: 0,
        number: range.0,
    };
    run.node(&n)
}

/// The upper end of a range.
fn high_node(run: &mut Run, range: &(i64, i64)) -> Result<Id, Stop>
    ensures goes { GoesOnBy 0 run.old run.new }
    ensures means { Means (λ r. r.term) result run.old run.new (λ _. give (Some (number range.now.1))) }
{
    let n = Node {
        kind: NodeKind::Int,
        a: 0,
        b: 0,
        c: 0,
        number: range.1,
    };
    run.node(&n)
}

/// What is added to an index, so that the lower end becomes 0, or 1.
fn step_of(range: &(i64, i64), one: bool) -> Result<i64, Memory>
    ensures { IfOk result (λ n. n ≡ step_of range.now one) }
{
    if range.0 < i64::MIN / 2 {
        return Err(Memory);
    }
    if one { Ok(1 - range.0) } else { Ok(-range.0) }
}

pub(crate) fn step_node(run: &mut Run, range: &(i64, i64), one: bool) -> Result<Id, Stop>
    ensures goes { GoesOnBy 0 run.old run.new }
    ensures means { Means (λ r. r.term) result run.old run.new (λ _. give (Some (number (step_of range.now one)))) }
{
    let step = step_of(range, one)?;
    let n = Node {
        kind: NodeKind::Int,
        a: 0,
        b: 0,
        c: 0,
        number: step,
    };
    let id = run.node(&n)?;
    Ok(id)
}

/// Whether an index lies in a range.
#[tactic(auto, using(mz_symbol_rows::proofs::GoingOn::goes_both, mz_symbol_rows::proofs::GoingOn::goes_most))]
fn inside_node(run: &mut Run, range: &(i64, i64), x: Id) -> Result<Id, Stop>
    ensures goes { GoesOnBy 18 run.old run.new }
    ensures means { Means (λ r. r.term) result run.old run.new (λ r. give (inside_term range.now (r.term x))) }
{
    let low = low_node(run, range)?;
    let high = high_node(run, range)?;
    let above = made(run, NodeKind::Le, low, x)?;
    let below = made(run, NodeKind::Le, x, high)?;
    made(run, NodeKind::And, above, below)
}

/// The list of two.
#[tactic(auto, using(mz_symbol_rows::proofs::GoingOn::goes_both, mz_symbol_rows::proofs::GoingOn::goes_most))]
pub(crate) fn listed(run: &mut Run, x: Id, y: Id) -> Result<Id, Stop>
    ensures goes { GoesOnBy 16 run.old run.new }
    ensures means { Means (λ r. r.term) result run.old run.new (λ r. give (cons_term (r.term x) (cons_term (r.term y) (Some empty)))) }
{
    let none = made(run, NodeKind::Nil, 0, 0)?;
    let last = made(run, NodeKind::Cons, y, none)?;
    made(run, NodeKind::Cons, x, last)
}

/// An index, or the end of a range that is nearest to it.
#[tactic(auto, using(mz_symbol_rows::proofs::GoingOn::goes_both, mz_symbol_rows::proofs::GoingOn::goes_most))]
fn near_node(run: &mut Run, range: &(i64, i64), x: Id) -> Result<Id, Stop>
    ensures goes { GoesOnBy 48 run.old run.new }
    ensures means { Means (λ r. r.term) result run.old run.new (λ r. give (near_term range.now (r.term x))) }
{
    let low = low_node(run, range)?;
    let high = high_node(run, range)?;
    let first = listed(run, x, high)?;
    let least = made(run, NodeKind::Min, first, 0)?;
    let second = listed(run, least, low)?;
    made(run, NodeKind::Max, second, 0)
}

pub(crate) fn sum_node(x: Id, y: Id) -> Node
    ensures { result ≡ sum_node x y }
{
    Node {
        kind: NodeKind::Add,
        a: x,
        b: y,
        c: 0,
        number: 0,
    }
}

/// The end of a range that is nearest to an index, counted from the lower end.
#[tactic(auto, using(mz_symbol_rows::proofs::GoingOn::goes_both, mz_symbol_rows::proofs::GoingOn::goes_most))]
fn near_shifted(run: &mut Run, range: &(i64, i64), one: bool, x: Id) -> Result<Id, Stop>
    ensures goes { GoesOnBy 52 run.old run.new }
    ensures means { Means (λ r. r.term) result run.old run.new (λ r. give (shift_term range.now one (near_term range.now (r.term x)))) }
{
    let near = near_node(run, range, x)?;
    let step = step_node(run, range, one)?;
    made(run, NodeKind::Add, near, step)
}

/// An index that is counted from the lower end, wherever it lies in the range.
#[tactic(auto, using(mz_symbol_rows::proofs::GoingOn::goes_both, mz_symbol_rows::proofs::GoingOn::goes_most))]
fn moved(run: &mut Run, range: &(i64, i64), one: bool, x: Id) -> Result<Id, Memory>
    ensures goes { GoesOnBy 56 run.old run.new }
    ensures shifts { IfOk result (λ id. (r : Reading) → Reads r run.new → Shifts r run.old run.new range.now one x id) }
{
    let Ok(step) = step_node(run, range, one) else {
        return Err(Memory);
    };
    let sum = sum_node(x, step);
    let direct = run.tried(&sum)?;
    match direct {
        Some(id) => Ok(id),
        None => match near_shifted(run, range, one, x) {
            Ok(id) => Ok(id),
            Err(_) => Err(Memory),
        },
    }
}

/// The same; an index stays as it is where the range begins with 1 and 1 is counted from.
fn shifted(run: &mut Run, range: &(i64, i64), one: bool, x: Id) -> Result<Id, Memory>
    ensures goes { GoesOnBy 56 run.old run.new }
    ensures shifts { IfOk result (λ id. (r : Reading) → Reads r run.new → Shifts r run.old run.new range.now one x id) }
{
    if one {
        if range.0 == 1 {
            return Ok(x);
        }
    }
    moved(run, range, one, x)
}

/// An index that is counted from the lower end, as 0 or as 1, and undefined outside the range.
#[tactic(auto, using(mz_symbol_rows::proofs::GoingOn::goes_both, mz_symbol_rows::proofs::GoingOn::goes_most))]
pub(crate) fn offset_node(run: &mut Run, range: &(i64, i64), one: bool, x: Id) -> Result<Id, Stop>
    ensures goes { GoesOnBy 82 run.old run.new }
    ensures means { Means (λ r. r.term) result run.old run.new (λ r. give (offset_in range.now one (as_number (r.term x)))) }
{
    let inside = inside_node(run, range, x)?;
    let Ok(off) = shifted(run, range, one, x) else {
        return Err(Stop::Memory);
    };
    let term = made(run, NodeKind::Guard, inside, off)?;
    Ok(term)
}
