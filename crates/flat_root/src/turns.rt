// Which ids were met in which turn.

ghost use Rattle.std.specs.Prelude.{◌≡◌, ℕ, ◌<◌, OnOk, length, nat_eq};
ghost use Rattle.flat_root.specs.Turns.{IsMet, turn_of};

use mz_arena::Id;
use mz_base::Memory;

// The last turn in which an id was met, 0 if in none.
fn turn_of(marks: &[u64], id: Id) -> u64
    ensures { result ≡ turn_of marks.now id }
{
    match marks.get(id as usize) {
        Some(turn) => *turn,
        None => 0,
    }
}

// Whether an id was met in this turn.
pub(crate) fn is_met(marks: &[u64], id: Id, turn: u64) -> bool
    ensures { result ≡ nat_eq (turn_of marks.now id) turn }
{
    turn_of(marks, id) == turn
}

// A mark for this id and all before it, none of them changed.
fn lengthen(marks: &mut Vec<u64>, id: Id) -> Result<(), Memory>
    ensures same { (k : ℕ) → turn_of marks.new.items k ≡ turn_of marks.old.items k }
    ensures long { OnOk result (id < length marks.new.items) }
{
    'longer: while marks.len() as u64 <= id {
        marks.push(0)?;
    }
    Ok(())
}

// Marks an id.
fn mark(marks: &mut Vec<u64>, id: Id, turn: u64)
    requires { id < length marks.old.items }
    ensures { IsMet marks.old.items marks.new.items id turn }
{
    marks[id as usize] = turn;
}

// Meets an id in a turn.
pub(crate) fn meet(marks: &mut Vec<u64>, id: Id, turn: u64) -> Result<(), Memory>
    ensures { OnOk result (IsMet marks.old.items marks.new.items id turn) }
{
    given!(lengthen(marks, id));
    mark(marks, id, turn);
    Ok(())
}
