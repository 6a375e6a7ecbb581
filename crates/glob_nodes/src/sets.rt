// Integers that lie in sets.

ghost use Rattle.std.specs.Prelude.{◌≡◌, ◌&&◌, IfOk, is_some};
ghost use Rattle.mz_arena.specs.Values.{as_set, is_member, is_true};
ghost use Rattle.mz_symbol.specs.Makes.{GoesOnBy};
ghost use Rattle.glob_nodes.specs.Says.{Says, num};

use crate::{Join, joined, made};
use mz_arena::{Id, NodeKind};
use mz_base::Memory;
use mz_symbol::Run;

/// Whether an integer is an element of a set; false where one of them is undefined.
pub fn lies_in(run: &mut Run, x: Id, s: Id) -> Result<Id, Memory>
    ensures goes { GoesOnBy 6 run.old run.new }
    ensures says { IfOk result (Says run.old run.new (λ r. is_member (num r x) (as_set (r.term s)))) }
{
    made(run, NodeKind::Member, x, s)
}

/// A truth value where a set is defined, else false.
#[tactic(auto, using(mz_symbol_rows::proofs::GoingOn::goes_both))]
pub fn where_set(run: &mut Run, s: Id, body: Id) -> Result<Id, Memory>
    ensures goes { GoesOnBy 12 run.old run.new }
    ensures says { IfOk result (Says run.old run.new (λ r. is_some (as_set (r.term s)) && is_true (r.term body))) }
{
    let there = made(run, NodeKind::SetEq, s, s)?;
    joined(run, Join::Both, there, body)
}
