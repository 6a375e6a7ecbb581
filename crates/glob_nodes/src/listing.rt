// Lists of nodes, and their extremes.

ghost use Rattle.std.specs.Prelude.{◌≡◌, ◌+◌, ◌*◌, IfOk, false, length};
ghost use Rattle.mz_arena.specs.Charges.{charge_of};
ghost use Rattle.mz_arena.specs.Entries.{is_free};
ghost use Rattle.mz_arena.specs.Values.{extreme_term};
ghost use Rattle.mz_symbol.specs.Makes.{GoesOnBy};
ghost use Rattle.mz_symbol.specs.Symbols.{list_term};
ghost use Rattle.glob_nodes.specs.Says.{Gives};
ghost use Rattle.glob_nodes.specs.StepsNodes.{side_kind};

use crate::nodes::made;
use mz_arena::{Id, NodeKind};
use mz_base::Memory;
use mz_operations::Side;
use mz_symbol::Run;

/// The list of these nodes.
pub fn list_of(run: &mut Run, items: &[Id]) -> Result<Id, Memory>
    ensures goes { GoesOnBy (8 * length items.now) run.old run.new }
    ensures gives { IfOk result (Gives run.old run.new (λ r. list_term r.term items.now)) }
{
    let mut acc = made(run, NodeKind::Nil, 0, 0)?;
    let mut k = items.len();
    while k > 0 {
        k -= 1;
        acc = made(run, NodeKind::Cons, items[k], acc)?;
    }
    Ok(acc)
}

/// The least or the greatest of these integers, undefined of none.
#[tactic(auto, using(mz_symbol_rows::proofs::GoingOn::goes_both))]
pub fn extreme(run: &mut Run, side: Side, items: &[Id]) -> Result<Id, Memory>
    ensures goes { GoesOnBy (8 * length items.now + 8) run.old run.new }
    ensures gives { IfOk result (Gives run.old run.new (λ r. extreme_term side (list_term r.term items.now))) }
{
    let list = list_of(run, items)?;
    made(run, side_kind(side), list, 0)
}

fn side_kind(side: Side) -> NodeKind
    ensures kind { result ≡ side_kind side }
    ensures bound { is_free result ≡ false }
    ensures charge { charge_of result ≡ 8 }
{
    match side {
        Side::Least => NodeKind::Min,
        Side::Greatest => NodeKind::Max,
    }
}
