// The work and the weight of what is declared and handed on. What they pay for is saved for later
// nodes.

ghost use Rattle.std.specs.Prelude.{◌≡◌, ◌*◌, ◌≤◌};
ghost use Rattle.mz_meaning.specs.Arrays.{declared_count};
ghost use Rattle.mz_meaning.specs.Forms as forms;
ghost use Rattle.mz_meaning.specs.Runs.{spend, weigh};
ghost use Rattle.mz_symbol.specs.Makes.{GoesOn, Means};
ghost use Rattle.mz_eval_cells.specs.Views.{seen};
ghost use Rattle.mz_eval_declared.specs.Wants.{wants_of};

use crate::values::item_count;
use mz_base::{Span, Stop};
use mz_eval_cells::Known;
use mz_eval_declared::Want;
use mz_eval_scopes::World;
use mz_symbol::Run;
use std::alloc::Global;

/// What so much work or weight pays for; less of more than any program has.
fn paid(n: u64) -> u64
    ensures { result ≤ 64 * n }
{
    n.min(1 << 57) * 64
}

/// More work, and what it pays for is saved.
#[tactic(auto, using(crate::proofs::CountLaws::earned_saved))]
fn spent(world: &World, at: Span, n: u64, run: &mut Run) -> Result<(), Stop>
    ensures goes { GoesOn run.old run.new }
    ensures means { Means (λ _ _. tt) result run.old run.new (λ _. spend world.now.budget at n) }
{
    run.spend(world.budget, at, n)?;
    run.save(paid(n))?;
    Ok(())
}

/// More weight, and what it pays for is saved.
#[tactic(auto, using(crate::proofs::CountLaws::earned_saved, crate::proofs::GuardLaws::goes_on, mz_eval_declared::proofs::Taking::none_weighed))]
fn weighed(n: u64, run: &mut Run) -> Result<(), Stop>
    ensures goes { GoesOn run.old run.new }
    ensures means { Means (λ _ _. tt) result run.old run.new (λ r. weigh r.mode n) }
{
    if n == 0 {
        return Ok(());
    }
    run.weigh(n)?;
    run.save(paid(n))?;
    Ok(())
}

/// The work of a declaration: the elements of its array type, with its declared index sets and its
/// value's.
#[tactic(auto, using(crate::proofs::CountLaws::spend_counted))]
pub fn counted(
    alloc: Global,
    world: &World,
    at: Span,
    index: &[Want],
    k: &Known,
    run: &mut Run,
) -> Result<(), Stop>
    ensures goes { GoesOn run.old run.new }
    ensures means { Means (λ _ _. tt) result run.old run.new (λ r. spend world.now.budget at (declared_count (wants_of index.now) (seen r k.now))) }
{
    let n = mz_eval_declared::declared_count(alloc, index, k)?;
    spent(world, at, n, run)
}

/// The weight of a declaration.
pub fn declared_weight(run: &mut Run) -> Result<(), Stop>
    ensures goes { GoesOn run.old run.new }
    ensures means { Means (λ _ _. tt) result run.old run.new (λ r. weigh r.mode 1) }
{
    weighed(1, run)
}

/// The weight of an array that is handed on: its elements.
#[tactic(auto, using(crate::proofs::CountLaws::handed_count))]
pub fn handed(run: &mut Run, k: &Known) -> Result<(), Stop>
    ensures goes { GoesOn run.old run.new }
    ensures means { Means (λ _ _. tt) result run.old run.new (λ r. forms.handed r.mode (seen r k.now)) }
{
    weighed(item_count(k), run)
}
