// The work of declarations.

ghost use Rattle.mz_meaning.specs.Runs.{spend};
ghost use Rattle.mz_meaning.specs.Arrays.{declared_count};
ghost use Rattle.mz_eval_declared.specs.Wants.{wants_of};
ghost use Rattle.mz_symbol.specs.Makes.{GoesOn, MeansBare};
ghost use Rattle.mz_eval_cells.specs.Views.{seen};

use mz_base::{Span, Stop};
use mz_eval_cells::Known;
use mz_eval_declared::{Want, declared_count};
use mz_eval_scopes::World;
use mz_symbol::Run;
use std::alloc::Global;

/// The work of a declaration: the elements of its array type, with its declared index sets and its
/// value's.
#[tactic(auto, using(crate::proofs::Work::spend_capped))]
pub fn counted(
    alloc: Global,
    world: &World,
    at: Span,
    index: &[Want],
    k: &Known,
    run: &mut Run,
) -> Result<(), Stop>
    ensures goes { GoesOn run.old run.new }
    ensures means { MeansBare (λ _ _. tt) result run.old run.new (λ r. spend world.now.budget at (declared_count (wants_of index.now) (seen r k.now))) }
{
    let n = declared_count(alloc, index, k)?;
    run.spend(world.budget, at, n)
}
