// The objective: the cell of what is minimized or maximized.

ghost use Rattle.mz_core.specs.Program.{goal};
ghost use Rattle.mz_core.specs.TreeViews.{tree};
ghost use Rattle.mz_meaning.specs.Contexts.{Positive};
ghost use Rattle.mz_meaning.specs.Walk.{aim, aimed};
ghost use Rattle.mz_symbol.specs.Makes.{GoesOn, Means};
ghost use Rattle.mz_eval_scopes.specs.Seen.{world_seen};
ghost use Rattle.mz_model.specs.Loops.{aim_seen};

use crate::evaluation::expanded;
use mz_base::Stop;
use mz_core::{Core, CoreGoal};
use mz_eval_cells::Known;
use mz_eval_scopes::World;
use mz_symbol::Run;
use std::alloc::Global;

fn cell_of(alloc: Global, world: &World, e: &Core, run: &mut Run) -> Result<Option<Known>, Stop>
    ensures goes { GoesOn run.old run.new }
    ensures means { Means aim_seen result run.old run.new (λ r. aimed (world_seen r world.now) Positive (tree e.now)) }
{
    let k = expanded(alloc, world, e, run)?;
    Ok(Some(k))
}

/// The cell of what is minimized or maximized; none where the model is to be satisfied.
pub(crate) fn objective(
    alloc: Global,
    world: &World,
    g: &CoreGoal,
    run: &mut Run,
) -> Result<Option<Known>, Stop>
    ensures goes { GoesOn run.old run.new }
    ensures means { Means aim_seen result run.old run.new (λ r. aim (world_seen r world.now) Positive (goal g.now)) }
{
    match g {
        CoreGoal::Satisfy => Ok(None),
        CoreGoal::Minimize(e) => cell_of(alloc, world, e, run),
        CoreGoal::Maximize(e) => cell_of(alloc, world, e, run),
    }
}
