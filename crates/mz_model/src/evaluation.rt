// What the walk asks of the evaluator, under each reading.

ghost use Rattle.mz_core.specs.TreeViews.{tree};
ghost use Rattle.mz_meaning.specs.Contexts.{Positive};
ghost use Rattle.mz_meaning.specs.Evaluation.{eval};
ghost use Rattle.mz_meaning.specs.Walk.{levels};
ghost use Rattle.mz_symbol.specs.Makes.{GoesOn, Means};
ghost use Rattle.mz_eval_cells.specs.Views.{seen};
ghost use Rattle.mz_eval_scopes.specs.Seen.{world_seen};

use mz_base::Stop;
use mz_core::Core;
use mz_eval_cells::Known;
use mz_eval_scopes::{Context, World};
use mz_symbol::Run;
use std::alloc::Global;

/// How many levels of nesting may be open at once.
const LEVELS: u64 = 600;

/// The cell of an expression over the top-level names, in a positive place, with the nodes that it
/// makes.
pub(crate) fn expanded(alloc: Global, world: &World, e: &Core, run: &mut Run) -> Result<Known, Stop>
    ensures goes { GoesOn run.old run.new }
    ensures means { Means seen result run.old run.new
        (λ r. eval (world_seen r world.now) levels Positive (tree e.now) (world_seen r world.now).top) }
{
    mz_eval::expanded(alloc, world, Context::Positive, e, LEVELS, run)
}
