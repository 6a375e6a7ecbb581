// A node's own work.

ghost use Rattle.mz_meaning.specs.Forms.{done};
ghost use Rattle.mz_symbol.specs.Makes.{GoesOn, Means, MeansBare};
ghost use Rattle.mz_eval_cells.specs.Views.{seen};
ghost use Rattle.mz_eval_scopes.specs.Seen.{world_seen};

use crate::types::World;
use mz_base::{Span, Stop};
use mz_eval_cells::Known;
use mz_symbol::Run;

/// A node's own work, and then its cell. What the work pays for is saved for later nodes.
pub fn done(world: &World, at: Span, cell: Known, run: &mut Run) -> Result<Known, Stop>
    ensures goes { GoesOn run.old run.new }
    ensures means { Means seen result run.old run.new (λ r. done (world_seen r world.now) at (seen r cell)) }
    ensures bare { MeansBare seen result run.old run.new (λ r. done (world_seen r world.now) at (seen r cell)) }
{
    run.spend(world.budget, at, 1)?;
    run.save(64)?;
    Ok(cell)
}
