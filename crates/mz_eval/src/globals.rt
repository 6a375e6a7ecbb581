// The evaluation of calls of globals.

ghost use Rattle.std.specs.Prelude.{map};
ghost use Rattle.mz_core.specs.TreeViews.{tree};
ghost use Rattle.mz_core.specs.Types.{plain_type};
ghost use Rattle.mz_meaning.specs.Forms.{global_by, parts};
ghost use Rattle.mz_symbol.specs.Makes.{GoesOn, Means};
ghost use Rattle.mz_eval_cells.specs.Views.{all_seen};
ghost use Rattle.mz_eval_nodes.specs.Views.{stamped};
ghost use Rattle.mz_eval.specs.Levels.{at_node, world_in};
ghost use Rattle.mz_eval.specs.Nodes.{typed_by};
ghost use Rattle.mz_eval.specs.Rows.{with_global};

use crate::forms::eval_parts;
use crate::types::Level;
use mz_base::Stop;
use mz_core::Core;
use mz_eval_cells::Known;
use mz_eval_nodes::{global_numbered, operated_global};
use mz_eval_scopes::Scope;
use mz_globals::Global;
use mz_symbol::Run;

// a global's node over its arguments
fn global_of(
    level: &Level,
    node: &Core,
    g: Option<Global>,
    cells: Vec<Known>,
    run: &mut Run,
) -> Result<Known, Stop>
    ensures goes { GoesOn run.old run.new }
    ensures means { Means (stamped (plain_type node.now.ty)) result run.old run.new
        (λ r. typed_by (world_in r level.now) (plain_type node.now.ty) (global_by (world_in r level.now) node.now.span (all_seen r cells.items) g)) }
{
    operated_global(level.alloc, level.world, node.span, g, cells, run)
}

// A call of the global with this number, over its arguments.
#[cycle(forms)]
pub(crate) fn eval_global(
    level: &Level,
    node: &Core,
    n: u32,
    all: &[Core],
    scope: &Scope,
    run: &mut Run,
) -> Result<Known, Stop>
    ensures goes { GoesOn run.old run.new }
    ensures means { Means (stamped (plain_type node.now.ty)) result run.old run.new
        (λ r. at_node r level.now scope.now node.now (λ w go ctx at t env. typed_by w t (with_global w at n (parts go ctx (map tree all.now) env)))) }
{
    let cells = eval_parts(level, all, scope, run)?;
    let g = global_numbered(n);
    global_of(level, node, g, cells, run)
}
