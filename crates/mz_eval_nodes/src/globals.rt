// Calls of globals, with their work.

ghost use Rattle.std.specs.Prelude.{◌≡◌, ◌+◌, ◌*◌, Some, false};
ghost use Rattle.mz_meaning.specs.Contexts as contexts;
ghost use Rattle.mz_meaning.specs.Cells.{all_par};
ghost use Rattle.mz_meaning.specs.Forms.{global_by};
ghost use Rattle.mz_meaning.specs.Globals.{call_cost, global_cell};
ghost use Rattle.mz_symbol.specs.Makes.{GoesOn, GoesOnBy, Means};
ghost use Rattle.mz_eval_cells.specs.Views.{seen, all_seen, cells_of};
ghost use Rattle.mz_eval_scopes.specs.Seen.{world_seen};

use mz_base::{Span, Stop};
use mz_eval_cells::{Known, all_par, undefined};
use mz_eval_global_terms::symbol_of_call;
use mz_eval_globals::{call_bound, cost_of_call, global_cell};
use mz_eval_row_symbols::bounded;
use mz_eval_scopes::{World, done};
use mz_globals::Global;
use mz_symbol::Run;
use std::alloc::Global as Heap;

// What a call with a var argument gives.
fn var_call(
    alloc: Heap,
    at: Span,
    g: Global,
    cost: u64,
    all: &[Known],
    run: &mut Run,
) -> Result<Known, Stop>
    requires cost { cost ≡ call_cost g (cells_of all.now) }
    requires var { all_par (cells_of all.now) ≡ false }
    ensures goes { GoesOnBy (64 * (1 + cost)) run.old run.new }
    ensures means { Means seen result run.old run.new (λ r. global_cell r.mode g at (all_seen r all.now)) }
{
    let bound = call_bound(alloc, g, at, all)?;
    let s = symbol_of_call(alloc, g, cost, all, run)?;
    let k = bounded(alloc, &bound, s)?;
    Ok(k)
}

// What a call gives that costs so much: a par value where all arguments are par.
fn given(
    alloc: Heap,
    at: Span,
    g: Global,
    cost: u64,
    all: Vec<Known>,
    run: &mut Run,
) -> Result<Known, Stop>
    requires cost { cost ≡ call_cost g (cells_of all.items) }
    ensures goes { GoesOnBy (64 * (1 + cost)) run.old run.new }
    ensures means { Means seen result run.old run.new (λ r. global_cell r.mode g at (all_seen r all.items)) }
{
    if all_par(&all) {
        return global_cell(alloc, g, at, all);
    }
    var_call(alloc, at, g, cost, &all, run)
}

#[tactic(auto, using(crate::proofs::Calls::cost_is_small))]
fn call(
    alloc: Heap,
    world: &World,
    at: Span,
    g: Global,
    all: Vec<Known>,
    run: &mut Run,
) -> Result<Known, Stop>
    ensures goes { GoesOn run.old run.new }
    ensures means { Means seen result run.old run.new (λ r. global_by (world_seen r world.now) at (all_seen r all.items) (Some g)) }
{
    let cost = cost_of_call(alloc, g, &all)?;
    run.spend(world.budget, at, 1 + cost)?;
    given(alloc, at, g, cost, all, run)
}

/// The node of a call of a global, before it takes its type; undefined where there is no global.
pub fn operated_global(
    alloc: Heap,
    world: &World,
    at: Span,
    g: Option<Global>,
    all: Vec<Known>,
    run: &mut Run,
) -> Result<Known, Stop>
    ensures goes { GoesOn run.old run.new }
    ensures means { Means seen result run.old run.new (λ r. global_by (world_seen r world.now) at (all_seen r all.items) g) }
{
    match g {
        None => done(world, at, undefined(), run),
        Some(g) => call(alloc, world, at, g, all, run),
    }
}

/// Whether the arguments of a global are no places for a free local.
pub(crate) fn global_closes(g: Option<Global>) -> bool
    ensures { result ≡ contexts.global_closes g }
{
    match g {
        Some(Global::Link) => true,
        _ => false,
    }
}
