// Nodes of rows with their work and their types, one function for each number of arguments.

ghost use Rattle.std.specs.Prelude.{◌≡◌, ◌∷◌, [], IfOk, Some, false};
ghost use Rattle.mz_core.specs.Types.{plain_type};
ghost use Rattle.mz_operations.specs.declared.row.Row.TheVariants.{Scalar};
ghost use Rattle.mz_meaning.specs.Cells.{Cell, typed};
ghost use Rattle.mz_symbol.specs.Readings.{Reading};
ghost use Rattle.mz_symbol.specs.Runs.{IsRun};
ghost use Rattle.mz_symbol.specs.Makes.{GoesOn, Means, MeansBare};
ghost use Rattle.mz_eval_cells.specs.Views.{all_seen, seen};
ghost use Rattle.mz_eval_scopes.specs.Seen.{world_seen};
ghost use Rattle.mz_eval_row_symbols.specs.NodeRows.{stamped};
ghost use Rattle.mz_eval_row_symbols.specs.Numbers.{AreNumbers};
ghost use Rattle.mz_eval_nodes.specs.RowNodes.{IsBlind, node_by, nothing_by};

use mz_base::{Span, Stop};
use mz_core::TypeInst;
use mz_eval_cells::{Known, stays, typed, undefined};
use mz_eval_row_cells::{cost_of_all, cost_of_one, cost_of_two};
use mz_eval_row_symbols::{NumberRow, cell_of_numbers};
use mz_eval_rows::{Argument, row_of_all, row_of_one, row_of_two, rows_of_par};
use mz_eval_scopes::{World, done};
use mz_operations::Row;
use mz_symbol::Run;
use std::alloc::{AllocError, Global};

/// A row's cell as that of a node of a type.
fn typed_row(alloc: Global, t: &TypeInst, k: Known) -> Result<Known, AllocError>
    ensures { IfOk result (λ x. (r : Reading) → typed r.mode false (plain_type t.now) (seen r k) ≡ seen r x) }
{
    if stays(t, &k) {
        return Ok(k);
    }
    typed(alloc, false, t, k)
}

/// The node where there is no row: it is undefined.
fn no_row(
    alloc: Global,
    world: &World,
    at: Span,
    t: &TypeInst,
    run: &mut Run,
) -> Result<Known, Stop>
    ensures goes { GoesOn run.old run.new }
    ensures means { Means seen result run.old run.new (λ r. nothing_by (world_seen r world.now) at (plain_type t.now)) }
    ensures bare { MeansBare seen result run.old run.new (λ r. nothing_by (world_seen r world.now) at (plain_type t.now)) }
{
    let k = done(world, at, undefined(), run)?;
    let x = typed_row(alloc, t, k)?;
    Ok(x)
}

/// What holds of each run.
fn sound(run: &Run)
    ensures { IsRun run.now }
{
    let _nodes = run.arena();
}

fn row_one(
    alloc: Global,
    world: &World,
    at: Span,
    t: &TypeInst,
    row: Row,
    a: Argument,
    run: &mut Run,
) -> Result<Known, Stop>
    ensures goes { GoesOn run.old run.new }
    ensures means { Means (stamped (plain_type t.now)) result run.old run.new
        (λ r. node_by (world_seen r world.now) at (plain_type t.now) (seen r a.cell ∷ []) (Some row)) }
{
    let cost = cost_of_one(row, &a.cell);
    run.spend(world.budget, at, 1 + cost)?;
    row_of_one(alloc, &world.program.cases, row, t, at, a, run)
}

fn row_two(
    alloc: Global,
    world: &World,
    at: Span,
    t: &TypeInst,
    row: Row,
    args: (Argument, Argument),
    run: &mut Run,
) -> Result<Known, Stop>
    ensures goes { GoesOn run.old run.new }
    ensures means { Means (stamped (plain_type t.now)) result run.old run.new
        (λ r. node_by (world_seen r world.now) at (plain_type t.now) (seen r args.0.cell ∷ seen r args.1.cell ∷ []) (Some row)) }
    ensures bare { MeansBare (stamped (plain_type t.now)) result run.old run.new
        (λ r. node_by (world_seen r world.now) at (plain_type t.now) (seen r args.0.cell ∷ seen r args.1.cell ∷ []) (Some row)) }
{
    let cost = cost_of_two(row, &args.0.cell, &args.1.cell);
    run.spend(world.budget, at, 1 + cost)?;
    let k = row_of_two(alloc, &world.program.cases, row, t, at, args.0, args.1, run);
    sound(run);
    k
}

fn row_all(
    alloc: Global,
    world: &World,
    at: Span,
    t: &TypeInst,
    row: Row,
    all: Vec<Known>,
    run: &mut Run,
) -> Result<Known, Stop>
    ensures goes { GoesOn run.old run.new }
    ensures means { Means (stamped (plain_type t.now)) result run.old run.new
        (λ r. node_by (world_seen r world.now) at (plain_type t.now) (all_seen r all.items) (Some row)) }
{
    let cost = cost_of_all(alloc, row, &all)?;
    run.spend(world.budget, at, 1 + cost)?;
    row_of_all(alloc, &world.program.cases, row, t, at, all, run)
}

/// The same of two par arguments.
fn par_row_two(
    alloc: Global,
    world: &World,
    at: Span,
    t: &TypeInst,
    row: Row,
    a: Known,
    b: Known,
    run: &mut Run,
) -> Result<Known, Stop>
    ensures goes { GoesOn run.old run.new }
    ensures means { Means (stamped (plain_type t.now)) result run.old run.new
        (λ r. node_by (world_seen r world.now) at (plain_type t.now) (seen r a ∷ seen r b ∷ []) (Some row)) }
    ensures bare { MeansBare (stamped (plain_type t.now)) result run.old run.new
        (λ r. node_by (world_seen r world.now) at (plain_type t.now) (seen r a ∷ seen r b ∷ []) (Some row)) }
{
    let cost = cost_of_two(row, &a, &b);
    run.spend(world.budget, at, 1 + cost)?;
    let k = rows_of_par(alloc, &world.program.cases, row, t, at, a, b, run);
    sound(run);
    k
}

/// Where there is no row.
fn untyped(world: &World, at: Span, t: &TypeInst, run: &mut Run) -> Result<Known, Stop>
    ensures goes { GoesOn run.old run.new }
    ensures means { Means (stamped (plain_type t.now)) result run.old run.new (λ r. nothing_by (world_seen r world.now) at (plain_type t.now)) }
{
    done(world, at, undefined(), run)
}

/// The node of a row with one argument before it takes its type; undefined where there is no row.
pub fn untyped_one(
    alloc: Global,
    world: &World,
    at: Span,
    t: &TypeInst,
    row: Option<Row>,
    a: Argument,
    run: &mut Run,
) -> Result<Known, Stop>
    ensures goes { GoesOn run.old run.new }
    ensures means { Means (stamped (plain_type t.now)) result run.old run.new
        (λ r. node_by (world_seen r world.now) at (plain_type t.now) (seen r a.cell ∷ []) row) }
{
    let Some(w) = row else {
        return untyped(world, at, t, run);
    };
    row_one(alloc, world, at, t, w, a, run)
}

/// The node of a row with two arguments before it takes its type; undefined where there is no row.
pub fn untyped_two(
    alloc: Global,
    world: &World,
    at: Span,
    t: &TypeInst,
    row: Option<Row>,
    args: (Argument, Argument),
    run: &mut Run,
) -> Result<Known, Stop>
    ensures goes { GoesOn run.old run.new }
    ensures means { Means (stamped (plain_type t.now)) result run.old run.new
        (λ r. node_by (world_seen r world.now) at (plain_type t.now) (seen r args.0.cell ∷ seen r args.1.cell ∷ []) row) }
{
    let Some(w) = row else {
        return untyped(world, at, t, run);
    };
    row_two(alloc, world, at, t, w, args, run)
}

/// The node of a row before it takes its type; undefined where there is no row.
pub fn untyped_all(
    alloc: Global,
    world: &World,
    at: Span,
    t: &TypeInst,
    row: Option<Row>,
    all: Vec<Known>,
    run: &mut Run,
) -> Result<Known, Stop>
    ensures goes { GoesOn run.old run.new }
    ensures means { Means (stamped (plain_type t.now)) result run.old run.new
        (λ r. node_by (world_seen r world.now) at (plain_type t.now) (all_seen r all.items) row) }
{
    let Some(w) = row else {
        return untyped(world, at, t, run);
    };
    row_all(alloc, world, at, t, w, all, run)
}

/// The node of a row with two arguments; undefined where there is no row.
pub fn node_of_two(
    alloc: Global,
    world: &World,
    at: Span,
    t: &TypeInst,
    row: Option<Row>,
    args: (Argument, Argument),
    run: &mut Run,
) -> Result<Known, Stop>
    ensures goes { GoesOn run.old run.new }
    ensures means { Means seen result run.old run.new
        (λ r. node_by (world_seen r world.now) at (plain_type t.now) (seen r args.0.cell ∷ seen r args.1.cell ∷ []) row) }
    ensures bare { MeansBare seen result run.old run.new
        (λ r. node_by (world_seen r world.now) at (plain_type t.now) (seen r args.0.cell ∷ seen r args.1.cell ∷ []) row) }
{
    let Some(w) = row else {
        return no_row(alloc, world, at, t, run);
    };
    let k = row_two(alloc, world, at, t, w, args, run)?;
    let x = typed_row(alloc, t, k)?;
    Ok(x)
}

fn number_row(
    alloc: Global,
    world: &World,
    at: Span,
    t: &TypeInst,
    n: &NumberRow,
    run: &mut Run,
) -> Result<Known, Stop>
    ensures goes { GoesOn run.old run.new }
    ensures means { (x y : Reading → Cell) → AreNumbers x y n.now → Means (stamped (plain_type t.now)) result run.old run.new
        (λ r. node_by (world_seen r world.now) at (plain_type t.now) (x r ∷ y r ∷ []) (Some (Scalar n.now.row))) }
    ensures bare { (x y : Reading → Cell) → IsBlind x → IsBlind y → AreNumbers x y n.now → MeansBare (stamped (plain_type t.now)) result run.old run.new
        (λ r. node_by (world_seen r world.now) at (plain_type t.now) (x r ∷ y r ∷ []) (Some (Scalar n.now.row))) }
{
    run.spend(world.budget, at, 2)?;
    let k = cell_of_numbers(alloc, &world.program.cases, t, at, n, run);
    sound(run);
    k
}

/// The node of a row of two numbers.
pub fn node_of_numbers(
    alloc: Global,
    world: &World,
    at: Span,
    t: &TypeInst,
    n: &NumberRow,
    run: &mut Run,
) -> Result<Known, Stop>
    ensures goes { GoesOn run.old run.new }
    ensures means { (x y : Reading → Cell) → AreNumbers x y n.now → Means seen result run.old run.new
        (λ r. node_by (world_seen r world.now) at (plain_type t.now) (x r ∷ y r ∷ []) (Some (Scalar n.now.row))) }
    ensures bare { (x y : Reading → Cell) → IsBlind x → IsBlind y → AreNumbers x y n.now → MeansBare seen result run.old run.new
        (λ r. node_by (world_seen r world.now) at (plain_type t.now) (x r ∷ y r ∷ []) (Some (Scalar n.now.row))) }
{
    let k = number_row(alloc, world, at, t, n, run)?;
    let x = typed_row(alloc, t, k)?;
    Ok(x)
}

/// The same of two par arguments.
pub fn node_of_pars(
    alloc: Global,
    world: &World,
    at: Span,
    t: &TypeInst,
    row: Option<Row>,
    a: Known,
    b: Known,
    run: &mut Run,
) -> Result<Known, Stop>
    ensures goes { GoesOn run.old run.new }
    ensures means { Means seen result run.old run.new
        (λ r. node_by (world_seen r world.now) at (plain_type t.now) (seen r a ∷ seen r b ∷ []) row) }
    ensures bare { MeansBare seen result run.old run.new
        (λ r. node_by (world_seen r world.now) at (plain_type t.now) (seen r a ∷ seen r b ∷ []) row) }
{
    let Some(w) = row else {
        return no_row(alloc, world, at, t, run);
    };
    let k = par_row_two(alloc, world, at, t, w, a, b, run)?;
    let x = typed_row(alloc, t, k)?;
    Ok(x)
}
