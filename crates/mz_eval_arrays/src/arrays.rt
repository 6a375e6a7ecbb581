// Arrays of gathered cells, paid for by what the run has saved.

ghost use Rattle.std.specs.Prelude.{◌≡◌, ◌*◌, IfOk, false};
ghost use Rattle.std.specs.List.{list_all};
ghost use Rattle.mz_meaning.specs.Arrays as arrays;
ghost use Rattle.mz_meaning.specs.Cells as cells;
ghost use Rattle.mz_meaning.specs.Runs.{give};
ghost use Rattle.mz_symbol.specs.Readings.{Reading};
ghost use Rattle.mz_symbol.specs.Makes.{GoesOn, Means};
ghost use Rattle.mz_eval_cells.specs.Views.{all_seen, cells_of, seen};
ghost use Rattle.mz_eval_arrays.specs.Gathered.{gathered, gathered_by};
ghost use Rattle.mz_eval_arrays.specs.Told.{is_told};

use crate::Gathered;
use crate::lines::{are_par, bounds_of, one_to, open_line, par_line};
use crate::told::are_told;
use mz_base::{Memory, Stop};
use mz_core::Base;
use mz_eval_cells::{Known, var_items};
use mz_symbol::Run;
use std::alloc::{AllocError, Global};

/// What the line of so many elements may cost.
fn line_charge(count: u64) -> Result<u64, Memory>
    ensures { IfOk result (λ n. n ≡ 58 * count) }
{
    if count > u64::MAX / 58 {
        return Err(Memory);
    }
    Ok(58 * count)
}

/// The var array of cells of which one is undefined wherever it is read.
fn missing_line(alloc: Global, all: &[Known]) -> Result<Known, AllocError>
    requires open { cells.all_par (cells_of all.now) ≡ false }
    requires missing { list_all is_told all.now ≡ false }
    ensures { IfOk result (λ k. (r : Reading) → seen r k ≡ arrays.line_cell r.mode (all_seen r all.now)) }
{
    let bounds = bounds_of(alloc, all)?;
    let ranges = one_to(alloc, all)?;
    let k = var_items(alloc, ranges, bounds)?;
    Ok(k)
}

/// A var array of cells, which is drawn.
fn drawn_line(
    alloc: Global,
    run: &mut Run,
    base: Base,
    opt: bool,
    all: &[Known],
) -> Result<Known, Stop>
    requires { cells.all_par (cells_of all.now) ≡ false }
    ensures goes { GoesOn run.old run.new }
    ensures means { Means seen result run.old run.new (λ r. give (arrays.line_cell r.mode (all_seen r all.now))) }
{
    let charges = line_charge(all.len() as u64)?;
    run.draw(charges)?;
    let k = open_line(alloc, run, base, opt, all)?;
    Ok(k)
}

/// A var array of cells: undefined, and without a line, where nothing tells one of them.
fn told_line(
    alloc: Global,
    run: &mut Run,
    base: Base,
    opt: bool,
    all: &[Known],
) -> Result<Known, Stop>
    requires { cells.all_par (cells_of all.now) ≡ false }
    ensures goes { GoesOn run.old run.new }
    ensures means { Means seen result run.old run.new (λ r. give (arrays.line_cell r.mode (all_seen r all.now))) }
{
    if are_told(all) {
        return drawn_line(alloc, run, base, opt, all);
    }
    let Ok(k) = missing_line(alloc, all) else {
        return Err(Stop::Memory);
    };
    Ok(k)
}

fn told_cells(
    alloc: Global,
    run: &mut Run,
    base: Base,
    opt: bool,
    all: Vec<Known>,
) -> Result<Known, Stop>
    requires { cells.all_par (cells_of all.items) ≡ false }
    ensures goes { GoesOn run.old run.new }
    ensures means { Means seen result run.old run.new (λ r. give (arrays.line_cell r.mode (all_seen r all.items))) }
{
    told_line(alloc, run, base, opt, &all)
}

fn open_array(
    alloc: Global,
    run: &mut Run,
    base: Base,
    opt: bool,
    g: Gathered,
) -> Result<Known, Stop>
    requires { cells.all_par (gathered g) ≡ false }
    ensures goes { GoesOn run.old run.new }
    ensures means { Means seen result run.old run.new (λ r. give (arrays.line_cell r.mode (gathered_by (seen r) g))) }
{
    match g {
        Gathered::Items(_) => Err(Stop::Memory),
        Gathered::Cells(all) => told_cells(alloc, run, base, opt, all),
    }
}

/// The array of these cells, with the index set 1..n, of a node whose elements have this base and are
/// options where `opt` says so: par where all are, and else a line of the run, for which 58 an element
/// is drawn.
///
/// Where nothing tells one of the cells the array is undefined, and nothing is drawn. Out of memory
/// too where a cell has no symbol, where one is an array, and where less was saved.
pub fn array_cell_in(
    alloc: Global,
    run: &mut Run,
    base: Base,
    opt: bool,
    g: Gathered,
) -> Result<Known, Stop>
    ensures goes { GoesOn run.old run.new }
    ensures means { Means seen result run.old run.new (λ r. give (arrays.line_cell r.mode (gathered_by (seen r) g))) }
{
    if are_par(&g) {
        let Ok(k) = par_line(alloc, g) else {
            return Err(Stop::Memory);
        };
        Ok(k)
    } else {
        open_array(alloc, run, base, opt, g)
    }
}
