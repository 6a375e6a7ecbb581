// Arrays of cells, and of cells that were gathered.

ghost use Rattle.std.specs.Prelude.{◌≡◌, ◌*◌, ◌∷◌, [], IfOk, false, length, map, pos, true};
ghost use Rattle.mz_meaning.specs.Arrays as arrays;
ghost use Rattle.mz_meaning.specs.Cells as cells;
ghost use Rattle.mz_meaning.specs.Runs.{give};
ghost use Rattle.mz_symbol.specs.Readings.{Reading};
ghost use Rattle.mz_symbol.specs.Makes.{GoesOnBy, Means};
ghost use Rattle.mz_symbol_arrays.specs.ArrayValues.{all_argued};
ghost use Rattle.mz_eval_cells.specs.Views.{all_seen, cells_of, known_bound, seen};
ghost use Rattle.mz_eval_arrays.specs.Gathered.{gathered, gathered_by};
ghost use Rattle.mz_eval_arrays.specs.ArrayCells.{array_over, bound_in};

use crate::symbols::symbols_of;
use crate::{Gathered, line_cell};
use mz_base::Stop;
use mz_core::Base;
use mz_eval_cells::{Bound, Known, all_par, scalar_bound};
use mz_eval_symbols::cell_of_line;
use mz_symbol::{Run, Symbol};
use mz_symbol_arrays::line_of;
use std::alloc::{AllocError, Global};
use std::rc::Rc;

#[tactic(auto, using(crate::proofs::GatheredCells::values_par))]
pub(crate) fn are_par(g: &Gathered) -> bool
    ensures { result ≡ cells.all_par (gathered g.now) }
{
    match g {
        Gathered::Items(_) => true,
        Gathered::Cells(all) => all_par(all),
    }
}

pub(crate) fn par_line(alloc: Global, g: Gathered) -> Result<Known, AllocError>
    requires { cells.all_par (gathered g) ≡ true }
    ensures { IfOk result (λ k. (r : Reading) → seen r k ≡ arrays.line_cell r.mode (gathered_by (seen r) g)) }
{
    let k = line_cell(alloc, g)?;
    Ok(k)
}

fn symbols_line(alloc: Global, run: &mut Run, ss: Vec<Symbol>) -> Result<u64, Stop>
    ensures goes { GoesOnBy (50 * length ss.items) run.old run.new }
    ensures means { Means (λ r. r.line) result run.old run.new (λ r. give (all_argued r.term ss.items)) }
{
    line_of(alloc, run, &ss)
}

pub(crate) fn bounds_of(alloc: Global, all: &[Known]) -> Result<Vec<Bound>, AllocError>
    ensures { IfOk result (λ v. map known_bound v.items ≡ map bound_in (cells_of all.now)) }
{
    let mut bounds = Vec::new(alloc);
    for k in all {
        let b = scalar_bound(alloc, k)?;
        bounds.push(b)?;
    }
    Ok(bounds)
}

fn held_bounds(alloc: Global, all: &[Known]) -> Result<Rc<Vec<Bound>>, AllocError>
    ensures { IfOk result (λ b. map known_bound b.value.items ≡ map bound_in (cells_of all.now)) }
{
    let bounds = bounds_of(alloc, all)?;
    let held = Rc::new(alloc, bounds)?;
    Ok(held)
}

/// The index range 1..n of so many cells.
pub(crate) fn one_to(alloc: Global, all: &[Known]) -> Result<Vec<(i64, i64)>, AllocError>
    ensures { IfOk result (λ v. v.items ≡ (pos 1, pos (length all.now)) ∷ []) }
{
    let mut index = Vec::new(alloc);
    index.push((1, all.len() as i64))?;
    Ok(index)
}

fn held_ranges(alloc: Global, ranges: Vec<(i64, i64)>) -> Result<Rc<Vec<(i64, i64)>>, AllocError>
    ensures { IfOk result (λ x. x.value.items ≡ ranges.items) }
{
    let held = Rc::new(alloc, ranges)?;
    Ok(held)
}

/// The var array of cells with these index ranges: a line of the run, which is made here.
///
/// Its elements' base is that of the node, and they are options where `opt` says so. What the line,
/// its elements' symbols and its lists may cost the caller's work has to pay for. Out of memory too
/// where a cell has no symbol.
pub fn array_over(
    alloc: Global,
    run: &mut Run,
    base: Base,
    opt: bool,
    ranges: Vec<(i64, i64)>,
    all: &[Known],
) -> Result<Known, Stop>
    ensures goes { GoesOnBy (58 * length all.now) run.old run.new }
    ensures means { Means seen result run.old run.new (λ r. give (array_over r.mode ranges.items (all_seen r all.now))) }
{
    let held = held_bounds(alloc, all)?;
    let index = held_ranges(alloc, ranges)?;
    let Ok(ss) = symbols_of(alloc, run, base, opt, all) else {
        return Err(Stop::Memory);
    };
    let line = symbols_line(alloc, run, ss)?;
    let k = cell_of_line(alloc, index, held, line)?;
    Ok(k)
}

/// A var array of cells.
pub(crate) fn open_line(
    alloc: Global,
    run: &mut Run,
    base: Base,
    opt: bool,
    all: &[Known],
) -> Result<Known, Stop>
    requires { cells.all_par (cells_of all.now) ≡ false }
    ensures goes { GoesOnBy (58 * length all.now) run.old run.new }
    ensures means { Means seen result run.old run.new (λ r. give (arrays.line_cell r.mode (all_seen r all.now))) }
{
    let ranges = one_to(alloc, all)?;
    let k = array_over(alloc, run, base, opt, ranges, all)?;
    Ok(k)
}

fn open_cells(
    alloc: Global,
    run: &mut Run,
    base: Base,
    opt: bool,
    g: Gathered,
) -> Result<Known, Stop>
    requires { cells.all_par (gathered g) ≡ false }
    ensures goes { GoesOnBy (58 * length (gathered g)) run.old run.new }
    ensures means { Means seen result run.old run.new (λ r. give (arrays.line_cell r.mode (gathered_by (seen r) g))) }
{
    match g {
        Gathered::Items(_) => Err(Stop::Memory),
        Gathered::Cells(all) => cells_line(alloc, run, base, opt, all),
    }
}

fn cells_line(
    alloc: Global,
    run: &mut Run,
    base: Base,
    opt: bool,
    all: Vec<Known>,
) -> Result<Known, Stop>
    requires { cells.all_par (cells_of all.items) ≡ false }
    ensures goes { GoesOnBy (58 * length all.items) run.old run.new }
    ensures means { Means seen result run.old run.new (λ r. give (arrays.line_cell r.mode (all_seen r all.items))) }
{
    open_line(alloc, run, base, opt, &all)
}

/// The array of these cells, with the index set 1..n, of a node whose elements have this base and are
/// options where `opt` says so: par where all are, and else a line of the run, which is made here.
///
/// What the line, its elements' symbols and its lists may cost the caller's work has to pay for. Out
/// of memory too where a cell has no symbol, and where one is an array.
pub fn line_cell_in(
    alloc: Global,
    run: &mut Run,
    base: Base,
    opt: bool,
    g: Gathered,
) -> Result<Known, Stop>
    ensures goes { GoesOnBy (58 * length (gathered g)) run.old run.new }
    ensures means { Means seen result run.old run.new (λ r. give (arrays.line_cell r.mode (gathered_by (seen r) g))) }
{
    if are_par(&g) {
        let Ok(k) = par_line(alloc, g) else {
            return Err(Stop::Memory);
        };
        Ok(k)
    } else {
        open_cells(alloc, run, base, opt, g)
    }
}
