// The array of rows of cells, with its value.

ghost use Rattle.std.specs.Prelude.{◌≡◌, IfOk, Some};
ghost use Rattle.mz_meaning.specs.Arrays as arrays;
ghost use Rattle.mz_meaning.specs.Cells as cells;
ghost use Rattle.mz_meaning.specs.Runs.{give};
ghost use Rattle.mz_symbol.specs.Makes.{GoesOn, Means};
ghost use Rattle.mz_eval_cells.specs.Views.{cell_of, seen};
ghost use Rattle.mz_eval_branches.specs.TableCells.{AreJoined, IsVarTable, rows_seen, table_over};

use crate::drawing::drawn_array;
use crate::joining::{have_values, joined};
use crate::unvalued;
use mz_base::{Span, Stop};
use mz_core::Base;
use mz_eval_arrays::table_cell;
use mz_eval_cells::{Known, index_of, is_par};
use mz_symbol::Run;
use std::alloc::{AllocError, Global};

/// The index ranges of an array.
fn ranges_of(alloc: Global, k: &Known) -> Result<Vec<(i64, i64)>, AllocError>
    ensures { IfOk result (λ v. Some v.items ≡ cells.index_of (cell_of k.now)) }
{
    let Some(index) = index_of(k) else {
        return Err(AllocError);
    };
    let ranges = Vec::from_slice(alloc, index)?;
    Ok(ranges)
}

/// The var array of these cells; `k` is the cell without a value.
fn joined_table(
    alloc: Global,
    run: &mut Run,
    base: Base,
    opt: bool,
    rows: &[Vec<Known>],
    all: &[Known],
    k: Known,
) -> Result<Known, Stop>
    requires joined { AreJoined rows.now all.now }
    requires open { IsVarTable rows.now (cell_of k) }
    ensures goes { GoesOn run.old run.new }
    ensures means { Means seen result run.old run.new (λ r. give (table_over r rows.now)) }
{
    if !have_values(all) {
        let x = unvalued(k)?;
        return Ok(x);
    }
    let ranges = ranges_of(alloc, &k)?;
    let x = drawn_array(alloc, run, base, opt, ranges, all)?;
    Ok(x)
}

/// The same of rows.
fn open_table(
    alloc: Global,
    run: &mut Run,
    base: Base,
    opt: bool,
    rows: &[Vec<Known>],
    k: Known,
) -> Result<Known, Stop>
    requires { IsVarTable rows.now (cell_of k) }
    ensures goes { GoesOn run.old run.new }
    ensures means { Means seen result run.old run.new (λ r. give (table_over r rows.now)) }
{
    let all = joined(alloc, rows)?;
    joined_table(alloc, run, base, opt, rows, &all, k)
}

/// The array that is written in these rows, indexed from 1, of a node whose elements have this base
/// and are options where `opt` says so: par where all cells are, and else a line of the run, which is
/// made here.
///
/// Refused as `table_cell` of `mz_eval_arrays` is. Of par cells, and of cells of which one is
/// undefined wherever it is read, nothing is made. Else 58 an element is drawn from what the run has
/// saved. Out of memory too where less is saved, and where a cell has no symbol (`symbol_in` of
/// `mz_eval_symbols`).
pub fn table_cell_in(
    alloc: Global,
    run: &mut Run,
    base: Base,
    opt: bool,
    at: Span,
    rows: &[Vec<Known>],
) -> Result<Known, Stop>
    ensures goes { GoesOn run.old run.new }
    ensures means { Means seen result run.old run.new (λ r. arrays.table_cell r.mode at (rows_seen r rows.now)) }
{
    let k = table_cell(alloc, at, rows)?;
    if is_par(&k) {
        return Ok(k);
    }
    let x = open_table(alloc, run, base, opt, rows, k)?;
    Ok(x)
}
