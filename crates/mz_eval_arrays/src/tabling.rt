// Arrays of two dimensions that are written row by row.

ghost use Rattle.std.specs.Prelude.{◌≡◌, ◌++◌, ◌<◌, ◌^◌, false, true, IfOk, None, OnOk, length, map, nat_eq, pos};
ghost use Rattle.std.specs.List.{list_all};
ghost use Rattle.mz_operations.specs.Bounds as bounds;
ghost use Rattle.mz_meaning.specs.Arrays as arrays;
ghost use Rattle.mz_meaning.specs.Cells as cells;
ghost use Rattle.mz_meaning.specs.Cells.{Bare, Var};
ghost use Rattle.mz_eval_cells.specs.Meets.{Tells};
ghost use Rattle.mz_eval_cells.specs.Views.{cell_of, cells_of};

use crate::joining::{all_values, cell_bounds};
use mz_base::{Fault, Kind, Span, Stop};
use mz_eval_cells::{Known, all_par, array, share, undefined, var_items};
use std::alloc::{AllocError, Global};

fn push_shared(all: &mut Vec<Known>, row: &[Known]) -> Result<(), AllocError>
    ensures { OnOk result (cells_of all.new.items ≡ cells_of all.old.items ++ cells_of row.now) }
{
    for k in row {
        let x = share(k)?;
        all.push(x)?;
    }
    Ok(())
}

fn joined(alloc: Global, rows: &[Vec<Known>]) -> Result<Vec<Known>, AllocError>
    ensures { IfOk result (λ v. cells_of v.items ≡ arrays.joined (map (λ r. cells_of r.items) rows.now)) }
{
    let mut all = Vec::new(alloc);
    for row in rows {
        push_shared(&mut all, row)?;
    }
    Ok(all)
}

fn row_length(rows: &[Vec<Known>]) -> usize
    ensures length { result ≡ arrays.row_length (map (λ r. cells_of r.items) rows.now) }
    ensures fits { result < 2 ^ 63 }
{
    match rows {
        [] => 0,
        [row, ..] => row.len(),
    }
}

fn has_length(row: &[Known], n: usize) -> bool
    ensures { result ≡ nat_eq (length (cells_of row.now)) n }
{
    row.len() == n
}

fn all_have_length(rows: &[Vec<Known>], n: usize) -> bool
    ensures { result ≡ list_all (λ r. nat_eq (length r) n) (map (λ r. cells_of r.items) rows.now) }
{
    for row in rows {
        if !has_length(row, n) {
            return false;
        }
    }
    true
}

fn are_level(rows: &[Vec<Known>]) -> bool
    ensures { result ≡ arrays.are_level (map (λ r. cells_of r.items) rows.now) }
{
    let n = row_length(rows);
    all_have_length(rows, n)
}

fn table_ranges(alloc: Global, rows: &[Vec<Known>]) -> Result<Vec<(i64, i64)>, AllocError>
    ensures { IfOk result (λ v. v.items ≡ arrays.table_ranges (map (λ r. cells_of r.items) rows.now)) }
{
    let mut index = Vec::new(alloc);
    index.push((1, rows.len() as i64))?;
    index.push((1, row_length(rows) as i64))?;
    Ok(index)
}

fn var_table(alloc: Global, ranges: Vec<(i64, i64)>, all: &[Known]) -> Result<Known, AllocError>
    ensures { IfOk result (λ k. cell_of k ≡ Var (bounds.many ranges.items (map (λ c. cells.scalar_bound (cells.bounds_in c)) (cells_of all.now))) None) }
{
    let bounds = cell_bounds(alloc, all)?;
    var_items(alloc, ranges, bounds)
}

fn mismatch(at: Span) -> Stop
    ensures { result ≡ Stop.Refused (record { kind = Kind.IndexMismatch; span = at; number = pos 0 }) }
{
    Stop::Refused(Fault::at(Kind::IndexMismatch, at))
}

/// A var table.
#[tactic(auto, using(crate::proofs::Tables::var_table_uneven, crate::proofs::Tables::var_table_is))]
fn open_table(alloc: Global, at: Span, rows: &[Vec<Known>], all: &[Known]) -> Result<Known, Stop>
    requires some_var { cells.all_par (cells_of all.now) ≡ false }
    requires joined { cells_of all.now ≡ arrays.joined (map (λ r. cells_of r.items) rows.now) }
    ensures { Tells cell_of result (arrays.table_cell Bare at (map (λ r. cells_of r.items) rows.now)) }
{
    if !are_level(rows) {
        return Err(mismatch(at));
    }
    let ranges = table_ranges(alloc, rows)?;
    let k = var_table(alloc, ranges, all)?;
    Ok(k)
}

/// A par table.
#[tactic(auto, using(crate::proofs::Tables::table_undefined, crate::proofs::Tables::par_table_uneven, crate::proofs::Tables::par_table_is))]
fn par_table(alloc: Global, at: Span, rows: &[Vec<Known>], all: &[Known]) -> Result<Known, Stop>
    requires all_par { cells.all_par (cells_of all.now) ≡ true }
    requires joined { cells_of all.now ≡ arrays.joined (map (λ r. cells_of r.items) rows.now) }
    ensures { Tells cell_of result (arrays.table_cell Bare at (map (λ r. cells_of r.items) rows.now)) }
{
    match all_values(alloc, all)? {
        None => Ok(undefined()),
        Some(items) => {
            if !are_level(rows) {
                return Err(mismatch(at));
            }
            let ranges = table_ranges(alloc, rows)?;
            let k = array(alloc, ranges, items)?;
            Ok(k)
        }
    }
}

/// The array that is written in these rows, indexed from 1: par where all cells are.
///
/// An undefined par cell makes a par array undefined, whatever its rows' lengths. Else refused
/// IndexMismatch at `at` where two rows differ in length.
pub fn table_cell(alloc: Global, at: Span, rows: &[Vec<Known>]) -> Result<Known, Stop>
    ensures { Tells cell_of result (arrays.table_cell Bare at (map (λ r. cells_of r.items) rows.now)) }
{
    let all = joined(alloc, rows)?;
    if all_par(&all) {
        par_table(alloc, at, rows, &all)
    } else {
        open_table(alloc, at, rows, &all)
    }
}
