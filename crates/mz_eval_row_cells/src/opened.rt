// Rows with a var argument.

ghost use Rattle.std.specs.Prelude.{◌≡◌, None, map, take};
ghost use Rattle.std.specs.List.{list_any};
ghost use Rattle.std.specs.Option.{option_map};
ghost use Rattle.mz_value.specs.Shown.{Names};
ghost use Rattle.mz_core.specs.Types.{plain_type};
ghost use Rattle.mz_operations.specs.RowBounds as rows;
ghost use Rattle.mz_meaning.specs.Runs.{give};
ghost use Rattle.mz_meaning.specs.Cells.{Bare, Par, bounds_in};
ghost use Rattle.mz_meaning.specs.Coerced.{recast};
ghost use Rattle.mz_meaning.specs.Operations as operations;
ghost use Rattle.mz_eval_cells.specs.Views.{cell_of, cells_of, known_bounds};
ghost use Rattle.mz_eval_cells.specs.Meets.{Tells};
ghost use Rattle.mz_eval_row_bounds.specs.Arguments.{numbers};
ghost use Rattle.mz_eval_row_cells.specs.Steps as steps;

use crate::applied::recast_known;
use crate::faults::{nth, tested};
use crate::limits::{var_number, var_of};
use mz_base::{Span, Stop};
use mz_core::TypeInst;
use mz_eval_cells::{Bounds, Known, no_bounds};
use mz_eval_row_bounds::{made_bounds, scalar_bounds, value_by_bounds};
use mz_operations::{MadeRow, Row, ScalarRow};
use std::alloc::Global;

/// The var cell of an undefined node of a type.
fn unbounded(alloc: Global, t: &TypeInst, at: Span) -> Result<Known, Stop>
    ensures { Tells cell_of result (steps.var_of at (steps.bounds_or (plain_type t.now) None)) }
{
    let b = no_bounds(alloc, t)?;
    var_of(alloc, at, b)
}

fn number_or(alloc: Global, t: &TypeInst, at: Span, e: Option<(i128, i128)>) -> Result<Known, Stop>
    ensures { Tells cell_of result (steps.var_of at (steps.bounds_or (plain_type t.now) (option_map numbers e))) }
{
    match e {
        None => unbounded(alloc, t, at),
        Some(ends) => var_number(alloc, at, &ends),
    }
}

fn bounds_or(alloc: Global, t: &TypeInst, at: Span, b: Option<Bounds>) -> Result<Known, Stop>
    ensures { Tells cell_of result (steps.var_of at (steps.bounds_or (plain_type t.now) (option_map known_bounds b))) }
{
    match b {
        None => unbounded(alloc, t, at),
        Some(bounds) => var_of(alloc, at, bounds),
    }
}

fn scalar_opened(
    alloc: Global,
    row: ScalarRow,
    t: &TypeInst,
    at: Span,
    cells: &[Known],
) -> Result<Known, Stop>
    ensures { Tells cell_of result (steps.opened (Row.Scalar row) (plain_type t.now) at (cells_of cells.now)) }
{
    let e = scalar_bounds(alloc, row, cells)?;
    number_or(alloc, t, at, e)
}

fn made_opened(
    alloc: Global,
    row: MadeRow,
    t: &TypeInst,
    at: Span,
    cells: &[Known],
) -> Result<Known, Stop>
    ensures { Tells cell_of result (steps.opened (Row.Made row) (plain_type t.now) at (cells_of cells.now)) }
{
    let b = made_bounds(alloc, row, cells)?;
    bounds_or(alloc, t, at, b)
}

fn opened(alloc: Global, row: Row, t: &TypeInst, at: Span, cells: &[Known]) -> Result<Known, Stop>
    ensures { Tells cell_of result (steps.opened row (plain_type t.now) at (cells_of cells.now)) }
{
    match row {
        Row::Scalar(r) => scalar_opened(alloc, r, t, at, cells),
        Row::Made(r) => made_opened(alloc, r, t, at, cells),
        Row::Bounding(_) => unbounded(alloc, t, at),
        Row::Show => unbounded(alloc, t, at),
        Row::ShowArray => unbounded(alloc, t, at),
    }
}

/// An array without a shape stays without one.
fn or_unshaped(array: &Known, k: Known) -> Known
    ensures { cell_of result ≡ operations.or_unshaped (cell_of array.now) (cell_of k) }
{
    match array {
        Known::Unshaped(d) => Known::Unshaped(*d),
        Known::Undefined => k,
        Known::One(_) => k,
        Known::Array(_, _) => k,
        Known::Var(_) => k,
        Known::Row(_, _) => k,
    }
}

#[tactic(auto, using(crate::proofs::Knowing::place_there, crate::proofs::Knowing::place_missing))]
fn or_unshaped_at(cells: &[Known], place: usize, k: Known) -> Known
    ensures { cell_of result ≡ operations.or_unshaped (operations.at_place place (cells_of cells.now)) (cell_of k) }
{
    match nth(cells, place) {
        None => k,
        Some(array) => or_unshaped(array, k),
    }
}

/// An array without a shape has none under other index sets, with this number of dimensions.
fn or_reshaped(dimensions: u64, array: &Known, k: Known) -> Known
    ensures { cell_of result ≡ operations.or_reshaped dimensions (cell_of array.now) (cell_of k) }
{
    match array {
        Known::Unshaped(_) => Known::Unshaped(dimensions),
        Known::Undefined => k,
        Known::One(_) => k,
        Known::Array(_, _) => k,
        Known::Var(_) => k,
        Known::Row(_, _) => k,
    }
}

#[tactic(auto, using(crate::proofs::Knowing::place_there, crate::proofs::Knowing::place_missing))]
fn or_reshaped_at(cells: &[Known], place: usize, dimensions: u64, k: Known) -> Known
    ensures { cell_of result ≡ operations.or_reshaped dimensions (operations.at_place place (cells_of cells.now)) (cell_of k) }
{
    match nth(cells, place) {
        None => k,
        Some(array) => or_reshaped(dimensions, array, k),
    }
}

/// Whether an index set is undefined.
fn is_no_set(k: &Known) -> bool
    ensures { result ≡ operations.is_no_set (cell_of k.now) }
{
    match k {
        Known::Undefined => true,
        Known::One(_) => false,
        Known::Array(_, _) => false,
        Known::Var(_) => false,
        Known::Row(_, _) => false,
        Known::Unshaped(_) => false,
    }
}

fn some_no_set(sets: &[Known]) -> bool
    ensures { result ≡ list_any operations.is_no_set (map cell_of sets.now) }
{
    for k in sets {
        if is_no_set(k) {
            return true;
        }
    }
    false
}

/// Whether one of the first arguments, at most this many, is an undefined index set.
#[tactic(auto, using(crate::proofs::Knowing::sets_there, crate::proofs::Knowing::sets_few))]
fn lacks_set(d: u64, cells: &[Known]) -> bool
    ensures { result ≡ list_any operations.is_no_set (take d (cells_of cells.now)) }
{
    let count = d as usize;
    if cells.len() < count {
        return some_no_set(cells);
    }
    some_no_set(&cells[..count])
}

/// The cell of `array1d` to `array6d`, without a shape where an index set is undefined or the array
/// has none.
#[tactic(auto, using(crate::proofs::Knowing::shaped_without, crate::proofs::Knowing::shaped_with))]
fn shaped_by(d: u64, cells: &[Known], k: Known) -> Known
    ensures { cell_of result ≡ operations.with_shape (Row.Made (MadeRow.Shaped d)) (cells_of cells.now) (cell_of k) }
{
    if lacks_set(d, cells) {
        Known::Unshaped(d)
    } else {
        or_reshaped_at(cells, d as usize, d, k)
    }
}

/// The row's cell, without a shape where its array has none.
fn with_shape(row: Row, cells: &[Known], k: Known) -> Known
    ensures { cell_of result ≡ operations.with_shape row (cells_of cells.now) (cell_of k) }
{
    match row {
        Row::Made(MadeRow::Shaped(d)) => shaped_by(d, cells, k),
        Row::Made(MadeRow::Line) => or_reshaped_at(cells, 0, 1, k),
        Row::Made(MadeRow::AssertArray) => or_unshaped_at(cells, 2, k),
        _ => k,
    }
}

/// The bounds of a row, without its faults.
fn bounded(alloc: Global, row: Row, t: &TypeInst, at: Span, cells: &[Known]) -> Result<Known, Stop>
    ensures { Tells cell_of result (steps.bounded row (plain_type t.now) at (cells_of cells.now)) }
{
    let k = opened(alloc, row, t, at, cells)?;
    Ok(with_shape(row, cells, k))
}

fn var_row(alloc: Global, row: Row, t: &TypeInst, at: Span, cells: &[Known]) -> Result<Known, Stop>
    ensures { (names : Names) → Tells cell_of result (operations.var_row Bare names row (plain_type t.now) at (cells_of cells.now)) }
{
    tested(alloc, row, at, cells)?;
    bounded(alloc, row, t, at, cells)
}

/// Whether a row reads the bounds of its argument alone.
fn reads_bounds(row: Row) -> bool
    ensures { result ≡ operations.reads_bounds row }
{
    match row {
        Row::Bounding(_) => true,
        Row::Scalar(ScalarRow::Length) => true,
        Row::Made(MadeRow::IndexSet { .. }) => true,
        _ => false,
    }
}

fn read_by_bounds(alloc: Global, row: Row, t: &TypeInst, cells: &[Known]) -> Result<Known, Stop>
    ensures { Tells cell_of result (give (Par (option_map (recast (plain_type t.now).base) (rows.value_by_bounds row (map bounds_in (cells_of cells.now)))))) }
{
    let v = value_by_bounds(alloc, row, cells)?;
    let k = recast_known(alloc, t.base, v)?;
    Ok(k)
}

/// What a row gives of arguments of which one is var, at a node of this type. Refused
/// IndexMismatch where index sets that are given to an array don't fit it; NegativeArgument where
/// an exponent is negative; AssertFailed where the condition of an `assert` is false;
/// Bounds where an end of its bounds leaves the limit, with this end, the lower one first.
pub(crate) fn open_row(
    alloc: Global,
    row: Row,
    t: &TypeInst,
    at: Span,
    cells: &[Known],
) -> Result<Known, Stop>
    ensures { (names : Names) → Tells cell_of result (steps.open_row names row (plain_type t.now) at (cells_of cells.now)) }
{
    if reads_bounds(row) {
        read_by_bounds(alloc, row, t, cells)
    } else {
        var_row(alloc, row, t, at, cells)
    }
}
