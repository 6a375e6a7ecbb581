// What rows give of a var argument that read its bounds alone: one function a row, each by its line of the definitions.

ghost use Rattle.std.specs.Prelude.{◌≡◌, IfOk, None, length, nat_eq, slice_get};
ghost use Rattle.std.specs.Option.{option_map};
ghost use Rattle.mz_value.specs.Contents.{content, set};
ghost use Rattle.mz_operations.specs.Bounds.{is_settled};
ghost use Rattle.mz_operations.specs.RowBounds as rows;
ghost use Rattle.mz_eval_cells.specs.Views.{known_bound, known_bounds};
ghost use Rattle.mz_eval_row_bounds.specs.Arguments.{all_bounds};
ghost use Rattle.mz_eval_row_bounds.specs.StepsBounds as steps;

use crate::arguments::{all_ends_at, as_one, bounds_at, elements_at, ends_at};
use mz_builtin_arguments::{same_set, up_to};
use mz_eval_cells::{Bound, Bounds, Known};
use mz_operations::{BoundingRow, MadeRow, Row, ScalarRow};
use mz_operations_bounds::hull_if_any;
use mz_value::{RangeSet, Value};
use std::alloc::{AllocError, Global};

fn set_copied(alloc: Global, s: &RangeSet) -> Result<Value, AllocError>
    ensures { IfOk result (λ v. content v ≡ set None s.now) }
{
    let ranges = s.copy(alloc)?;
    Ok(Value::integers(ranges))
}

/// The least integer, or what a set has at least.
#[tactic(auto, unfolding(mz_operations::specs::RowBounds::lower_of))]
fn lower_of(alloc: Global, b: &Bound) -> Result<Value, AllocError>
    ensures { IfOk result (λ v. content v ≡ rows.lower_of (known_bound b.now)) }
{
    match b {
        Bound::Number(low, _) => Ok(Value::Int(*low)),
        Bound::Sets(lower, _) => set_copied(alloc, lower),
    }
}

/// The greatest integer, or what a set has at most.
#[tactic(auto, unfolding(mz_operations::specs::RowBounds::upper_of))]
fn upper_of(alloc: Global, b: &Bound) -> Result<Value, AllocError>
    ensures { IfOk result (λ v. content v ≡ rows.upper_of (known_bound b.now)) }
{
    match b {
        Bound::Number(_, high) => Ok(Value::Int(*high)),
        Bound::Sets(_, upper) => set_copied(alloc, upper),
    }
}

/// Whether bounds are one value.
#[tactic(auto, unfolding(mz_operations::specs::Bounds::is_settled))]
fn is_settled(b: &Bound) -> bool
    ensures { result ≡ is_settled (known_bound b.now) }
{
    match b {
        Bound::Number(low, high) => *low == *high,
        Bound::Sets(lower, upper) => same_set(lower, upper),
    }
}

fn lower_in(alloc: Global, b: &Bounds) -> Result<Option<Value>, AllocError>
    ensures { IfOk result (λ v. option_map content v ≡ steps.lower_in (known_bounds b.now)) }
{
    match as_one(b) {
        None => Ok(None),
        Some(bound) => {
            let v = lower_of(alloc, bound)?;
            Ok(Some(v))
        }
    }
}

fn upper_in(alloc: Global, b: &Bounds) -> Result<Option<Value>, AllocError>
    ensures { IfOk result (λ v. option_map content v ≡ steps.upper_in (known_bounds b.now)) }
{
    match as_one(b) {
        None => Ok(None),
        Some(bound) => {
            let v = upper_of(alloc, bound)?;
            Ok(Some(v))
        }
    }
}

fn settled_in(b: &Bounds) -> Option<Value>
    ensures { option_map content result ≡ steps.settled_in (known_bounds b.now) }
{
    let bound = as_one(b)?;
    Some(Value::Bool(is_settled(bound)))
}

fn fixed_of(alloc: Global, b: &Bound) -> Result<Option<Value>, AllocError>
    ensures { IfOk result (λ v. option_map content v ≡ steps.fixed_of (known_bound b.now)) }
{
    if is_settled(b) {
        let v = upper_of(alloc, b)?;
        Ok(Some(v))
    } else {
        Ok(None)
    }
}

fn fixed_in(alloc: Global, b: &Bounds) -> Result<Option<Value>, AllocError>
    ensures { IfOk result (λ v. option_map content v ≡ steps.fixed_in (known_bounds b.now)) }
{
    match as_one(b) {
        None => Ok(None),
        Some(bound) => {
            let v = fixed_of(alloc, bound)?;
            Ok(v)
        }
    }
}

/// `lb`.
#[tactic(auto, unfolding(mz_operations::specs::RowBounds::value_by_bounds))]
fn lower_bound(alloc: Global, cells: &[Known]) -> Result<Option<Value>, AllocError>
    ensures { IfOk result (λ v. option_map content v ≡ rows.value_by_bounds (Row.Bounding BoundingRow.Lb) (all_bounds cells.now)) }
{
    match bounds_at(alloc, cells, 0)? {
        None => Ok(None),
        Some(b) => {
            let v = lower_in(alloc, &b)?;
            Ok(v)
        }
    }
}

/// `ub`.
#[tactic(auto, unfolding(mz_operations::specs::RowBounds::value_by_bounds))]
fn upper_bound(alloc: Global, cells: &[Known]) -> Result<Option<Value>, AllocError>
    ensures { IfOk result (λ v. option_map content v ≡ rows.value_by_bounds (Row.Bounding BoundingRow.Ub) (all_bounds cells.now)) }
{
    match bounds_at(alloc, cells, 0)? {
        None => Ok(None),
        Some(b) => {
            let v = upper_in(alloc, &b)?;
            Ok(v)
        }
    }
}

/// `dom`.
#[tactic(auto, unfolding(mz_operations::specs::RowBounds::value_by_bounds))]
fn domain(alloc: Global, cells: &[Known]) -> Result<Option<Value>, AllocError>
    ensures { IfOk result (λ v. option_map content v ≡ rows.value_by_bounds (Row.Bounding BoundingRow.Dom) (all_bounds cells.now)) }
{
    let Some(e) = ends_at(alloc, cells, 0)? else {
        return Ok(None);
    };
    let Some(s) = up_to(alloc, e.0, e.1)? else {
        return Ok(None);
    };
    Ok(Some(Value::integers(s)))
}

/// `lb_array`.
#[tactic(auto, unfolding(mz_operations::specs::RowBounds::value_by_bounds))]
fn lower_bound_of_array(alloc: Global, cells: &[Known]) -> Result<Option<Value>, AllocError>
    ensures { IfOk result (λ v. option_map content v ≡ rows.value_by_bounds (Row.Bounding BoundingRow.LbArray) (all_bounds cells.now)) }
{
    let Some(es) = all_ends_at(alloc, cells, 0)? else {
        return Ok(None);
    };
    let Some(e) = hull_if_any(es.as_slice()) else {
        return Ok(None);
    };
    Ok(Some(Value::Int(e.0)))
}

/// `ub_array`.
#[tactic(auto, unfolding(mz_operations::specs::RowBounds::value_by_bounds))]
fn upper_bound_of_array(alloc: Global, cells: &[Known]) -> Result<Option<Value>, AllocError>
    ensures { IfOk result (λ v. option_map content v ≡ rows.value_by_bounds (Row.Bounding BoundingRow.UbArray) (all_bounds cells.now)) }
{
    let Some(es) = all_ends_at(alloc, cells, 0)? else {
        return Ok(None);
    };
    let Some(e) = hull_if_any(es.as_slice()) else {
        return Ok(None);
    };
    Ok(Some(Value::Int(e.1)))
}

/// `is_fixed`.
#[tactic(auto, unfolding(mz_operations::specs::RowBounds::value_by_bounds))]
fn is_fixed(alloc: Global, cells: &[Known]) -> Result<Option<Value>, AllocError>
    ensures { IfOk result (λ v. option_map content v ≡ rows.value_by_bounds (Row.Bounding BoundingRow.IsFixed) (all_bounds cells.now)) }
{
    match bounds_at(alloc, cells, 0)? {
        None => Ok(None),
        Some(b) => Ok(settled_in(&b)),
    }
}

/// `fix`.
#[tactic(auto, unfolding(mz_operations::specs::RowBounds::value_by_bounds))]
fn fixed(alloc: Global, cells: &[Known]) -> Result<Option<Value>, AllocError>
    ensures { IfOk result (λ v. option_map content v ≡ rows.value_by_bounds (Row.Bounding BoundingRow.Fix) (all_bounds cells.now)) }
{
    match bounds_at(alloc, cells, 0)? {
        None => Ok(None),
        Some(b) => {
            let v = fixed_in(alloc, &b)?;
            Ok(v)
        }
    }
}

/// `length`.
#[tactic(auto, unfolding(mz_operations::specs::RowBounds::value_by_bounds), using(crate::proofs::Listing::as_many))]
fn length(alloc: Global, cells: &[Known]) -> Result<Option<Value>, AllocError>
    ensures { IfOk result (λ v. option_map content v ≡ rows.value_by_bounds (Row.Scalar ScalarRow.Length) (all_bounds cells.now)) }
{
    let Some(all) = elements_at(alloc, cells, 0)? else {
        return Ok(None);
    };
    Ok(Some(Value::Int(all.len() as i64)))
}

/// The index range at a place.
fn range_at(rs: &[(i64, i64)], place: u64) -> Option<(i64, i64)>
    ensures { result ≡ slice_get rs.now place }
{
    let place = place as usize;
    if place < rs.len() {
        Some(rs[place])
    } else {
        None
    }
}

fn has_dimensions(rs: &[(i64, i64)], dimensions: u64) -> bool
    ensures { result ≡ nat_eq (length rs.now) dimensions }
{
    rs.len() as u64 == dimensions
}

/// The index set at a place, of index ranges of this many dimensions.
fn index_set_of(
    alloc: Global,
    place: u64,
    dimensions: u64,
    rs: &[(i64, i64)],
) -> Result<Option<Value>, AllocError>
    ensures { IfOk result (λ v. option_map content v ≡ steps.index_set_of place dimensions rs.now) }
{
    let Some(r) = range_at(rs, place) else {
        return Ok(None);
    };
    let Some(s) = up_to(alloc, r.0, r.1)? else {
        return Ok(None);
    };
    if has_dimensions(rs, dimensions) {
        Ok(Some(Value::integers(s)))
    } else {
        Ok(None)
    }
}

fn index_set_in(
    alloc: Global,
    place: u64,
    dimensions: u64,
    b: &Bounds,
) -> Result<Option<Value>, AllocError>
    ensures { IfOk result (λ v. option_map content v ≡ steps.index_set_in place dimensions (known_bounds b.now)) }
{
    match b {
        Bounds::One(_) => Ok(None),
        Bounds::Many(index, _) => index_set_of(alloc, place, dimensions, index.as_slice()),
    }
}

/// `index_set` and its kin.
#[tactic(auto, unfolding(mz_operations::specs::RowBounds::value_by_bounds))]
fn index_set(
    alloc: Global,
    place: u64,
    dimensions: u64,
    cells: &[Known],
) -> Result<Option<Value>, AllocError>
    ensures { IfOk result (λ v. option_map content v ≡ rows.value_by_bounds (Row.Made (MadeRow.IndexSet place dimensions)) (all_bounds cells.now)) }
{
    match bounds_at(alloc, cells, 0)? {
        None => Ok(None),
        Some(b) => {
            let v = index_set_in(alloc, place, dimensions, &b)?;
            Ok(v)
        }
    }
}

#[tactic(auto, unfolding(mz_operations::specs::RowBounds::value_by_bounds))]
fn bounding(alloc: Global, row: BoundingRow, cells: &[Known]) -> Result<Option<Value>, AllocError>
    ensures { IfOk result (λ v. option_map content v ≡ rows.value_by_bounds (Row.Bounding row) (all_bounds cells.now)) }
{
    match row {
        BoundingRow::Lb => lower_bound(alloc, cells),
        BoundingRow::Ub => upper_bound(alloc, cells),
        BoundingRow::Dom => domain(alloc, cells),
        BoundingRow::LbArray => lower_bound_of_array(alloc, cells),
        BoundingRow::UbArray => upper_bound_of_array(alloc, cells),
        BoundingRow::IsFixed => is_fixed(alloc, cells),
        BoundingRow::Fix => fixed(alloc, cells),
    }
}

/// What a row gives by the bounds of its arguments alone: a number as an integer; `None` where that
/// is undefined, and of rows that ask for values.
#[tactic(auto, unfolding(mz_operations::specs::RowBounds::value_by_bounds))]
pub fn value_by_bounds(
    alloc: Global,
    row: Row,
    cells: &[Known],
) -> Result<Option<Value>, AllocError>
    ensures { IfOk result (λ v. option_map content v ≡ rows.value_by_bounds row (all_bounds cells.now)) }
{
    match row {
        Row::Bounding(r) => bounding(alloc, r, cells),
        Row::Scalar(ScalarRow::Length) => length(alloc, cells),
        Row::Made(MadeRow::IndexSet { place, dimensions }) => {
            index_set(alloc, place, dimensions, cells)
        }
        _ => Ok(None),
    }
}
