// The bounds of rows that give sets and arrays: one function a row, each by its line of the definitions.

ghost use Rattle.std.specs.Prelude.{◌≡◌, ◌++◌, IfOk, OnOk, Some, map};
ghost use Rattle.std.specs.Option.{option_map};
ghost use Rattle.mz_operations.specs.Arrays.{index_range};
ghost use Rattle.mz_operations.specs.RowBounds as rows;
ghost use Rattle.mz_operations.specs.Bounds as bounds;
ghost use Rattle.mz_meaning.specs.Cells as cells;
ghost use Rattle.mz_meaning.specs.Operations.{argument_bounds};
ghost use Rattle.mz_eval_cells.specs.Views.{cell_of, cells_of, known_bound, known_bounds};
ghost use Rattle.mz_eval_row_bounds.specs.Arguments.{all_bounds, numbers};
ghost use Rattle.mz_eval_row_bounds.specs.StepsMade.{at_most, index_set_of, set_range, shaped_of};

use crate::arguments::{as_upper, bounds_at, elements_at, upper_at};
use crate::uppers::{intersection_at, union_at};
use mz_builtin_arguments::{end_of, intersection, union};
use mz_eval_cells::{Bound, Bounds, Known, bounds_in, share_bound};
use mz_operations::{MadeRow, Row, SetOp, Side};
use mz_value::RangeSet;
use std::alloc::{AllocError, Global};
use std::rc::Rc;

/// What an operation on two sets gives at most.
#[tactic(auto, unfolding(mz_operations::specs::Bounds::combined_upper))]
fn combined_upper(
    alloc: Global,
    op: SetOp,
    a: &RangeSet,
    b: &RangeSet,
) -> Result<RangeSet, AllocError>
    ensures { IfOk result (λ s. s ≡ bounds.combined_upper op a.now b.now) }
{
    match op {
        SetOp::Union => union(alloc, a, b),
        SetOp::Intersect => intersection(alloc, a, b),
        SetOp::Diff => a.copy(alloc),
        SetOp::Symdiff => union(alloc, a, b),
    }
}

/// The bounds of a set that has these at most, and of which nothing is sure.
fn at_most(alloc: Global, upper: RangeSet) -> Result<Bounds, AllocError>
    ensures { IfOk result (λ b. known_bounds b ≡ at_most upper) }
{
    let none = RangeSet::range(alloc, 1, 0)?;
    let least = Rc::new(alloc, none)?;
    let most = Rc::new(alloc, upper)?;
    Ok(Bounds::One(Bound::Sets(least, most)))
}

/// `union`, `intersect`, `diff` and `symdiff`.
#[tactic(auto, unfolding(mz_operations::specs::RowBounds::made_bounds))]
fn set_operation(alloc: Global, op: SetOp, cells: &[Known]) -> Result<Option<Bounds>, AllocError>
    ensures { IfOk result (λ b. option_map known_bounds b ≡ rows.made_bounds (MadeRow.SetOf op) (all_bounds cells.now)) }
{
    let Some(u) = upper_at(alloc, cells, 0)? else {
        return Ok(None);
    };
    let Some(w) = upper_at(alloc, cells, 1)? else {
        return Ok(None);
    };
    let upper = combined_upper(alloc, op, &u, &w)?;
    let b = at_most(alloc, upper)?;
    Ok(Some(b))
}

#[tactic(auto, unfolding(mz_operations::specs::RowBounds::made_bounds), using(crate::proofs::Shaping::most_of_all))]
fn array_union(alloc: Global, cells: &[Known]) -> Result<Option<Bounds>, AllocError>
    ensures { IfOk result (λ b. option_map known_bounds b ≡ rows.made_bounds MadeRow.ArrayUnion (all_bounds cells.now)) }
{
    let Some(upper) = union_at(alloc, cells, 0)? else {
        return Ok(None);
    };
    let b = at_most(alloc, upper)?;
    Ok(Some(b))
}

#[tactic(auto, unfolding(mz_operations::specs::RowBounds::made_bounds), using(crate::proofs::Shaping::most_of_all))]
fn array_intersect(alloc: Global, cells: &[Known]) -> Result<Option<Bounds>, AllocError>
    ensures { IfOk result (λ b. option_map known_bounds b ≡ rows.made_bounds MadeRow.ArrayIntersect (all_bounds cells.now)) }
{
    let Some(upper) = intersection_at(alloc, cells, 0)? else {
        return Ok(None);
    };
    let b = at_most(alloc, upper)?;
    Ok(Some(b))
}

/// An array with the index set 1..n of elements with these bounds.
#[tactic(auto, using(crate::proofs::Listing::as_many))]
fn line_of(alloc: Global, all: Rc<Vec<Bound>>) -> Result<Bounds, AllocError>
    ensures { IfOk result (λ b. known_bounds b ≡ rows.line_of (map known_bound all.value.items)) }
{
    let mut index = Vec::new(alloc);
    index.push((1, all.len() as i64))?;
    let ranges = Rc::new(alloc, index)?;
    Ok(Bounds::Many(ranges, all))
}

/// `array1d` of an array alone.
#[tactic(auto, unfolding(mz_operations::specs::RowBounds::made_bounds))]
fn line(alloc: Global, cells: &[Known]) -> Result<Option<Bounds>, AllocError>
    ensures { IfOk result (λ b. option_map known_bounds b ≡ rows.made_bounds MadeRow.Line (all_bounds cells.now)) }
{
    let Some(all) = elements_at(alloc, cells, 0)? else {
        return Ok(None);
    };
    let b = line_of(alloc, all)?;
    Ok(Some(b))
}

/// Appends the same bounds once more.
fn push_shared(all: &mut Vec<Bound>, more: &[Bound]) -> Result<(), AllocError>
    ensures { OnOk result (map known_bound all.new.items ≡ map known_bound all.old.items ++ map known_bound more.now) }
{
    for b in more {
        let same = share_bound(b)?;
        all.push(same)?;
    }
    Ok(())
}

fn appended(alloc: Global, first: &[Bound], second: &[Bound]) -> Result<Rc<Vec<Bound>>, AllocError>
    ensures { IfOk result (λ all. map known_bound all.value.items ≡ map known_bound first.now ++ map known_bound second.now) }
{
    let mut all = Vec::new(alloc);
    push_shared(&mut all, first)?;
    push_shared(&mut all, second)?;
    let held = Rc::new(alloc, all)?;
    Ok(held)
}

/// `++` of arrays.
#[tactic(auto, unfolding(mz_operations::specs::RowBounds::made_bounds))]
fn concatenation(alloc: Global, cells: &[Known]) -> Result<Option<Bounds>, AllocError>
    ensures { IfOk result (λ b. option_map known_bounds b ≡ rows.made_bounds MadeRow.Concat (all_bounds cells.now)) }
{
    let Some(first) = elements_at(alloc, cells, 0)? else {
        return Ok(None);
    };
    let Some(second) = elements_at(alloc, cells, 1)? else {
        return Ok(None);
    };
    let all = appended(alloc, first.as_slice(), second.as_slice())?;
    let b = line_of(alloc, all)?;
    Ok(Some(b))
}

/// A set as an index range, 1..0 where it is empty.
fn index_range(s: &RangeSet) -> (i64, i64)
    ensures { result ≡ index_range s.now }
{
    let lo = end_of(Side::Least, s);
    let hi = end_of(Side::Greatest, s);
    (lo.unwrap_or(1), hi.unwrap_or(0))
}

fn range_of_bound(b: &Bound) -> Option<(i64, i64)>
    ensures { result ≡ set_range (known_bound b.now) }
{
    let upper = as_upper(b)?;
    Some(index_range(upper))
}

fn range_of_bounds(b: &Bounds) -> Option<(i64, i64)>
    ensures { result ≡ set_range (cells.scalar_bound (known_bounds b.now)) }
{
    match b {
        Bounds::One(bound) => range_of_bound(bound),
        Bounds::Many(_, _) => None,
    }
}

fn range_of_defined(alloc: Global, cell: &Known) -> Result<Option<(i64, i64)>, AllocError>
    ensures { IfOk result (λ r. r ≡ set_range (cells.scalar_bound (cells.bounds_in (cell_of cell.now)))) }
{
    let b = bounds_in(alloc, cell)?;
    Ok(range_of_bounds(&b))
}

fn range_of_none(alloc: Global) -> Result<Option<(i64, i64)>, AllocError>
    ensures { IfOk result (λ r. r ≡ set_range (cells.scalar_bound bounds.no_set)) }
{
    let none = RangeSet::range(alloc, 1, 0)?;
    Ok(Some(index_range(&none)))
}

/// What an index set has at most, as a range; an undefined one is empty.
fn index_range_of(alloc: Global, cell: &Known) -> Result<Option<(i64, i64)>, AllocError>
    ensures { IfOk result (λ r. r ≡ set_range (index_set_of cell.now)) }
{
    match cell {
        Known::Undefined => range_of_none(alloc),
        Known::One(_) => range_of_defined(alloc, cell),
        Known::Array(_, _) => range_of_defined(alloc, cell),
        Known::Var(_) => range_of_defined(alloc, cell),
        Known::Row(_, _) => range_of_defined(alloc, cell),
        Known::Unshaped(_) => range_of_defined(alloc, cell),
    }
}

/// The index ranges of these index sets; `None` where one is none.
fn index_ranges(alloc: Global, sets: &[Known]) -> Result<Option<Vec<(i64, i64)>>, AllocError>
    ensures { IfOk result (λ rs. option_map (λ v. v.items) rs ≡ rows.each set_range (map index_set_of sets.now)) }
{
    let mut ranges = Vec::new(alloc);
    for s in sets {
        let Some(r) = index_range_of(alloc, s)? else {
            return Ok(None);
        };
        ranges.push(r)?;
    }
    Ok(Some(ranges))
}

/// `array1d` to `array6d` of index sets and an array, where there are this many arguments.
fn shaped_by(alloc: Global, sets: &[Known], others: &[Known]) -> Result<Option<Bounds>, AllocError>
    ensures { IfOk result (λ b. option_map known_bounds b ≡ shaped_of (rows.each set_range (map index_set_of sets.now)) (rows.elements_at (all_bounds others.now) 0)) }
{
    let Some(ranges) = index_ranges(alloc, sets)? else {
        return Ok(None);
    };
    let Some(all) = elements_at(alloc, others, 0)? else {
        return Ok(None);
    };
    let index = Rc::new(alloc, ranges)?;
    Ok(Some(Bounds::Many(index, all)))
}

/// `array1d` to `array6d` of this many index sets and an array.
#[tactic(auto, using(crate::proofs::Shaping::too_few))]
fn shaped(alloc: Global, d: u64, cells: &[Known]) -> Result<Option<Bounds>, AllocError>
    ensures { IfOk result (λ b. option_map known_bounds b ≡ rows.made_bounds (MadeRow.Shaped d) (argument_bounds (Row.Made (MadeRow.Shaped d)) (cells_of cells.now))) }
{
    let count = d as usize;
    if cells.len() < count {
        return Ok(None);
    }
    let b = shaped_by(alloc, &cells[..count], &cells[count..])?;
    Ok(b)
}

#[tactic(auto, unfolding(mz_operations::specs::RowBounds::made_bounds))]
fn deopt(alloc: Global, cells: &[Known]) -> Result<Option<Bounds>, AllocError>
    ensures { IfOk result (λ b. option_map known_bounds b ≡ rows.made_bounds MadeRow.Deopt (all_bounds cells.now)) }
{
    bounds_at(alloc, cells, 0)
}

#[tactic(auto, unfolding(mz_operations::specs::RowBounds::made_bounds))]
fn assert_value(alloc: Global, cells: &[Known]) -> Result<Option<Bounds>, AllocError>
    ensures { IfOk result (λ b. option_map known_bounds b ≡ rows.made_bounds MadeRow.AssertValue (all_bounds cells.now)) }
{
    bounds_at(alloc, cells, 2)
}

#[tactic(auto, unfolding(mz_operations::specs::RowBounds::made_bounds))]
fn assert_array(alloc: Global, cells: &[Known]) -> Result<Option<Bounds>, AllocError>
    ensures { IfOk result (λ b. option_map known_bounds b ≡ rows.made_bounds MadeRow.AssertArray (all_bounds cells.now)) }
{
    bounds_at(alloc, cells, 2)
}

/// The bounds of a truth value.
fn truth() -> Option<Bounds>
    ensures { option_map known_bounds result ≡ Some (numbers bounds.truth) }
{
    Some(Bounds::One(Bound::Number(0, 1)))
}

/// The bounds of what a row gives of these arguments; `None` where the arguments are of other
/// kinds, and where the row's value is always par.
#[tactic(auto, unfolding(mz_operations::specs::RowBounds::made_bounds))]
pub fn made_bounds(
    alloc: Global,
    row: MadeRow,
    cells: &[Known],
) -> Result<Option<Bounds>, AllocError>
    ensures { IfOk result (λ b. option_map known_bounds b ≡ rows.made_bounds row (argument_bounds (Row.Made row) (cells_of cells.now))) }
{
    match row {
        MadeRow::SetOf(op) => set_operation(alloc, op, cells),
        MadeRow::Subset => Ok(truth()),
        MadeRow::Superset => Ok(truth()),
        MadeRow::UpTo => Ok(None),
        MadeRow::IndexSet { .. } => Ok(None),
        MadeRow::Line => line(alloc, cells),
        MadeRow::Shaped(d) => shaped(alloc, d, cells),
        MadeRow::Concat => concatenation(alloc, cells),
        MadeRow::AppendTexts => Ok(None),
        MadeRow::SetToArray => Ok(None),
        MadeRow::ArrayUnion => array_union(alloc, cells),
        MadeRow::ArrayIntersect => array_intersect(alloc, cells),
        MadeRow::Deopt => deopt(alloc, cells),
        MadeRow::AssertValue => assert_value(alloc, cells),
        MadeRow::AssertArray => assert_array(alloc, cells),
        MadeRow::ShowInt => Ok(None),
        MadeRow::Join => Ok(None),
        MadeRow::ConcatTexts => Ok(None),
    }
}
