// What the sets of an array have together, and in common, at most.

ghost use Rattle.std.specs.Prelude.{◌≡◌, ◌∷◌, IfOk, map};
ghost use Rattle.std.specs.Option.{option_map};
ghost use Rattle.mz_operations.specs.RowBounds as rows;
ghost use Rattle.mz_operations.specs.Bounds as bounds;
ghost use Rattle.mz_eval_cells.specs.Views.{known_bound};
ghost use Rattle.mz_eval_row_bounds.specs.Arguments.{all_bounds};

use crate::arguments::{as_upper, elements_at};
use mz_builtin_arguments::{intersection, union};
use mz_eval_cells::{Bound, Known};
use mz_value::RangeSet;
use std::alloc::{AllocError, Global};

/// The union of what sets have at most; `None` where one is a number.
fn union_of(alloc: Global, all: &[Bound]) -> Result<Option<RangeSet>, AllocError>
    ensures { IfOk result (λ s. s ≡ option_map bounds.union_of_all (rows.each rows.as_upper (map known_bound all.now))) }
{
    let mut acc = RangeSet::range(alloc, 1, 0)?;
    for b in all {
        let Some(u) = as_upper(b) else {
            return Ok(None);
        };
        acc = union(alloc, &acc, u)?;
    }
    Ok(Some(acc))
}

/// What is common to a set and to what the others have at most; `None` where one is a number.
fn intersection_from(
    alloc: Global,
    first: RangeSet,
    others: &[Bound],
) -> Result<Option<RangeSet>, AllocError>
    ensures { IfOk result (λ s. s ≡ option_map (bounds.intersection_from first) (rows.each rows.as_upper (map known_bound others.now))) }
{
    let mut acc = first;
    for b in others {
        let Some(u) = as_upper(b) else {
            return Ok(None);
        };
        acc = intersection(alloc, &acc, u)?;
    }
    Ok(Some(acc))
}

fn intersection_with(
    alloc: Global,
    first: &Bound,
    others: &[Bound],
) -> Result<Option<RangeSet>, AllocError>
    ensures { IfOk result (λ s. s ≡ option_map bounds.intersection_of_all (rows.each rows.as_upper (map known_bound (first.now ∷ others.now)))) }
{
    let Some(u) = as_upper(first) else {
        return Ok(None);
    };
    let start = u.copy(alloc)?;
    let s = intersection_from(alloc, start, others)?;
    Ok(s)
}

/// What is common to what sets have at most, nothing of no set; `None` where one is a number.
fn intersection_of(alloc: Global, all: &[Bound]) -> Result<Option<RangeSet>, AllocError>
    ensures { IfOk result (λ s. s ≡ option_map bounds.intersection_of_all (rows.each rows.as_upper (map known_bound all.now))) }
{
    match all {
        [] => Ok(Some(RangeSet::range(alloc, 1, 0)?)),
        [first, others @ ..] => {
            let s = intersection_with(alloc, first, others)?;
            Ok(s)
        }
    }
}

/// What the sets of the array at this place have together at most.
#[tactic(auto, unfolding(mz_operations::specs::RowBounds::all_uppers_at))]
pub(crate) fn union_at(
    alloc: Global,
    cells: &[Known],
    k: usize,
) -> Result<Option<RangeSet>, AllocError>
    ensures { IfOk result (λ s. s ≡ option_map bounds.union_of_all (rows.all_uppers_at (all_bounds cells.now) k)) }
{
    match elements_at(alloc, cells, k)? {
        None => Ok(None),
        Some(all) => {
            let s = union_of(alloc, all.as_slice())?;
            Ok(s)
        }
    }
}

/// What the sets of the array at this place have in common at most.
#[tactic(auto, unfolding(mz_operations::specs::RowBounds::all_uppers_at))]
pub(crate) fn intersection_at(
    alloc: Global,
    cells: &[Known],
    k: usize,
) -> Result<Option<RangeSet>, AllocError>
    ensures { IfOk result (λ s. s ≡ option_map bounds.intersection_of_all (rows.all_uppers_at (all_bounds cells.now) k)) }
{
    match elements_at(alloc, cells, k)? {
        None => Ok(None),
        Some(all) => {
            let s = intersection_of(alloc, all.as_slice())?;
            Ok(s)
        }
    }
}
