// The bounds of arguments.

ghost use Rattle.std.specs.Prelude.{◌≡◌, IfOk, MatchOption, None, Some, map, slice_get};
ghost use Rattle.std.specs.Option.{option_map, option_and_then};
ghost use Rattle.mz_operations.specs.RowBounds as rows;
ghost use Rattle.mz_eval_cells.specs.Views.{known_bound, known_bounds};
ghost use Rattle.mz_eval_row_bounds.specs.Arguments.{all_bounds};

use mz_eval_cells::{Bound, Bounds, Known, bounds_in};
use mz_value::RangeSet;
use std::alloc::{AllocError, Global};
use std::rc::Rc;

/// The argument at this place.
fn nth(cells: &[Known], k: usize) -> Option<&Known>
    ensures { MatchOption result (slice_get cells.now k ≡ None) (λ c. slice_get cells.now k ≡ Some c.now) }
{
    cells.get(k)
}

/// The bounds of the argument at this place, from 0; `None` where there is none.
#[tactic(auto, unfolding(mz_operations::specs::RowBounds::bounds_at), using(crate::proofs::Places::argument_there, crate::proofs::Places::argument_missing))]
pub(crate) fn bounds_at(
    alloc: Global,
    cells: &[Known],
    k: usize,
) -> Result<Option<Bounds>, AllocError>
    ensures { IfOk result (λ b. option_map known_bounds b ≡ rows.bounds_at (all_bounds cells.now) k) }
{
    match nth(cells, k) {
        None => Ok(None),
        Some(cell) => {
            let b = bounds_in(alloc, cell)?;
            Ok(Some(b))
        }
    }
}

/// The bounds of what is no array.
pub(crate) fn as_one(b: &Bounds) -> Option<&Bound>
    ensures { option_map (λ c. known_bound c.now) result ≡ rows.as_one (known_bounds b.now) }
{
    match b {
        Bounds::One(bound) => Some(bound),
        Bounds::Many(_, _) => None,
    }
}

/// The ends of a number's bounds.
pub(crate) fn as_ends(b: &Bound) -> Option<(i64, i64)>
    ensures { result ≡ rows.as_ends (known_bound b.now) }
{
    match b {
        Bound::Number(low, high) => Some((*low, *high)),
        Bound::Sets(_, _) => None,
    }
}

/// What a set has at most.
pub(crate) fn as_upper(b: &Bound) -> Option<&RangeSet>
    ensures { option_map (λ s. s.now) result ≡ rows.as_upper (known_bound b.now) }
{
    match b {
        Bound::Number(_, _) => None,
        Bound::Sets(_, upper) => Some(upper),
    }
}

fn ends_in(b: &Bounds) -> Option<(i64, i64)>
    ensures { result ≡ option_and_then rows.as_ends (rows.as_one (known_bounds b.now)) }
{
    let bound = as_one(b)?;
    as_ends(bound)
}

/// The ends of the number at this place.
#[tactic(auto, unfolding(mz_operations::specs::RowBounds::ends_at))]
pub(crate) fn ends_at(
    alloc: Global,
    cells: &[Known],
    k: usize,
) -> Result<Option<(i64, i64)>, AllocError>
    ensures { IfOk result (λ e. e ≡ rows.ends_at (all_bounds cells.now) k) }
{
    match bounds_at(alloc, cells, k)? {
        None => Ok(None),
        Some(b) => Ok(ends_in(&b)),
    }
}

fn upper_in(b: Bounds) -> Option<Rc<RangeSet>>
    ensures { option_map (λ s. s.value) result ≡ option_and_then rows.as_upper (rows.as_one (known_bounds b)) }
{
    match b {
        Bounds::One(bound) => upper_of(bound),
        Bounds::Many(_index, _bounds) => None,
    }
}

fn upper_of(b: Bound) -> Option<Rc<RangeSet>>
    ensures { option_map (λ s. s.value) result ≡ rows.as_upper (known_bound b) }
{
    match b {
        Bound::Number(_, _) => None,
        Bound::Sets(_lower, upper) => Some(upper),
    }
}

/// What the set at this place has at most.
#[tactic(auto, unfolding(mz_operations::specs::RowBounds::upper_at))]
pub(crate) fn upper_at(
    alloc: Global,
    cells: &[Known],
    k: usize,
) -> Result<Option<Rc<RangeSet>>, AllocError>
    ensures { IfOk result (λ s. option_map (λ u. u.value) s ≡ rows.upper_at (all_bounds cells.now) k) }
{
    match bounds_at(alloc, cells, k)? {
        None => Ok(None),
        Some(b) => Ok(upper_in(b)),
    }
}

fn elements_in(b: Bounds) -> Option<Rc<Vec<Bound>>>
    ensures { option_map (λ bs. map known_bound bs.value.items) result ≡ rows.as_elements (known_bounds b) }
{
    match b {
        Bounds::One(_bound) => None,
        Bounds::Many(_index, bounds) => Some(bounds),
    }
}

/// The bounds of the elements of the array at this place.
#[tactic(auto, unfolding(mz_operations::specs::RowBounds::elements_at))]
pub(crate) fn elements_at(
    alloc: Global,
    cells: &[Known],
    k: usize,
) -> Result<Option<Rc<Vec<Bound>>>, AllocError>
    ensures { IfOk result (λ all. option_map (λ bs. map known_bound bs.value.items) all ≡ rows.elements_at (all_bounds cells.now) k) }
{
    match bounds_at(alloc, cells, k)? {
        None => Ok(None),
        Some(b) => Ok(elements_in(b)),
    }
}

/// The ends of numbers' bounds; `None` where one is a set's.
pub(crate) fn all_ends(alloc: Global, all: &[Bound]) -> Result<Option<Vec<(i64, i64)>>, AllocError>
    ensures { IfOk result (λ es. option_map (λ v. v.items) es ≡ rows.each rows.as_ends (map known_bound all.now)) }
{
    let mut ends = Vec::new(alloc);
    for b in all {
        let Some(e) = as_ends(b) else {
            return Ok(None);
        };
        ends.push(e)?;
    }
    Ok(Some(ends))
}

/// The ends of the bounds of the elements of the array of numbers at this place.
#[tactic(auto, unfolding(mz_operations::specs::RowBounds::all_ends_at))]
pub(crate) fn all_ends_at(
    alloc: Global,
    cells: &[Known],
    k: usize,
) -> Result<Option<Vec<(i64, i64)>>, AllocError>
    ensures { IfOk result (λ es. option_map (λ v. v.items) es ≡ rows.all_ends_at (all_bounds cells.now) k) }
{
    match elements_at(alloc, cells, k)? {
        None => Ok(None),
        Some(all) => {
            let es = all_ends(alloc, all.as_slice())?;
            Ok(es)
        }
    }
}
