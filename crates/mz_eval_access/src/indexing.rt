// The places of indices that are cells, in arrays of any index ranges.

ghost use Rattle.std.specs.Prelude.{◌≡◌, ◌∷◌, [], IfOk, map};
ghost use Rattle.std.specs.Option.{option_map};
ghost use Rattle.mz_operations.specs.Views.{as_element};
ghost use Rattle.mz_meaning.specs.Arrays as arrays;
ghost use Rattle.mz_meaning.specs.Cells.{value_of};
ghost use Rattle.mz_eval_cells.specs.Views.{cell_of, cells_of, item_content};
ghost use Rattle.mz_eval_access.specs.Places.{cell_index, placed};

use mz_eval_cells::{Item, Known};
use mz_index::place_in;
use std::alloc::{AllocError, Global};

#[tactic(auto, unfolding(mz_operations::specs::Views::as_element))]
fn index_of_item(i: &Item) -> Option<i64>
    ensures { result ≡ as_element (item_content i.now) }
{
    match i {
        Item::Bool(_) => None,
        Item::Int(n) => Some(*n),
        Item::Enum(_, k) => Some(*k),
        Item::Absent => None,
        Item::Set(_) => None,
        Item::Text(_) => None,
    }
}

/// The index that a cell is: a par integer or case.
#[tactic(auto, unfolding(mz_operations::specs::Views::as_element))]
fn index_of_cell(k: &Known) -> Option<i64>
    ensures { result ≡ cell_index (cell_of k.now) }
{
    match k {
        Known::One(i) => index_of_item(i),
        _ => None,
    }
}

/// The place of one index, without a list.
#[tactic(auto, using(crate::proofs::Indices::one_missing, crate::proofs::Indices::one_placed))]
fn place_of_one(ranges: &[(i64, i64)], i: &Known) -> Option<u64>
    ensures { result ≡ placed ranges.now (cell_of i.now ∷ []) }
{
    let n = index_of_cell(i)?;
    place_in(ranges, &[n])
}

/// The place of two indices, without a list.
#[tactic(auto, using(crate::proofs::Indices::first_missing, crate::proofs::Indices::second_missing, crate::proofs::Indices::two_placed))]
fn place_of_two(ranges: &[(i64, i64)], i: &Known, j: &Known) -> Option<u64>
    ensures { result ≡ placed ranges.now (cell_of i.now ∷ cell_of j.now ∷ []) }
{
    let n = index_of_cell(i)?;
    let m = index_of_cell(j)?;
    place_in(ranges, &[n, m])
}

/// The indices that cells are; `None` where one is no index.
fn indices_of(alloc: Global, at: &[Known]) -> Result<Option<Vec<i64>>, AllocError>
    ensures { IfOk result (λ is. option_map (λ v. v.items) is ≡ arrays.indices_in (map value_of (cells_of at.now))) }
{
    let mut all = Vec::new(alloc);
    for k in at {
        let Some(n) = index_of_cell(k) else {
            return Ok(None);
        };
        all.push(n)?;
    }
    Ok(Some(all))
}

#[tactic(auto, using(crate::proofs::Indices::none_placed, crate::proofs::Indices::all_placed))]
fn place_of_all(
    alloc: Global,
    ranges: &[(i64, i64)],
    at: &[Known],
) -> Result<Option<u64>, AllocError>
    ensures { IfOk result (λ p. p ≡ placed ranges.now (cells_of at.now)) }
{
    match indices_of(alloc, at)? {
        None => Ok(None),
        Some(indices) => Ok(place_in(ranges, &indices)),
    }
}

/// The place of these indices, from 0, where the last index runs fastest, or the greatest `u64`
/// where it is greater; `None` where one is undefined or lies outside its range.
pub fn place_of(
    alloc: Global,
    ranges: &[(i64, i64)],
    at: &[Known],
) -> Result<Option<u64>, AllocError>
    ensures { IfOk result (λ p. p ≡ placed ranges.now (cells_of at.now)) }
{
    match at {
        [] => place_of_all(alloc, ranges, at),
        [i, more @ ..] => match more {
            [] => Ok(place_of_one(ranges, i)),
            [j, others @ ..] => if others.is_empty() {
                Ok(place_of_two(ranges, i, j))
            } else {
                place_of_all(alloc, ranges, at)
            },
        },
    }
}
