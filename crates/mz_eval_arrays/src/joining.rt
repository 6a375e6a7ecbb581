// The values and the bounds of several cells.

ghost use Rattle.std.specs.Prelude.{◌≡◌, ◌∷◌, ◌<◌, ◌^◌, [], IfOk, map, pos};
ghost use Rattle.std.specs.Option.{option_map};
ghost use Rattle.mz_value.specs.Contents.{content};
ghost use Rattle.mz_meaning.specs.Arrays as arrays;
ghost use Rattle.mz_meaning.specs.Cells.{bounds_in, scalar_bound, value_of};
ghost use Rattle.mz_eval_cells.specs.Views.{cells_of, known_bound};
ghost use Rattle.mz_eval_arrays.specs.StepsJoining.{values_from};

use mz_eval_cells::{Bound, Known, copied_value, scalar_bound};
use mz_value::Value;
use std::alloc::{AllocError, Global};

#[tactic(auto, unfolding(crate::specs::StepsJoining::values_from))]
fn values_of(alloc: Global, cells: &[Known]) -> Result<Option<Vec<Value>>, AllocError>
    ensures { IfOk result (λ v. option_map (λ xs. map content xs.items) v ≡ values_from [] (map value_of (cells_of cells.now))) }
{
    let mut all = Vec::new(alloc);
    for k in cells {
        match copied_value(alloc, k)? {
            None => return Ok(None),
            Some(v) => all.push(v)?,
        }
    }
    Ok(Some(all))
}

/// The cells' values, where each has one.
#[tactic(auto, using(crate::proofs::ValueLists::all_from_nothing))]
pub(crate) fn all_values(alloc: Global, cells: &[Known]) -> Result<Option<Vec<Value>>, AllocError>
    ensures { IfOk result (λ v. option_map (λ xs. map content xs.items) v ≡ arrays.all_there (map value_of (cells_of cells.now))) }
{
    values_of(alloc, cells)
}

/// The bounds of each cell, of which none is an array.
pub(crate) fn cell_bounds(alloc: Global, cells: &[Known]) -> Result<Vec<Bound>, AllocError>
    ensures { IfOk result (λ v. map known_bound v.items ≡ map (λ c. scalar_bound (bounds_in c)) (cells_of cells.now)) }
{
    let mut all = Vec::new(alloc);
    for k in cells {
        let b = scalar_bound(alloc, k)?;
        all.push(b)?;
    }
    Ok(all)
}

/// The index range 1..n.
pub(crate) fn from_one(alloc: Global, n: usize) -> Result<Vec<(i64, i64)>, AllocError>
    requires { n < 2 ^ 63 }
    ensures { IfOk result (λ v. v.items ≡ (pos 1, pos n) ∷ []) }
{
    let mut index = Vec::new(alloc);
    index.push((1, n as i64))?;
    Ok(index)
}
