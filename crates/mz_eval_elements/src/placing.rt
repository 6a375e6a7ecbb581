// The place that par indices have in a var array.

ghost use Rattle.std.specs.Prelude.{◌≡◌, IfOk, map};
ghost use Rattle.std.specs.Option.{option_and_then};
ghost use Rattle.mz_index.specs.Places as places;
ghost use Rattle.mz_meaning.specs.Arrays as arrays;
ghost use Rattle.mz_meaning.specs.Cells.{value_of};
ghost use Rattle.mz_eval_cells.specs.Views.{cells_of};

use mz_eval_access::place_of;
use mz_eval_cells::Known;
use std::alloc::{AllocError, Global};

/// The place, from 0, of par indices in an array of these ranges; none where one is undefined or lies
/// outside. Out of memory of a place that no array has.
#[tactic(auto, using(crate::proofs::PlaceLaws::nowhere, crate::proofs::PlaceLaws::uncapped))]
pub(crate) fn place_at(
    alloc: Global,
    ranges: &[(i64, i64)],
    at: &[Known],
) -> Result<Option<u64>, AllocError>
    ensures { IfOk result (λ p. option_and_then (places.place_of ranges.now) (arrays.indices_in (map value_of (cells_of at.now))) ≡ p) }
{
    let capped = place_of(alloc, ranges, at)?;
    match capped {
        None => Ok(None),
        Some(n) => if n < u64::MAX {
            Ok(Some(n))
        } else {
            Err(AllocError)
        },
    }
}
