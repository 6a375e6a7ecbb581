// The place that an access reads: of one index without a test whether it is inside, of more with one
// for each.

ghost use Rattle.std.specs.Prelude.{◌≡◌, ◌∷◌, [], IfOk, length, true};
ghost use Rattle.mz_index.specs.Places.{count_of};
ghost use Rattle.mz_symbol.specs.Readings.{Reading, Reads};
ghost use Rattle.mz_symbol.specs.Makes.{GoesOnBy};
ghost use Rattle.mz_symbol_access.specs.AccessValues.{place_charge};
ghost use Rattle.mz_symbol_access.specs.StepsPlace.{AreIndices};
ghost use Rattle.mz_symbol_access.specs.StepsAlone.{Reaches};

use crate::alone::alone_node;
use crate::place::{is_index, place_node};
use mz_arena::Id;
use mz_base::Memory;
use mz_index::count_in;
use mz_symbol::{Run, Symbol};

/// Whether ranges have so many places.
pub(crate) fn has_count(ranges: &[(i64, i64)], count: u64) -> bool
    ensures { result ≡ true → count_of ranges.now ≡ count }
{
    if count == u64::MAX {
        false
    } else {
        count_in(ranges) == count
    }
}

/// The only index.
fn only_index(indices: &[Symbol]) -> Symbol
    requires { length indices.now ≡ 1 }
    ensures { indices.now ≡ result ∷ [] }
{
    indices[0]
}

/// The place of the only index.
fn only(run: &mut Run, range: &(i64, i64), indices: &[Symbol]) -> Result<Id, Memory>
    requires { length indices.now ≡ 1 }
    ensures goes { GoesOnBy 32 run.old run.new }
    ensures indices { IfOk result (λ _. AreIndices indices.now) }
    ensures reaches { IfOk result (λ id. (r : Reading) → Reads r run.new → Reaches r run.old run.new (range.now ∷ []) indices.now id) }
{
    let index = only_index(indices);
    if !is_index(index) {
        return Err(Memory);
    }
    let id = alone_node(run, range, index.term)?;
    Ok(id)
}

/// The place of the only index in the only range.
fn only_place(run: &mut Run, ranges: &[(i64, i64)], indices: &[Symbol]) -> Result<Id, Memory>
    requires { length indices.now ≡ 1 }
    ensures goes { GoesOnBy 32 run.old run.new }
    ensures indices { IfOk result (λ _. AreIndices indices.now) }
    ensures reaches { IfOk result (λ id. (r : Reading) → Reads r run.new → Reaches r run.old run.new ranges.now indices.now id) }
{
    match ranges {
        [] => Err(Memory),
        [range, rest @ ..] => {
            if !rest.is_empty() {
                return Err(Memory);
            }
            let id = only(run, range, indices)?;
            Ok(id)
        }
    }
}

/// The place, from 1, where the indices lie in their ranges, and else none of an element.
#[tactic(auto, using(mz_symbol_rows::proofs::GoingOn::goes_most))]
pub(crate) fn reached_node(
    run: &mut Run,
    ranges: &[(i64, i64)],
    indices: &[Symbol],
) -> Result<Id, Memory>
    ensures goes { GoesOnBy (place_charge (length indices.now)) run.old run.new }
    ensures indices { IfOk result (λ _. AreIndices indices.now) }
    ensures reaches { IfOk result (λ id. (r : Reading) → Reads r run.new → Reaches r run.old run.new ranges.now indices.now id) }
{
    if indices.len() == 1 {
        only_place(run, ranges, indices)
    } else {
        match place_node(run, ranges, indices) {
            Ok(id) => Ok(id),
            Err(_) => Err(Memory),
        }
    }
}
