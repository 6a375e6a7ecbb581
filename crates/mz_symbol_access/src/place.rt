// The place of an access in row order, over the terms of its indices.

ghost use Rattle.std.specs.Prelude.{◌≡◌, ◌*◌, [], length, pos, false, true, IfOk, Some};
ghost use Rattle.mz_index.specs.Places.{count_of};
ghost use Rattle.mz_arena.specs.Values.{as_number, number};
ghost use Rattle.mz_meaning.specs.Runs.{give};
ghost use Rattle.mz_symbol.specs.Makes.{GoesOnBy, Means};
ghost use Rattle.mz_symbol_access.specs.StepsPlace.{AreIndices, IsIndex, joined_term, offset_in, place_term, places_of};

use crate::nodes::{integer, made};
use crate::shift::offset_node;
use mz_arena::{Id, NodeKind};
use mz_base::Stop;
use mz_core::Base;
use mz_index::count_in;
use mz_symbol::{Run, Symbol};

/// Whether this is an integer or a case, and no option.
pub(crate) fn is_index(s: Symbol) -> bool
    ensures { result ≡ true → IsIndex s }
{
    if s.occurs.is_some() {
        return false;
    }
    match s.base {
        Base::Int => true,
        Base::Enum(_) => true,
        _ => false,
    }
}

/// How many places ranges have.
pub(crate) fn size_node(run: &mut Run, ranges: &[(i64, i64)]) -> Result<Id, Stop>
    ensures goes { GoesOnBy 0 run.old run.new }
    ensures means { Means (λ r. r.term) result run.old run.new (λ _. give (Some (number (pos (count_of ranges.now))))) }
{
    let count = count_in(ranges);
    if count > i64::MAX as u64 {
        return Err(Stop::Memory);
    }
    let id = integer(run, count as i64)?;
    Ok(id)
}

/// A place among rows, from the row's number and the place in the row.
#[tactic(auto, using(mz_symbol_rows::proofs::GoingOn::goes_both, mz_symbol_rows::proofs::GoingOn::goes_most))]
fn joined_node(run: &mut Run, ranges: &[(i64, i64)], offset: Id, place: Id) -> Result<Id, Stop>
    ensures goes { GoesOnBy 8 run.old run.new }
    ensures means { Means (λ r. r.term) result run.old run.new (λ r. give (joined_term (count_of ranges.now) (r.term offset) (r.term place))) }
{
    let size = size_node(run, ranges)?;
    let before = made(run, NodeKind::Mul, offset, size)?;
    made(run, NodeKind::Add, before, place)
}

/// The place in the last dimension, from 1.
#[tactic(auto, using(mz_symbol_rows::proofs::GoingOn::goes_most))]
fn last_node(run: &mut Run, range: &(i64, i64), index: Symbol) -> Result<Id, Stop>
    ensures goes { GoesOnBy 90 run.old run.new }
    ensures means { Means (λ r. r.term) result run.old run.new (λ r. give (offset_in range.now true (as_number (r.term index.term)))) }
    ensures index { IfOk result (λ _. IsIndex index) }
{
    if !is_index(index) {
        return Err(Stop::Memory);
    }
    let id = offset_node(run, range, true, index.term)?;
    Ok(id)
}

/// A place from 1, with one dimension more before it.
#[tactic(auto, using(mz_symbol_rows::proofs::GoingOn::goes_both, mz_symbol_rows::proofs::GoingOn::goes_most))]
fn row_node(
    run: &mut Run,
    range: &(i64, i64),
    rest: &[(i64, i64)],
    index: Symbol,
    place: Id,
) -> Result<Id, Stop>
    ensures goes { GoesOnBy 90 run.old run.new }
    ensures means { Means (λ r. r.term) result run.old run.new (λ r. give (joined_term (count_of rest.now) (offset_in range.now false (as_number (r.term index.term))) (r.term place))) }
    ensures index { IfOk result (λ _. IsIndex index) }
{
    if !is_index(index) {
        return Err(Stop::Memory);
    }
    let offset = offset_node(run, range, false, index.term)?;
    let id = joined_node(run, rest, offset, place)?;
    Ok(id)
}

/// Whether no dimension is left, and no index.
fn is_last(rest: &[(i64, i64)], others: &[Symbol]) -> bool
    ensures ranges { result ≡ true → rest.now ≡ [] }
    ensures indices { result ≡ true → others.now ≡ [] }
{
    if rest.is_empty() {
        others.is_empty()
    } else {
        false
    }
}

/// The place, from 1, and undefined where an index lies outside its range.
#[tactic(auto, using(mz_symbol_rows::proofs::GoingOn::goes_both, mz_symbol_rows::proofs::GoingOn::goes_most, crate::proofs::PlaceLaws::place_row, crate::proofs::PlaceLaws::place_alone))]
pub(crate) fn place_node(
    run: &mut Run,
    ranges: &[(i64, i64)],
    indices: &[Symbol],
) -> Result<Id, Stop>
    ensures goes { GoesOnBy (90 * length indices.now) run.old run.new }
    ensures means { Means (λ r. r.term) result run.old run.new (λ r. give (place_term ranges.now (places_of r indices.now))) }
    ensures indices { IfOk result (λ _. AreIndices indices.now) }
{
    match ranges {
        [] => Err(Stop::Memory),
        [range, rest @ ..] => match indices {
            [] => Err(Stop::Memory),
            [index, others @ ..] => {
                if is_last(rest, others) {
                    let last = last_node(run, range, *index)?;
                    Ok(last)
                } else {
                    let place = place_node(run, rest, others)?;
                    let all = row_node(run, range, rest, *index, place)?;
                    Ok(all)
                }
            }
        },
    }
}
