// The index ranges that are declared, and how many places they have.

ghost use Rattle.std.specs.Prelude.{◌≡◌, ◌^◌, ◌≤◌, IfOk, min, slice_get, unwrap_or, []};
ghost use Rattle.mz_value.specs.Ranges.{cardinality, range_of};
ghost use Rattle.mz_operations.specs.Arrays as operations;
ghost use Rattle.mz_meaning.specs.Arrays as arrays;
ghost use Rattle.mz_eval_cells.specs.Views.{cell_of};
ghost use Rattle.mz_builtin_values.specs.Shapes.{cap};
ghost use Rattle.mz_eval_declared.specs.Wants.{wanted, wants_of};

use crate::want::Want;
use mz_builtin_arguments::end_of;
use mz_eval_cells::{Known, index_of};
use mz_operations::Side;
use mz_value::RangeSet;
use std::alloc::{AllocError, Global};

/// A set as an index range, 1..0 where it is empty.
fn index_range(s: &RangeSet) -> (i64, i64)
    ensures { result ≡ operations.index_range s.now }
{
    let lo = end_of(Side::Least, s);
    let hi = end_of(Side::Greatest, s);
    (lo.unwrap_or(1), hi.unwrap_or(0))
}

/// The declared range, or the value's own.
#[tactic(auto, using(crate::proofs::Ranging::own_is))]
fn range_for(w: &Want, own: Option<(i64, i64)>) -> (i64, i64)
    ensures { result ≡ arrays.range_for (wanted w.now) own }
{
    match w {
        Want::Anything => own.unwrap_or((1, 0)),
        Want::Missing => (1, 0),
        Want::Within(s) => index_range(s),
    }
}

/// The range at a place.
fn range_at(rs: &[(i64, i64)], place: usize) -> Option<(i64, i64)>
    ensures { result ≡ slice_get rs.now place }
{
    if place < rs.len() {
        Some(rs[place])
    } else {
        None
    }
}

/// The declared index ranges of a value with these: its own for an index `int`.
pub(crate) fn declared_ranges(
    alloc: Global,
    ws: &[Want],
    own: &[(i64, i64)],
) -> Result<Vec<(i64, i64)>, AllocError>
    ensures { IfOk result (λ rs. rs.items ≡ arrays.declared_ranges (wants_of ws.now) own.now) }
{
    let mut ranges = Vec::new(alloc);
    for k in 0..ws.len() {
        ranges.push(range_for(&ws[k], range_at(own, k)))?;
    }
    Ok(ranges)
}

/// The value's own index ranges; none of what is no array.
pub(crate) fn own_ranges(k: &Known) -> &[(i64, i64)]
    ensures { result.now ≡ arrays.own_ranges (cell_of k.now) }
{
    match index_of(k) {
        Some(ranges) => ranges,
        None => &[],
    }
}

/// How many integers an index range has.
fn places(r: (i64, i64)) -> u128
    ensures value { result ≡ cardinality (range_of r.0 r.1) }
    ensures bound { result ≤ 2 ^ 64 }
{
    if r.0 <= r.1 {
        (r.1 as i128 - r.0 as i128) as u128 + 1
    } else {
        0
    }
}

/// More places than any array has.
const MANY_PLACES: u128 = 1 << 63;

fn place_total(ranges: &[(i64, i64)]) -> u128
    ensures value { min cap result ≡ min cap (operations.place_count ranges.now) }
    ensures bound { result ≤ cap }
{
    let mut total = 1;
    for r in ranges {
        let size = places(*r);
        total = MANY_PLACES.min(total * size);
    }
    total
}

/// How many places index ranges have, 2^63 where they have more.
pub(crate) fn place_count(ranges: &[(i64, i64)]) -> u64
    ensures value { min cap result ≡ min cap (operations.place_count ranges.now) }
    ensures bound { result ≤ cap }
{
    place_total(ranges) as u64
}

/// How many elements an array of declared index sets has where its value is this, 2^63 where it has
/// more; 0 where no index sets are declared. A declaration without a value goes by `undefined()`.
pub fn declared_count(alloc: Global, ws: &[Want], k: &Known) -> Result<u64, AllocError>
    ensures { IfOk result (λ n. min cap n ≡ min cap (arrays.declared_count (wants_of ws.now) (cell_of k.now))) }
{
    match ws {
        [] => Ok(0),
        [_, ..] => counted(alloc, ws, k),
    }
}

fn counted(alloc: Global, ws: &[Want], k: &Known) -> Result<u64, AllocError>
    ensures { IfOk result (λ n. min cap n ≡ min cap (operations.place_count (arrays.declared_ranges (wants_of ws.now) (arrays.own_ranges (cell_of k.now))))) }
{
    let ranges = declared_ranges(alloc, ws, own_ranges(k))?;
    Ok(place_count(ranges.as_slice()))
}
