// Index sets that are given to arrays.

ghost use Rattle.std.specs.Prelude.{◌≡◌, ◌&&◌, ◌^◌, ◌<◌, ◌≤◌, IfOk, min};
ghost use Rattle.std.specs.Option.{option_map};
ghost use Rattle.mz_value.specs.Ranges.{cardinality, range_of};
ghost use Rattle.mz_operations.specs.Arguments.{arguments};
ghost use Rattle.mz_operations.specs.Arrays as arrays;
ghost use Rattle.mz_builtin_values.specs.Shapes.{cap, shape_of};

use crate::building::IndexShape;
use mz_builtin_arguments::{end_of, set_at};
use mz_operations::Side;
use mz_value::{RangeSet, Value};
use std::alloc::{AllocError, Global};

/// A set as an index range, 1..0 where it is empty.
fn index_range(s: &RangeSet) -> (i64, i64)
    ensures { result ≡ arrays.index_range s.now }
{
    let lo = end_of(Side::Least, s);
    let hi = end_of(Side::Greatest, s);
    (lo.unwrap_or(1), hi.unwrap_or(0))
}

/// Whether a set is one range, or empty.
fn is_contiguous(s: &RangeSet) -> bool
    ensures { result ≡ arrays.is_contiguous s.now }
{
    s.ranges().len() <= 1
}

fn both(a: bool, b: bool) -> bool
    ensures { result ≡ (a && b) }
{
    a && b
}

/// Index ranges with one more.
#[tactic(auto, unfolding(mz_operations::specs::Arrays::with_index))]
fn with_index(mut w: IndexShape, s: &RangeSet) -> Result<IndexShape, AllocError>
    ensures { IfOk result (λ t. shape_of t ≡ arrays.with_index (shape_of w) s.now) }
{
    let contiguous = both(w.contiguous, is_contiguous(s));
    w.ranges.push(index_range(s))?;
    Ok(IndexShape {
        contiguous,
        ranges: w.ranges,
    })
}

/// The first `d` arguments as index sets; `None` where one is none.
pub fn shape(
    alloc: Global,
    d: u64,
    args: &[Option<Value>],
) -> Result<Option<IndexShape>, AllocError>
    ensures { IfOk result (λ w. option_map shape_of w ≡ arrays.shape d (arguments args.now)) }
{
    let mut w = IndexShape {
        contiguous: true,
        ranges: Vec::new(alloc),
    };
    let mut k = 0;
    while k < d {
        let Some(s) = set_at(args, k as usize) else {
            return Ok(None);
        };
        w = with_index(w, s)?;
        k += 1;
    }
    Ok(Some(w))
}

/// How many integers an index range has.
fn places(r: (i64, i64)) -> u128
    ensures value { result ≡ cardinality (range_of r.0 r.1) }
    ensures bound { result ≤ 2 ^ 64 }
{
    if r.0 <= r.1 {
        (r.1 as i128 - r.0 as i128) as u128 + 1
    } else {
        0
    }
}

/// More places than any array has.
const MANY_PLACES: u128 = 1 << 63;

/// How many places index ranges have, where these are no more than `MANY_PLACES`.
fn place_total(ranges: &[(i64, i64)]) -> u128
    ensures value { min cap result ≡ min cap (arrays.place_count ranges.now) }
    ensures bound { result ≤ cap }
{
    let mut total = 1;
    for r in ranges {
        let size = places(*r);
        total = MANY_PLACES.min(total * size);
    }
    total
}

/// Whether index sets are contiguous and have this many places.
#[tactic(auto, using(crate::proofs::Places::same_test))]
pub fn fits(w: &IndexShape, n: u64) -> bool
    requires { n < 2 ^ 63 }
    ensures { result ≡ arrays.is_shape_of (shape_of w.now) n }
{
    let total = place_total(&w.ranges);
    both(w.contiguous, total == n as u128)
}
