// The elements of an array that indices with bounds reach.

ghost use Rattle.std.specs.Prelude.{◌≡◌, ◌*◌, ◌++◌, [], ℕ, IfOk, drop, map, min, take, true};
ghost use Rattle.std.specs.Int.{int_max, int_min};
ghost use Rattle.mz_value.specs.Contents.{content};
ghost use Rattle.mz_index.specs.Places as places;
ghost use Rattle.mz_index.specs.Places.{most};
ghost use Rattle.mz_operations.specs.Bounds as bounds;
ghost use Rattle.mz_eval_cells.specs.Views.{known_bound};
ghost use Rattle.mz_eval_access.specs.Places.{places_of};
ghost use Rattle.mz_eval_access.specs.StepsPlaces.{reach, steps_between, swept, swept_over};

use mz_eval_cells::{Bound, bound_of, share_bound};
use mz_index::{capped, count_in, length_of};
use mz_value::Value;
use std::alloc::{AllocError, Global};

/// An array's elements, of which the bounds are asked for: values, or bounds.
#[derive(Clone, Copy)]
pub(crate) enum Places<'a> {
    Items(&'a [Value]),
    Bounds(&'a [Bound]),
}

fn values_after(xs: &[Value], n: u64) -> &[Value]
    ensures { (m : ℕ) → n ≡ min most m → result.now ≡ drop m xs.now }
{
    if n < xs.len() as u64 {
        &xs[n as usize..]
    } else {
        &xs[xs.len()..]
    }
}

fn bounds_after(xs: &[Bound], n: u64) -> &[Bound]
    ensures { (m : ℕ) → n ≡ min most m → result.now ≡ drop m xs.now }
{
    if n < xs.len() as u64 {
        &xs[n as usize..]
    } else {
        &xs[xs.len()..]
    }
}

/// The elements from a place on, told as at most the greatest `u64`.
fn after<'a>(p: Places<'a>, n: u64) -> Places<'a>
    ensures { (m : ℕ) → n ≡ min most m → places_of result ≡ drop m (places_of p.entry) }
{
    match p {
        Places::Items(xs) => Places::Items(values_after(xs, n)),
        Places::Bounds(bs) => Places::Bounds(bounds_after(bs, n)),
    }
}

fn has_none(p: Places<'_>) -> bool
    ensures { result ≡ true → places_of p.entry ≡ [] }
{
    match p {
        Places::Items(xs) => xs.is_empty(),
        Places::Bounds(bs) => bs.is_empty(),
    }
}

fn with_value(alloc: Global, xs: &[Value], mut out: Vec<Bound>) -> Result<Vec<Bound>, AllocError>
    ensures { IfOk result (λ all. map known_bound all.items ≡ map known_bound out.items ++ take 1 (map bounds.bound_of (map content xs.now))) }
{
    match xs {
        [] => Ok(out),
        [v, ..] => {
            let b = bound_of(alloc, v)?;
            out.push(b)?;
            Ok(out)
        }
    }
}

fn with_bound(bs: &[Bound], mut out: Vec<Bound>) -> Result<Vec<Bound>, AllocError>
    ensures { IfOk result (λ all. map known_bound all.items ≡ map known_bound out.items ++ take 1 (map known_bound bs.now)) }
{
    match bs {
        [] => Ok(out),
        [b, ..] => {
            let same = share_bound(b)?;
            out.push(same)?;
            Ok(out)
        }
    }
}

/// With the first of the elements, if there is one.
fn with_first(alloc: Global, p: Places<'_>, out: Vec<Bound>) -> Result<Vec<Bound>, AllocError>
    ensures { IfOk result (λ all. map known_bound all.items ≡ map known_bound out.items ++ take 1 (places_of p.entry)) }
{
    match p {
        Places::Items(xs) => with_value(alloc, xs, out),
        Places::Bounds(bs) => with_bound(bs, out),
    }
}

/// How far an index is past another, `0` where it is before it.
pub(crate) fn distance(lo: i64, i: i64) -> u64
    ensures { result ≡ steps_between lo i }
{
    if lo <= i { i.abs_diff(lo) } else { 0 }
}

/// The elements from those of an index on, where each index has this many.
fn from_index<'a>(p: Places<'a>, lo: i64, i: i64, each: u64) -> Places<'a>
    ensures { (c : ℕ) → each ≡ min most c → places_of result ≡ drop (steps_between lo i * c) (places_of p.entry) }
{
    let n = distance(lo, i) as u128 * each as u128;
    after(p, capped(n))
}

/// The indices of a range that bounds reach.
fn overlap(r: (i64, i64), e: (i64, i64)) -> (i64, i64)
    ensures { result ≡ (int_max r.0 e.0, int_min r.1 e.1) }
{
    (r.0.max(e.0), r.1.min(e.1))
}

/// With the bounds of the elements that indices of these bounds reach, in their order.
#[cycle(reaching)]
#[tactic(auto, unfolding(crate::specs::StepsPlaces::reach), using(crate::proofs::Reached::nothing_more))]
pub(crate) fn with_reached(
    alloc: Global,
    ranges: &[(i64, i64)],
    ends: &[(i64, i64)],
    p: Places<'_>,
    out: Vec<Bound>,
) -> Result<Vec<Bound>, AllocError>
    ensures { IfOk result (λ all. map known_bound all.items ≡ map known_bound out.items ++ reach ranges.now ends.now (places_of p.entry)) }
{
    if has_none(p) {
        return Ok(out);
    }
    match ranges {
        [] => if ends.is_empty() {
            with_first(alloc, p, out)
        } else {
            Ok(out)
        },
        [r, more_ranges @ ..] => match ends {
            [] => Ok(out),
            [e, more_ends @ ..] => with_swept(alloc, *r, *e, more_ranges, more_ends, p, out),
        },
    }
}

/// The same where the first index runs over this range.
#[cycle(reaching)]
fn with_swept(
    alloc: Global,
    r: (i64, i64),
    e: (i64, i64),
    ranges: &[(i64, i64)],
    ends: &[(i64, i64)],
    p: Places<'_>,
    out: Vec<Bound>,
) -> Result<Vec<Bound>, AllocError>
    ensures { IfOk result (λ all. map known_bound all.items ≡ map known_bound out.items ++ swept_over r e ranges.now ends.now (places_of p.entry)) }
{
    let each = count_in(ranges);
    let reached = overlap(r, e);
    let mut rest = from_index(p, r.0, reached.0, each);
    let mut all = out;
    let mut left = length_of(&reached);
    while left > 0 {
        all = with_reached(alloc, ranges, ends, rest, all)?;
        rest = after(rest, each);
        left -= 1;
    }
    Ok(all)
}
