// How sets are made from lists of ranges: each function goes along its lists once.

ghost use Rattle.std.specs.Prelude.{◌≡◌, ◌++◌, ◌↔◌, ◌∷◌, ◌≤ℤ◌, ◌+ℤ◌, pos, IfOk, OnOk, IsTrue, map};
ghost use Rattle.std.specs.Int.{int_max, int_min};
ghost use Rattle.mz_value.specs.Ranges.{AreCanonical, AreInLimit, Has, IsInLimit, cardinality, least, range_of, size};
ghost use Rattle.mz_value.specs.StepsWalks as walks;

use crate::range_set::{GREATEST, LEAST};
use std::alloc::{AllocError, Global};

/// Each integer as a range of its own.
pub(crate) fn singles(alloc: Global, items: &[i64]) -> Result<Vec<(i64, i64)>, AllocError>
    ensures { IfOk result (λ v. v.items ≡ map (λ x. (x, x)) items.now) }
{
    items.iter().map(|x| (*x, *x)).collect(alloc)
}

/// Two lists, each ascending by its ranges' least elements, as one such list.
pub(crate) fn merged(
    alloc: Global,
    a: &[(i64, i64)],
    b: &[(i64, i64)],
) -> Result<Vec<(i64, i64)>, AllocError>
    ensures { IfOk result (λ v. v.items ≡ walks.merged a.now b.now) }
{
    let mut all = Vec::with_capacity(alloc, a.len() + b.len())?;
    let mut i = 0;
    let mut j = 0;
    while i < a.len() && j < b.len() {
        if a[i].0 <= b[j].0 {
            all.push(a[i])?;
            i += 1;
        } else {
            all.push(b[j])?;
            j += 1;
        }
    }
    all.extend_from_slice(&a[i..])?;
    all.extend_from_slice(&b[j..])?;
    Ok(all)
}

/// Ranges that ascend by their least elements, with those joined that overlap or touch.
pub(crate) fn joined(alloc: Global, ranges: &[(i64, i64)]) -> Result<Vec<(i64, i64)>, AllocError>
    requires { AreInLimit ranges.now }
    ensures { IfOk result (λ v. v.items ≡ walks.joined ranges.now) }
{
    match ranges {
        [] => Ok(Vec::new(alloc)),
        [first, rest @ ..] => joined_from(alloc, *first, rest),
    }
}

fn joined_from(
    alloc: Global,
    first: (i64, i64),
    rest: &[(i64, i64)],
) -> Result<Vec<(i64, i64)>, AllocError>
    requires { AreInLimit (first ∷ rest.now) }
    ensures { IfOk result (λ v. v.items ≡ walks.joined_from first rest.now) }
{
    let mut all = Vec::with_capacity(alloc, rest.len() + 1)?;
    let mut last = first;
    for next in rest {
        if touches(last, *next) {
            last = grown(last, *next);
        } else {
            all.push(last)?;
            last = *next;
        }
    }
    all.push(last)?;
    Ok(all)
}

/// Whether a range that begins no lower than `r` overlaps or touches it.
fn touches(r: (i64, i64), next: (i64, i64)) -> bool
    requires { IsInLimit r.1 }
    ensures { IsTrue result ↔ (next.0 ≤ℤ (r.1 +ℤ pos 1)) }
{
    next.0 <= r.1 + 1
}

/// A range, grown over one that overlaps or touches it and begins no lower.
fn grown(r: (i64, i64), next: (i64, i64)) -> (i64, i64)
    ensures { result ≡ (r.0, int_max r.1 next.1) }
{
    (r.0, r.1.max(next.1))
}

/// What two lists have in common.
pub(crate) fn common(
    alloc: Global,
    a: &[(i64, i64)],
    b: &[(i64, i64)],
) -> Result<Vec<(i64, i64)>, AllocError>
    ensures { IfOk result (λ v. v.items ≡ walks.common a.now b.now) }
{
    let mut all = Vec::with_capacity(alloc, a.len() + b.len())?;
    let mut i = 0;
    let mut j = 0;
    while i < a.len() && j < b.len() {
        push_overlap(&mut all, a[i], b[j])?;
        if a[i].1 < b[j].1 {
            i += 1;
        } else {
            j += 1;
        }
    }
    Ok(all)
}

/// The integers of the limit that no range has.
pub(crate) fn gaps(alloc: Global, ranges: &[(i64, i64)]) -> Result<Vec<(i64, i64)>, AllocError>
    requires { AreInLimit ranges.now }
    ensures { IfOk result (λ v. v.items ≡ walks.gaps least ranges.now) }
{
    let mut all = Vec::with_capacity(alloc, ranges.len() + 1)?;
    let mut lo = LEAST;
    for r in ranges {
        push_range(&mut all, lo, r.0 - 1)?;
        lo = r.1 + 1;
    }
    push_range(&mut all, lo, GREATEST)?;
    Ok(all)
}

/// Appends what two ranges have in common.
fn push_overlap(all: &mut Vec<(i64, i64)>, r: (i64, i64), s: (i64, i64)) -> Result<(), AllocError>
    ensures { OnOk result (all.new.items
        ≡ all.old.items ++ range_of (int_max r.0 s.0) (int_min r.1 s.1)) }
{
    push_range(all, r.0.max(s.0), r.1.min(s.1))
}

/// Appends a range where it isn't empty.
fn push_range(all: &mut Vec<(i64, i64)>, lo: i64, hi: i64) -> Result<(), AllocError>
    ensures { OnOk result (all.new.items ≡ all.old.items ++ range_of lo hi) }
{
    if lo <= hi {
        all.push((lo, hi))?;
    }
    Ok(())
}

/// Whether one of the ranges has `x`.
pub(crate) fn has(ranges: &[(i64, i64)], x: i64) -> bool
    requires { AreCanonical ranges.now }
    ensures { IsTrue result ↔ Has ranges.now x }
{
    let (front, back) = ranges.split_at(ranges.len() / 2);
    match back {
        [] => false,
        [r, behind @ ..] => {
            if x < r.0 {
                has(front, x)
            } else if r.1 < x {
                has(behind, x)
            } else {
                true
            }
        }
    }
}

/// How many integers the ranges have.
pub(crate) fn cardinality(ranges: &[(i64, i64)]) -> u64
    requires canonical { AreCanonical ranges.now }
    requires limits { AreInLimit ranges.now }
    ensures { result ≡ cardinality ranges.now }
{
    let mut total = 0;
    for r in ranges {
        total += size(*r);
    }
    total
}

fn size(r: (i64, i64)) -> u64
    requires not_empty { r.0 ≤ℤ r.1 }
    requires low { IsInLimit r.0 }
    requires high { IsInLimit r.1 }
    ensures { result ≡ size r }
{
    (r.1 - r.0) as u64 + 1
}
