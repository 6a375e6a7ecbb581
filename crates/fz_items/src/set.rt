// Sets of an item.

ghost use Rattle.std.specs.Prelude.{◌≡◌, ◌<◌, IsTrue, length, Some, All};
ghost use Rattle.std.specs.List.{list_all};
ghost use Rattle.mz_value.specs.Ranges.{IsInLimit};
ghost use Rattle.fz_items.specs.Items.{after, interval, interval_at, ints_at, listed, filled_at, braces_at, set_at, is_in_limit};
ghost use Rattle.fz_items.specs.Gives.{Gives, with_rest};

use crate::miss::Miss;
use crate::token::{after, expect, int};
use mz_value::{GREATEST, LEAST, RangeSet};
use std::alloc::Global;

fn is_in_limit(n: i64) -> bool
    ensures { result ≡ is_in_limit n }
{
    LEAST <= n && n <= GREATEST
}

/// The integers from `lo` to `hi`.
fn interval(alloc: Global, lo: i64, hi: i64) -> Result<RangeSet, Miss>
    ensures { Gives (λ s. s) result (interval lo hi) }
{
    if hi < lo {
        return Ok(RangeSet::range(alloc, 1, 0)?);
    }
    if is_in_limit(lo) && is_in_limit(hi) {
        Ok(RangeSet::range(alloc, lo, hi)?)
    } else {
        Err(Miss::Unfit)
    }
}

/// `int .. int`
#[tactic(auto, unfolding(crate::specs::Items::interval_at))]
fn interval_of(alloc: Global, bytes: &[u8]) -> Result<(RangeSet, &[u8]), Miss>
    ensures { Gives (with_rest (λ s. s)) result (interval_at bytes.now) }
{
    let (lo, rest) = int(bytes)?;
    let rest = expect(b"..", rest)?;
    let (hi, rest) = int(rest)?;
    Ok((interval(alloc, lo, hi)?, rest))
}

/// Integers with commas between them.
fn ints(alloc: Global, bytes: &[u8]) -> Result<(Vec<i64>, &[u8]), Miss>
    ensures { Gives (with_rest (λ v. v.items)) result (ints_at (length bytes.now) bytes.now) }
{
    let mut items = Vec::new(alloc);
    let mut rest = bytes;
    'items: loop {
        let (x, behind) = match int(rest) {
            Ok(read) => read,
            Err(miss) => return Err(miss),
        };
        items.push(x)?;
        match after(b",", behind) {
            Some(next) => rest = next,
            None => return Ok((items, behind)),
        }
    }
}

fn are_in_limit(items: &[i64]) -> bool
    ensures value { result ≡ list_all is_in_limit items.now }
    ensures each { IsTrue result → All IsInLimit items.now }
{
    items.iter().all(|x| is_in_limit(*x))
}

/// The set of some integers.
fn listed(alloc: Global, items: &[i64]) -> Result<RangeSet, Miss>
    ensures { Gives (λ s. s) result (listed items.now) }
{
    if !are_in_limit(items) {
        return Err(Miss::Unfit);
    }
    Ok(RangeSet::of(alloc, items)?)
}

/// Integers and the closing brace.
#[tactic(auto, unfolding(crate::specs::Items::filled_at))]
fn filled(alloc: Global, bytes: &[u8]) -> Result<(RangeSet, &[u8]), Miss>
    ensures { Gives (with_rest (λ s. s)) result (filled_at bytes.now) }
{
    let (items, rest) = ints(alloc, bytes)?;
    let rest = expect(b"}", rest)?;
    Ok((listed(alloc, &items)?, rest))
}

/// What follows an opening brace.
#[tactic(auto, unfolding(crate::specs::Items::braces_at))]
fn braces(alloc: Global, bytes: &[u8]) -> Result<(RangeSet, &[u8]), Miss>
    ensures { Gives (with_rest (λ s. s)) result (braces_at bytes.now) }
{
    match after(b"}", bytes) {
        Some(rest) => Ok((RangeSet::range(alloc, 1, 0)?, rest)),
        None => filled(alloc, bytes),
    }
}

/// A set.
#[tactic(auto, unfolding(crate::specs::Items::set_at))]
pub(crate) fn set(alloc: Global, bytes: &[u8]) -> Result<(RangeSet, &[u8]), Miss>
    ensures { Gives (with_rest (λ s. s)) result (set_at bytes.now) }
{
    match after(b"{", bytes) {
        Some(rest) => braces(alloc, rest),
        None => interval_of(alloc, bytes),
    }
}
