// Lists of parts with commas between them, and sets.

ghost use Rattle.std.specs.Prelude.{◌≡◌, IsTrue, codes, All};
ghost use Rattle.std.specs.List.{list_all};
ghost use Rattle.mz_value.specs.Ranges.{IsInLimit};
ghost use Rattle.fz_items.specs.Gives.{Gives, with_rest};
ghost use Rattle.fz_items.specs.Items.{interval, is_in_limit, listed};
ghost use Rattle.fz_text_read.specs.Tokens.{interval_at, interval_from, number_at, range_at};
ghost use Rattle.fz_text_read.specs.Lists.{braces_at, filled_at, set_at};

use crate::parts::{Part, filled};
use crate::token::{behind, expect, number, range};
use fz_items::Miss;
use mz_value::{GREATEST, LEAST, RangeSet};
use std::alloc::Global;

fn is_in_limit(n: i64) -> bool
    ensures { result ≡ is_in_limit n }
{
    LEAST <= n && n <= GREATEST
}

/// The integers from `low` to `high`.
fn interval(alloc: Global, low: i64, high: i64) -> Result<RangeSet, Miss>
    ensures { Gives (λ s. s) result (interval low high) }
{
    if high < low {
        return Ok(RangeSet::range(alloc, 1, 0)?);
    }
    if is_in_limit(low) && is_in_limit(high) {
        Ok(RangeSet::range(alloc, low, high)?)
    } else {
        Err(Miss::Unfit)
    }
}

/// The set from `low` to the number that stands first.
#[tactic(auto, unfolding(crate::specs::Tokens::interval_from))]
pub(crate) fn interval_from(
    alloc: Global,
    low: i64,
    bytes: &[u8],
) -> Result<(RangeSet, &[u8]), Miss>
    ensures { Gives (with_rest (λ s. s)) result (interval_from low bytes.now) }
{
    let (high, rest) = given!(number(bytes));
    let s = given!(interval(alloc, low, high));
    Ok((s, rest))
}

/// `l..u`
#[tactic(auto, unfolding(crate::specs::Tokens::interval_at))]
fn interval_of(alloc: Global, bytes: &[u8]) -> Result<(RangeSet, &[u8]), Miss>
    ensures { Gives (with_rest (λ s. s)) result (interval_at bytes.now) }
{
    let (low, rest) = given!(number(bytes));
    let rest = given!(expect(b"..", rest));
    interval_from(alloc, low, rest)
}

fn are_in_limit(items: &[i64]) -> bool
    ensures value { result ≡ list_all is_in_limit items.now }
    ensures each { IsTrue result → All IsInLimit items.now }
{
    items.iter().all(|x| is_in_limit(*x))
}

/// The set of some numbers.
fn listed(alloc: Global, items: &[i64]) -> Result<RangeSet, Miss>
    ensures { Gives (λ s. s) result (listed items.now) }
{
    if !are_in_limit(items) {
        return Err(Miss::Unfit);
    }
    Ok(RangeSet::of(alloc, items)?)
}

/// A number of a set in braces.
struct Number;

impl<'a> Part<'a> for Number {
    ghost use Rattle.std.specs.Prelude.{ℤ};
    ghost use Rattle.fz_text_read.specs.Tokens.{number_at};

    type Item = i64;

    ghost Seen = { ℤ };

    ghost seen = { λ n. n };

    ghost read_at = { λ p. number_at };

    fn read(&self, bytes: &'a [u8]) -> Result<(i64, &'a [u8]), Miss> {
        number(bytes)
    }
}

/// What follows an opening brace.
#[tactic(auto, unfolding(crate::specs::Lists::braces_at))]
pub(crate) fn braces(alloc: Global, bytes: &[u8]) -> Result<(RangeSet, &[u8]), Miss>
    ensures { Gives (with_rest (λ s. s)) result (braces_at bytes.now) }
{
    let (items, rest) = given!(filled(alloc, &Number, b"}", bytes));
    let s = given!(listed(alloc, &items));
    Ok((s, rest))
}

/// A set.
#[tactic(auto, unfolding(crate::specs::Lists::set_at))]
pub(crate) fn set(alloc: Global, bytes: &[u8]) -> Result<(RangeSet, &[u8]), Miss>
    ensures { Gives (with_rest (λ s. s)) result (set_at bytes.now) }
{
    match behind(b"{", bytes) {
        Some(rest) => braces(alloc, rest),
        None => interval_of(alloc, bytes),
    }
}

/// A range of an array's indices.
struct IndexRange;

impl<'a> Part<'a> for IndexRange {
    ghost use Rattle.mz_value.specs.Ranges.{Range};
    ghost use Rattle.fz_text_read.specs.Tokens.{range_at};

    type Item = (i64, i64);

    ghost Seen = { Range };

    ghost seen = { λ r. r };

    ghost read_at = { λ p. range_at };

    fn read(&self, bytes: &'a [u8]) -> Result<((i64, i64), &'a [u8]), Miss> {
        range(bytes)
    }
}

/// The ranges of an array's indices, up to its elements.
pub(crate) fn index(alloc: Global, bytes: &[u8]) -> Result<(Vec<(i64, i64)>, &[u8]), Miss>
    ensures { Gives (with_rest (λ v. v.items)) result (filled_at (codes "]) = [") range_at bytes.now) }
{
    filled(alloc, &IndexRange, b"]) = [", bytes)
}
