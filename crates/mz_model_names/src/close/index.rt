// The index ranges of arrays of variables.

ghost use Rattle.std.specs.Prelude.{◌≡◌, ◌≢◌, ◌*◌, ◌≤◌, ◌≤ℤ◌, ◌^◌, ◌⊎◌, [], MatchOption, length, pos, true};
ghost use Rattle.mz_value.specs.Ranges.{IsInLimit, cardinality, range_of};
ghost use Rattle.mz_operations.specs.Arrays.{place_count};
ghost use Rattle.mz_instance.specs.Instance.{IsIndexRange, AreIndexRanges};

use mz_symbol::Free;
use mz_value::{GREATEST, LEAST};

fn is_in_limit(n: i64) -> bool
    ensures { result ≡ true → IsInLimit n }
{
    LEAST <= n && n <= GREATEST
}

fn is_ordered(r: (i64, i64)) -> bool
    ensures { result ≡ true → (r ≡ (pos 1, pos 0)) ⊎ (r.0 ≤ℤ r.1) }
{
    if r.0 <= r.1 {
        return true;
    }
    r.0 == 1 && r.1 == 0
}

fn is_index_range(r: (i64, i64)) -> bool
    ensures { result ≡ true → IsIndexRange r }
{
    if !is_ordered(r) {
        return false;
    }
    if !is_in_limit(r.0) {
        return false;
    }
    is_in_limit(r.1)
}

fn are_index_ranges(ranges: &[(i64, i64)]) -> bool
    ensures { result ≡ true → AreIndexRanges ranges.now }
{
    match ranges {
        [] => true,
        [r, rest @ ..] => {
            if is_index_range(*r) {
                are_index_ranges(rest)
            } else {
                false
            }
        }
    }
}

fn is_some_range(ranges: &[(i64, i64)]) -> bool
    ensures { result ≡ true → ranges.now ≢ [] }
{
    !ranges.is_empty()
}

/// How many integers a range has.
fn places(r: (i64, i64)) -> u128
    ensures value { result ≡ cardinality (range_of r.0 r.1) }
    ensures bound { result ≤ 2 ^ 64 }
{
    if r.0 <= r.1 {
        (r.1 as i128 - r.0 as i128) as u128 + 1
    } else {
        0
    }
}

/// A product; None where it passes 2^64 - 1.
fn product(n: u128, rest: u64) -> Option<u64>
    requires { n ≤ 2 ^ 64 }
    ensures { MatchOption result (Unit {0}) (λ p. p ≡ n * rest) }
{
    let all = n * rest as u128;
    if all <= u64::MAX as u128 {
        Some(all as u64)
    } else {
        None
    }
}

/// How many places index ranges have; None where 2^64 or more.
#[tactic(auto, unfolding(mz_operations::specs::Arrays::place_count))]
fn place_count(ranges: &[(i64, i64)]) -> Option<u64>
    ensures { MatchOption result (Unit {0}) (λ n. n ≡ place_count ranges.now) }
{
    match ranges {
        [] => Some(1),
        [r, rest @ ..] => match place_count(rest) {
            None => None,
            Some(n) => product(places(*r), n),
        },
    }
}

fn has_count(ranges: &[(i64, i64)], places: &[Free]) -> bool
    ensures { result ≡ true → length places.now ≡ place_count ranges.now }
{
    match place_count(ranges) {
        None => false,
        Some(n) => places.len() as u64 == n,
    }
}

/// Whether index ranges are those of so many places, each 1..0 or not empty, within the limit of
/// integers.
pub(crate) fn is_index(ranges: &[(i64, i64)], places: &[Free]) -> bool
    ensures some { result ≡ true → ranges.now ≢ [] }
    ensures ranges { result ≡ true → AreIndexRanges ranges.now }
    ensures count { result ≡ true → length places.now ≡ place_count ranges.now }
{
    if !is_some_range(ranges) {
        return false;
    }
    if !are_index_ranges(ranges) {
        return false;
    }
    has_count(ranges, places)
}
