// Sets of integers of -20 to 43, as masks of 64 bits.

use mz_value::RangeSet;

/// The bit of a place.
fn bit(place: u64) -> u64 {
    let mut b: u64 = 1;
    for _turn in 0..place {
        b = b.wrapping_mul(2);
    }
    b
}

/// The bit of an integer, and none where it isn't one of -20 to 43.
pub(crate) fn bit_of(x: i64) -> u64 {
    if -20 <= x && x <= 43 {
        bit((x + 20) as u64)
    } else {
        0
    }
}

/// Whether a set has an integer.
pub(crate) fn has(mask: u64, x: i64) -> bool {
    mask & bit_of(x) != 0
}

/// The integers of -20 to 43 that a set has.
pub(crate) fn mask_of(s: &RangeSet) -> u64 {
    let mut mask: u64 = 0;
    for x in -20..44 {
        if s.contains(x) {
            mask |= bit_of(x);
        }
    }
    mask
}

/// How many integers a set has.
pub(crate) fn count(mask: u64) -> i64 {
    let mut all: i64 = 0;
    for x in -20..44 {
        if has(mask, x) {
            all = all.wrapping_add(1);
        }
    }
    all
}

/// Whether the second set has what the first has.
pub(crate) fn is_within(a: u64, b: u64) -> bool {
    a & b == a
}
