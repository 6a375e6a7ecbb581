// Sets of integers of -1000 to 1000, and index ranges.

use mz_base::Memory;
use mz_value::RangeSet;
use std::alloc::Global;

// A number of -1000 to 1000.
fn number(word: &str) -> Option<i64> {
    match word.parse::<i64>() {
        Ok(n) => {
            if -1000 <= n && n <= 1000 {
                Some(n)
            } else {
                None
            }
        }
        Err(_) => None,
    }
}

/// `1..3`, both ends inclusive.
pub fn range(word: &str) -> Option<(i64, i64)> {
    let (low, high) = word.split_once("..")?;
    let low = number(low)?;
    let high = number(high)?;
    Some((low, high))
}

// Adds a range to a set.
fn with_range(alloc: Global, s: RangeSet, word: &str) -> Result<Option<RangeSet>, Memory> {
    match range(word) {
        Some((low, high)) => {
            if -1000 <= low && (low <= 1000 && (-1000 <= high && high <= 1000)) {
                let more = RangeSet::range(alloc, low, high)?;
                Ok(Some(s.union(alloc, &more)?))
            } else {
                Ok(None)
            }
        }
        None => Ok(None),
    }
}

/// Ranges with commas between them, such as `1..2,5..6`; `1..0` for the empty set.
pub fn set(alloc: Global, word: &str) -> Result<Option<RangeSet>, Memory> {
    let mut all = RangeSet::range(alloc, 1, 0)?;
    for part in word.split(',') {
        match given!(with_range(alloc, all, part)) {
            Some(more) => all = more,
            None => return Ok(None),
        }
    }
    Ok(Some(all))
}

/// Index ranges with `*` between them, such as `1..2*0..1`.
pub fn index(alloc: Global, word: &str) -> Result<Option<Vec<(i64, i64)>>, Memory> {
    let mut all = Vec::new(alloc);
    for part in word.split('*') {
        match range(part) {
            Some(r) => all.push(r)?,
            None => return Ok(None),
        }
    }
    Ok(Some(all))
}

/// How many places index ranges have.
pub fn places(ranges: &[(i64, i64)]) -> u64 {
    let mut all: u64 = 1;
    for r in ranges {
        let size = if r.0 <= r.1 {
            r.1.wrapping_sub(r.0).wrapping_add(1)
        } else {
            0
        };
        all = match u64::try_from(size) {
            Ok(n) => all.wrapping_mul(n),
            Err(_) => 0,
        };
    }
    all
}
