// Places from ranges and indices that stand in slices.

ghost use Rattle.std.specs.Prelude.{◌≡◌, ◌≤◌, ◌^◌, MatchOption, false, min, option_map, true};
ghost use Rattle.mz_index.specs.Places as places;
ghost use Rattle.mz_index.specs.Places.{most};

/// No array has as many elements: a count or a place that is greater is told as this.
const MOST: u64 = u64::MAX;

/// How many numbers a range has.
pub fn length_of(range: &(i64, i64)) -> u128
    ensures value { result ≡ places.length_of range.now }
    ensures bound { result ≤ 2 ^ 64 }
{
    if range.0 <= range.1 {
        (range.1 as i128 - range.0 as i128) as u128 + 1
    } else {
        0
    }
}

/// The number, or the greatest `u64` where it is greater.
pub fn capped(n: u128) -> u64
    ensures { result ≡ min most n }
{
    if n < MOST as u128 { n as u64 } else { MOST }
}

/// How many places there are, the product of the lengths, or the greatest `u64` where it is greater.
#[tactic(auto, using(crate::proofs::Caps::capped_times, crate::proofs::Caps::times_fit))]
pub fn count_in(ranges: &[(i64, i64)]) -> u64
    ensures { result ≡ min most (places.count_of ranges.now) }
{
    match ranges {
        [] => 1,
        [range, rest @ ..] => capped(length_of(range) * count_in(rest) as u128),
    }
}

/// How many numbers of the range stand before the index; `None` where it lies outside.
fn offset_in(range: &(i64, i64), index: &i64) -> Option<u64>
    ensures { MatchOption result (places.is_inside range.now index.now ≡ false) (λ o. (places.is_inside range.now index.now ≡ true) × (o ≡ places.offset_of range.now index.now)) }
{
    if range.0 <= *index && *index <= range.1 {
        Some(index.abs_diff(range.0))
    } else {
        None
    }
}

/// The place of these indices, from 0, where the last index runs fastest, or the greatest `u64`
/// where it is greater; `None` exactly where one lies outside its range or there are more or fewer
/// than ranges.
#[tactic(auto, using(crate::proofs::Caps::times_fit, crate::proofs::Steps::place_more, crate::proofs::Steps::place_none))]
pub fn place_in(ranges: &[(i64, i64)], at: &[i64]) -> Option<u64>
    ensures { result ≡ option_map (min most) (places.place_of ranges.now at.now) }
{
    match ranges {
        [] => if at.is_empty() { Some(0) } else { None },
        [range, ranges @ ..] => match at {
            [] => None,
            [index, at @ ..] => {
                let offset = offset_in(range, index)?;
                let place = place_in(ranges, at)?;
                let before = offset as u128 * count_in(ranges) as u128;
                Some(capped(before + place as u128))
            }
        },
    }
}
