// The index sets of an array, and the place of an element.

ghost use Rattle.std.specs.Prelude.{◌≡◌, ◌^◌, ◌<◌, ◌≤◌, IfOk, All, length};
ghost use Rattle.mz_index.specs.Places.{IsInLimit, count_of, place_of};

use crate::slices::{count_in, place_in};
use mz_base::Memory;
use std::alloc::Global;
use std::marker::Model;

/// The index sets of an array of 1 to 6 dimensions.
///
/// Contracts see them as the list of their ranges, each with its lower and its upper end, both
/// inclusive. A range whose upper end lies below its lower one is empty.
#[derive(Drop)]
pub struct IndexSets {
    ranges: Vec<(i64, i64)>,
    count: u64,
}

impl Model for IndexSets {
    ghost use Rattle.std.specs.Prelude.{◌≡◌, ℤ, List, All, ◌^◌, ◌<◌};
    ghost use Rattle.mz_index.specs.Places.{IsInLimit, count_of};

    ghost Value = { List (ℤ × ℤ) };

    ghost view = { λ s. s.ranges.items };

    ghost invariant = { λ s. All IsInLimit s.ranges.items × (s.count ≡ count_of s.ranges.items) × (s.count < 2 ^ 32) };
}

impl IndexSets {
    /// The index sets of these ranges, the first for the index that runs slowest.
    #[tactic(auto, using(crate::proofs::Steps::same_count))]
    pub fn new(alloc: Global, ranges: &[(i64, i64)]) -> Result<IndexSets, Memory>
        requires some { 0 < length ranges.now }
        requires few { length ranges.now ≤ 6 }
        requires in_limit { All IsInLimit ranges.now }
        requires fits { count_of ranges.now < 2 ^ 32 }
        ensures { IfOk result (λ sets. sets ≡ ranges.now) }
    {
        Ok(IndexSets {
            ranges: Vec::from_slice(alloc, ranges)?,
            count: count_in(ranges),
        })
    }

    /// How many places there are: the product of the lengths.
    pub fn len(&self) -> u64
        ensures { result ≡ count_of self.now }
    {
        self.count
    }

    /// The place of these indices, from 0, where the last index runs fastest; `None` exactly where
    /// one lies outside its range or there are more or fewer than ranges.
    #[tactic(auto, using(crate::proofs::Steps::same_place))]
    pub fn place(&self, at: &[i64]) -> Option<u64>
        ensures { result ≡ place_of self.now at.now }
    {
        place_in(self.ranges.as_slice(), at)
    }
}
