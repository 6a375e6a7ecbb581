// A finite set of integers, as its ranges.

ghost use Rattle.std.specs.Prelude.{◌≡◌, ◌↔◌, IfOk, IsTrue, All};

use crate::walks::{cardinality, common, gaps, has, joined, merged, singles};
use std::alloc::{AllocError, Global};
use std::marker::Model;

/// The least integer that a set may have, -2^61.
pub const LEAST: i64 = -GREATEST;
/// The greatest integer that a set may have, 2^61.
pub const GREATEST: i64 = 1 << 61;

/// A finite set of integers of `LEAST` to `GREATEST`.
///
/// Contracts see it as the list of its ranges, each with its least and its greatest element, both
/// inclusive, in ascending order, with at least one integer missing between two neighbours. A set
/// has one such list, so two sets are equal where their lists are.
#[derive(Debug, Drop)]
pub struct RangeSet {
    ranges: Vec<(i64, i64)>,
}

impl Model for RangeSet {
    ghost use Rattle.std.specs.Prelude.{List, ℤ};

    ghost Value = { List (ℤ × ℤ) };

    ghost use Rattle.mz_value.specs.Ranges.{AreCanonical, AreInLimit};

    ghost view = { λ s. s.ranges.items };

    ghost invariant = { λ s. AreCanonical s.ranges.items × AreInLimit s.ranges.items };
}

impl RangeSet {
    ghost use Rattle.mz_value.specs.Ranges.{AreCanonical, AreInLimit, Has, IsInLimit, IsSetOf, IsUnion, IsIntersection, IsDifference, range_of, cardinality};

    /// The integers from `lo` to `hi`, both inclusive; the empty set where `hi < lo`.
    pub fn range(alloc: Global, lo: i64, hi: i64) -> Result<RangeSet, AllocError>
        requires lo { IsInLimit lo }
        requires hi { IsInLimit hi }
        ensures { IfOk result (λ s. s ≡ range_of lo hi) }
    {
        let mut ranges = Vec::new(alloc);
        if lo <= hi {
            ranges.push((lo, hi))?;
        }
        Ok(RangeSet { ranges })
    }

    /// The set of these integers, which may come in any order and more than once.
    pub fn of(alloc: Global, items: &[i64]) -> Result<RangeSet, AllocError>
        requires { All IsInLimit items.now }
        ensures members { IfOk result (IsSetOf items.now) }
        ensures canonical { IfOk result AreCanonical }
        ensures limits { IfOk result AreInLimit }
    {
        let mut sorted = Vec::from_slice(alloc, items)?;
        sorted.sort_unstable();
        let single = singles(alloc, &sorted)?;
        let ranges = joined(alloc, &single)?;
        Ok(RangeSet { ranges })
    }

    /// A set with the same elements, in memory of its own.
    pub fn copy(&self, alloc: Global) -> Result<RangeSet, AllocError>
        ensures { IfOk result (λ s. s ≡ self.now) }
    {
        let ranges = Vec::from_slice(alloc, &self.ranges)?;
        Ok(RangeSet { ranges })
    }

    /// What this set or `other` has.
    pub fn union(&self, alloc: Global, other: &RangeSet) -> Result<RangeSet, AllocError>
        ensures members { IfOk result (IsUnion self.now other.now) }
        ensures canonical { IfOk result AreCanonical }
        ensures limits { IfOk result AreInLimit }
    {
        let all = merged(alloc, &self.ranges, &other.ranges)?;
        let ranges = joined(alloc, &all)?;
        Ok(RangeSet { ranges })
    }

    /// What both this set and `other` have.
    pub fn intersect(&self, alloc: Global, other: &RangeSet) -> Result<RangeSet, AllocError>
        ensures members { IfOk result (IsIntersection self.now other.now) }
        ensures canonical { IfOk result AreCanonical }
        ensures limits { IfOk result AreInLimit }
    {
        let ranges = common(alloc, &self.ranges, &other.ranges)?;
        Ok(RangeSet { ranges })
    }

    /// What this set has and `other` hasn't.
    pub fn diff(&self, alloc: Global, other: &RangeSet) -> Result<RangeSet, AllocError>
        ensures members { IfOk result (IsDifference self.now other.now) }
        ensures canonical { IfOk result AreCanonical }
        ensures limits { IfOk result AreInLimit }
    {
        let missing = gaps(alloc, &other.ranges)?;
        let ranges = common(alloc, &self.ranges, &missing)?;
        Ok(RangeSet { ranges })
    }

    /// Whether `x` is an element.
    pub fn contains(&self, x: i64) -> bool
        ensures { IsTrue result ↔ Has self.now x }
    {
        has(&self.ranges, x)
    }

    /// How many elements there are.
    pub fn card(&self) -> u64
        ensures { result ≡ cardinality self.now }
    {
        cardinality(&self.ranges)
    }

    /// The ranges, ascending, each with its least and its greatest element.
    pub fn ranges(&self) -> &[(i64, i64)]
        ensures ranges { result.now ≡ self.now }
        ensures canonical { AreCanonical self.now }
        ensures limits { AreInLimit self.now }
    {
        self.ranges.as_slice()
    }
}
