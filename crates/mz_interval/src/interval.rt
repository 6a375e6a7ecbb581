// An interval, its sum, its negation and its hull.

ghost use Rattle.std.specs.Prelude.{◌≤ℤ◌};
ghost use Rattle.mz_interval.specs.Ends.{least_number, greatest_number};

use crate::limit::LIMIT;

/// The integers from `lo` to `hi`, both inclusive: at least one. Both ends lie in -2^61..2^61.
#[derive(Clone, Copy, Debug, PartialEq, Eq)]
pub struct Interval {
    pub lo: i64,
    pub hi: i64,
    pub ghost ordered: { lo ≤ℤ hi },
    pub ghost lo_in_limit: { least_number ≤ℤ lo },
    pub ghost hi_in_limit: { hi ≤ℤ greatest_number },
}

impl Interval {
    ghost use Rattle.std.specs.Prelude.{◌≡◌, ℤ, ◌+ℤ◌, neg_ℤ, IfSome, option_map, ◌⊎◌};
    ghost use Rattle.mz_interval.specs.Ends.{Encloses, if_in_limit, if_interval, hull_of};
    ghost use Rattle.mz_interval.specs.Rows.{sum_of, negation_of};
    ghost use Rattle.mz_interval.specs.Interval.{ends};

    /// The integers from `lo` to `hi`; `None` exactly where `lo > hi` or an end leaves
    /// -2^61..2^61.
    pub fn new(lo: i64, hi: i64) -> Option<Interval>
        ensures { option_map ends result ≡ if_interval (lo, hi) }
    {
        if lo <= hi && -LIMIT <= lo && hi <= LIMIT {
            Some(Interval { lo, hi })
        } else {
            None
        }
    }

    /// The two ends.
    pub(crate) fn pair(self) -> (i64, i64)
        ensures { result ≡ ends self }
    {
        (self.lo, self.hi)
    }

    /// The bounds of a sum; `None` exactly where an end leaves the limit.
    pub fn add(self, o: Interval) -> Option<Interval>
        ensures row { option_map ends result ≡ if_in_limit (sum_of (ends self) (ends o)) }
        ensures encloses { (x y : ℤ) → Encloses (ends self) x → Encloses (ends o) y → IfSome result (λ sum. Encloses (ends sum) (x +ℤ y)) }
    {
        Interval::new(self.lo + o.lo, self.hi + o.hi)
    }

    /// The bounds of the numbers with the other sign.
    pub fn neg(self) -> Interval
        ensures row { ends result ≡ negation_of (ends self) }
        ensures encloses { (x : ℤ) → Encloses (ends self) x → Encloses (ends result) (neg_ℤ x) }
    {
        Interval {
            lo: -self.hi,
            hi: -self.lo,
        }
    }

    /// The smallest interval that holds both.
    pub fn hull(self, o: Interval) -> Interval
        ensures row { ends result ≡ hull_of (ends self) (ends o) }
        ensures encloses { (x : ℤ) → Encloses (ends self) x ⊎ Encloses (ends o) x → Encloses (ends result) x }
    {
        Interval {
            lo: self.lo.min(o.lo),
            hi: self.hi.max(o.hi),
        }
    }
}
