// Intervals have their hull together.

ghost use Rattle.std.specs.Prelude.{◌≡◌, ◌<◌, drop, take, map, length, IfOk};
ghost use Rattle.mz_interval.specs.Interval.{ends};
ghost use Rattle.mz_operations.specs.Bounds.{hull_of_all};
ghost use Rattle.mz_arena_blocks.specs.Lists.{list_at};

use crate::blocks::Blocks;
use crate::join::Join;
use mz_interval::Interval;
use std::alloc::{AllocError, Global};

impl Join for Interval {
    ghost use Rattle.mz_interval.specs.Ends.{Ends, hull_of};
    ghost use Rattle.mz_arena_blocks.specs.Laws.{hull_associative};

    ghost Seen = { Ends };

    ghost seen = { ends };

    ghost fits = { λ e. Unit {0} };

    ghost joined = { hull_of };

    fn join(&self, _alloc: Global, other: &Interval) -> Result<Interval, AllocError> {
        let hull = self.hull(*other);
        Ok(hull)
    }

    fn copied(&self, _alloc: Global) -> Result<Interval, AllocError> {
        Ok(*self)
    }

    ghost fit = { λ a b p q. tt };

    ghost associative = { λ a b c p q r. hull_associative a b c };
}

impl Blocks<Interval> {
    /// The hull of a part of a list: of this many elements, or of all where there are fewer, after the
    /// first that are skipped; 0..0 of none.
    pub fn hull_between(&self, list: u64, skipped: u64, count: u64) -> Result<Interval, AllocError>
        requires { list < length self.now }
        ensures { IfOk result (λ i. ends i ≡ hull_of_all (take count (drop skipped (map ends (list_at self.now list))))) }
    {
        match self.joined_between(list, skipped, count)? {
            Some(hull) => Ok(hull),
            None => Ok(Interval { lo: 0, hi: 0 }),
        }
    }
}
