// Sets have their union together.

ghost use Rattle.std.specs.Prelude.{◌≡◌, ◌<◌, drop, take, length, IfOk};
ghost use Rattle.mz_operations.specs.Bounds.{union_of_all};
ghost use Rattle.mz_operations.specs.Laws.{IsSet};
ghost use Rattle.mz_arena_blocks.specs.Lists.{list_at};

use crate::blocks::Blocks;
use crate::join::Join;
use mz_value::RangeSet;
use std::alloc::{AllocError, Global};

impl Join for RangeSet {
    ghost use Rattle.std.specs.Prelude.{List};
    ghost use Rattle.mz_value.specs.Ranges.{Range};
    ghost use Rattle.mz_operations.specs.Sets.{union};
    ghost use Rattle.mz_arena_blocks.specs.Laws.{union_fits, union_associative};

    ghost Seen = { List Range };

    ghost seen = { λ s. s };

    ghost fits = { IsSet };

    ghost joined = { union };

    fn join(&self, alloc: Global, other: &RangeSet) -> Result<RangeSet, AllocError> {
        let union = self.union(alloc, other)?;
        Ok(union)
    }

    fn copied(&self, alloc: Global) -> Result<RangeSet, AllocError> {
        let copy = self.copy(alloc)?;
        Ok(copy)
    }

    ghost fit = { union_fits };

    ghost associative = { union_associative };
}

impl Blocks<RangeSet> {
    /// The union of a part of a list: of this many elements, or of all where there are fewer, after
    /// the first that are skipped.
    pub fn union_between(
        &self,
        alloc: Global,
        list: u64,
        skipped: u64,
        count: u64,
    ) -> Result<RangeSet, AllocError>
        requires { list < length self.now }
        ensures is { IfOk result (λ s. s ≡ union_of_all (take count (drop skipped (list_at self.now list)))) }
        ensures set { IfOk result IsSet }
    {
        let nothing = RangeSet::range(alloc, 1, 0)?;
        let start = self.skip(list, skipped);
        let union = self.joined_from(nothing, start, count)?;
        Ok(union)
    }
}
