// The bounds of accesses to lists.

ghost use Rattle.std.specs.Prelude.{◌≡◌, Some, ◌-◌, IfOk};
ghost use Rattle.mz_interval.specs.Interval.{ends};
ghost use Rattle.mz_operations.specs.Bounds.{hull_of_all, union_of_all};
ghost use Rattle.mz_arena.specs.Extents.{subset, access_extent, not_negative, skipped, reached};
ghost use Rattle.mz_arena.specs.Tables.{known, wholes_of, subsets_of, IsKept, IsSoundTable, IsShort, TellsIn};
ghost use Rattle.mz_arena.specs.Places.{IsListedTable};

use crate::node::Id;
use crate::table::{Reach, Row, Table};
use crate::truth::open_truth;
use mz_interval::Interval;
use std::alloc::{AllocError, Global};

/// How many elements of a list stand before the first place that is reached.
fn skipped(index: &Interval) -> u64
    ensures { result ≡ skipped (ends index.now) }
{
    if index.lo > 0 {
        (index.lo - 1) as u64
    } else {
        0
    }
}

/// How many elements are reached.
fn count(index: &Interval) -> u64
    ensures { result ≡ not_negative index.now.hi - skipped (ends index.now) }
{
    if index.hi > 0 {
        index.hi as u64 - skipped(index)
    } else {
        0
    }
}

impl Table {
    /// The hull of the integers that an index reaches.
    fn reached_hull(&self, index: &Interval, list: Id) -> Result<Interval, AllocError>
        requires sound { IsSoundTable self.now }
        requires listed { IsListedTable self.now }
        ensures { IfOk result (λ i. ends i ≡ hull_of_all (reached (ends index.now) (wholes_of self.now list))) }
    {
        let place = self.wholes_place(list);
        let hull = self
            .wholes
            .hull_between(place, skipped(index), count(index))?;
        Ok(hull)
    }

    /// An access to a list.
    #[tactic(auto, unfolding(crate::specs::Extents::access_extent))]
    pub(crate) fn access(
        &mut self,
        alloc: Global,
        a: Id,
        b: Id,
    ) -> Result<Option<Reach>, AllocError>
        requires sound { IsSoundTable self.old }
        requires listed { IsListedTable self.old }
        ensures kept { IsKept self.old self.new }
        ensures short { IfOk result IsShort }
        ensures told { IfOk result (λ r. TellsIn self.new r (access_extent (known self.old a) (known self.old b))) }
    {
        let Some(index) = self.whole(a) else {
            return Ok(None);
        };
        match self.row(b) {
            None => Ok(None),
            Some(Row::Wholes) => Ok(Some(Reach::Whole(self.reached_hull(&index, b)?))),
            Some(Row::Truths) => Ok(open_truth()),
            Some(Row::Subsets) => self.reached_subset(alloc, &index, b),
            Some(Row::Empty) => Ok(Some(Reach::Whole(Interval { lo: 0, hi: 0 }))),
        }
    }

    /// The union of the greatest sets that an index reaches.
    fn reached_subset(
        &mut self,
        alloc: Global,
        index: &Interval,
        list: Id,
    ) -> Result<Option<Reach>, AllocError>
        requires sound { IsSoundTable self.old }
        requires listed { IsListedTable self.old }
        ensures kept { IsKept self.old self.new }
        ensures short { IfOk result IsShort }
        ensures told { IfOk result (λ r. TellsIn self.new r (Some (subset (union_of_all (reached (ends index.now) (subsets_of self.old list)))))) }
    {
        let start = self.subsets_place(list);
        let set = self
            .subsets
            .union_between(alloc, start, skipped(index), count(index))?;
        let place = self.keep(set)?;
        Ok(Some(Reach::Subset(place)))
    }
}
