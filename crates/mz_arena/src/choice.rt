// The bounds of branches, guards and lists.

ghost use Rattle.std.specs.Prelude.{◌<◌, IfOk, length};
ghost use Rattle.mz_interval.specs.Interval.{ends};
ghost use Rattle.mz_arena.specs.Extents.{whole, truth, subset, branch_extent, if_extent, guard_extent, cons_extent};
ghost use Rattle.mz_arena.specs.Tables.{known, set_at, IsKept, IsSoundTable, IsShort, TellsIn};

use crate::node::Id;
use crate::table::{Reach, Single, Table};
use crate::truth::open_truth;
use mz_interval::Interval;
use std::alloc::{AllocError, Global};

impl Table {
    /// A node under a condition.
    #[tactic(auto, unfolding(crate::specs::Extents::guard_extent))]
    pub(crate) fn guard(&self, a: Id, b: Id) -> Option<Reach>
        requires { IsSoundTable self.now }
        ensures short { IsShort result }
        ensures told { TellsIn self.now result (guard_extent (known self.now a) (known self.now b)) }
    {
        let _condition = self.truth(a)?;
        match self.single(b) {
            None => None,
            Some(Single::Whole(e)) => Some(Reach::Whole(e)),
            Some(Single::Truth(_)) => open_truth(),
            Some(Single::Subset(k)) => Some(Reach::Subset(k)),
        }
    }

    /// A list with an element more.
    #[tactic(auto, unfolding(crate::specs::Extents::cons_extent))]
    pub(crate) fn cons(&self, a: Id, b: Id) -> Option<Reach>
        requires { IsSoundTable self.now }
        ensures { TellsIn self.now result (cons_extent (known self.now a) (known self.now b)) }
    {
        match self.single(a) {
            None => None,
            Some(Single::Whole(_)) => {
                if self.is_whole_list(b) {
                    Some(Reach::Wholes)
                } else {
                    None
                }
            }
            Some(Single::Truth(_)) => {
                if self.is_truth_list(b) {
                    Some(Reach::Truths)
                } else {
                    None
                }
            }
            Some(Single::Subset(_)) => {
                if self.is_subset_list(b) {
                    Some(Reach::Subsets)
                } else {
                    None
                }
            }
        }
    }

    /// The branches of an `if`.
    #[tactic(auto, unfolding(crate::specs::Extents::if_extent))]
    pub(crate) fn branches(
        &mut self,
        alloc: Global,
        a: Id,
        b: Id,
        c: Id,
    ) -> Result<Option<Reach>, AllocError>
        requires sound { IsSoundTable self.old }
        ensures kept { IsKept self.old self.new }
        ensures short { IfOk result IsShort }
        ensures told { IfOk result (λ r. TellsIn self.new r (if_extent (known self.old a) (known self.old b) (known self.old c))) }
    {
        let Some(_condition) = self.truth(a) else {
            return Ok(None);
        };
        match self.single(b) {
            None => Ok(None),
            Some(Single::Whole(e)) => Ok(self.whole_branch(e, c)),
            Some(Single::Truth(e)) => Ok(self.truth_branch(e, c)),
            Some(Single::Subset(k)) => self.subset_branch(alloc, k, c),
        }
    }

    fn whole_branch(&self, e: Interval, c: Id) -> Option<Reach>
        requires { IsSoundTable self.now }
        ensures short { IsShort result }
        ensures told { TellsIn self.now result (branch_extent (whole (ends e)) (known self.now c)) }
    {
        let f = self.whole(c)?;
        Some(Reach::Whole(e.hull(f)))
    }

    fn truth_branch(&self, _e: Interval, c: Id) -> Option<Reach>
        requires { IsSoundTable self.now }
        ensures short { IsShort result }
        ensures told { TellsIn self.now result (branch_extent (truth (ends _e)) (known self.now c)) }
    {
        let _f = self.truth(c)?;
        open_truth()
    }

    fn subset_branch(&mut self, alloc: Global, k: u64, c: Id) -> Result<Option<Reach>, AllocError>
        requires sound { IsSoundTable self.old }
        requires within { k < length self.old.sets.items }
        ensures kept { IsKept self.old self.new }
        ensures short { IfOk result IsShort }
        ensures told { IfOk result (λ r. TellsIn self.new r (branch_extent (subset (set_at self.old.sets.items k)) (known self.old c))) }
    {
        let Some(m) = self.subset(c) else {
            return Ok(None);
        };
        let place = self.joined(alloc, k, m)?;
        Ok(Some(Reach::Subset(place)))
    }
}
