// The bounds of Booleans, and of what a Boolean guards.

ghost use Rattle.mz_arena.specs.Extents.{bool_extent, comparison_extent, connective_extent, not_extent, member_extent, set_comparison_extent, to_int_extent, open_truth as any_truth};
ghost use Rattle.mz_arena.specs.Tables.{Sets, IsShort, TellsAny, known, IsSoundTable, TellsIn};

use crate::node::Id;
use crate::table::{Reach, Table};
use mz_interval::Interval;

/// A Boolean of which nothing is known.
pub(crate) fn open_truth() -> Option<Reach>
    ensures short { IsShort result }
    ensures told { (sets : Sets) → TellsAny sets result any_truth }
{
    Some(Reach::Truth(Interval { lo: 0, hi: 1 }))
}

impl Table {
    /// A comparison of integers.
    #[tactic(auto, unfolding(crate::specs::Extents::comparison_extent))]
    pub(crate) fn comparison(&self, a: Id, b: Id) -> Option<Reach>
        requires { IsSoundTable self.now }
        ensures short { IsShort result }
        ensures told { TellsIn self.now result (comparison_extent (known self.now a) (known self.now b)) }
    {
        let _x = self.whole(a)?;
        let _y = self.whole(b)?;
        open_truth()
    }

    /// A connective of Booleans.
    #[tactic(auto, unfolding(crate::specs::Extents::connective_extent))]
    pub(crate) fn connective(&self, a: Id, b: Id) -> Option<Reach>
        requires { IsSoundTable self.now }
        ensures short { IsShort result }
        ensures told { TellsIn self.now result (connective_extent (known self.now a) (known self.now b)) }
    {
        let _x = self.truth(a)?;
        let _y = self.truth(b)?;
        open_truth()
    }

    /// The negation of a Boolean.
    #[tactic(auto, unfolding(crate::specs::Extents::not_extent))]
    pub(crate) fn negation(&self, a: Id) -> Option<Reach>
        requires { IsSoundTable self.now }
        ensures short { IsShort result }
        ensures told { TellsIn self.now result (not_extent (known self.now a)) }
    {
        let _x = self.truth(a)?;
        open_truth()
    }

    /// Whether an integer is an element of a set.
    #[tactic(auto, unfolding(crate::specs::Extents::member_extent))]
    pub(crate) fn member(&self, a: Id, b: Id) -> Option<Reach>
        requires { IsSoundTable self.now }
        ensures short { IsShort result }
        ensures told { TellsIn self.now result (member_extent (known self.now a) (known self.now b)) }
    {
        let _x = self.whole(a)?;
        let _s = self.subset(b)?;
        open_truth()
    }

    /// A comparison of sets.
    #[tactic(auto, unfolding(crate::specs::Extents::set_comparison_extent))]
    pub(crate) fn set_comparison(&self, a: Id, b: Id) -> Option<Reach>
        requires { IsSoundTable self.now }
        ensures short { IsShort result }
        ensures told { TellsIn self.now result (set_comparison_extent (known self.now a) (known self.now b)) }
    {
        let _s = self.subset(a)?;
        let _t = self.subset(b)?;
        open_truth()
    }

    /// A Boolean as an integer.
    #[tactic(auto, unfolding(crate::specs::Extents::to_int_extent))]
    pub(crate) fn to_int(&self, a: Id) -> Option<Reach>
        requires { IsSoundTable self.now }
        ensures short { IsShort result }
        ensures told { TellsIn self.now result (to_int_extent (known self.now a)) }
    {
        let x = self.truth(a)?;
        Some(Reach::Whole(x))
    }
}

/// A constant.
#[tactic(auto, unfolding(crate::specs::Extents::bool_extent))]
pub(crate) fn constant_truth(n: &i64) -> Option<Reach>
    ensures short { IsShort result }
    ensures told { (sets : Sets) → TellsAny sets result (bool_extent n.now) }
{
    if 0 <= *n && *n <= 1 {
        Some(Reach::Truth(Interval { lo: *n, hi: *n }))
    } else {
        None
    }
}
