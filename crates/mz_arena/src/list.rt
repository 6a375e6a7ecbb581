// Lists of integers: their elements' bounds, from the first on.

ghost use Rattle.std.specs.Prelude.{◌≡◌, ◌<◌, [], IfSome, MatchOption};
ghost use Rattle.mz_interval.specs.Interval.{ends};
ghost use Rattle.mz_operations.specs.Bounds.{extreme_ends};
ghost use Rattle.mz_arena.specs.Tables.{IsSoundTable, HasWholes, SplitsWholes, has_subsets, has_wholes, wholes_of};

use crate::node::{Id, Node};
use crate::number::toward;
use crate::table::{Reach, Table};
use mz_interval::Interval;
use mz_operations::Side;

pub(crate) fn has_wholes(reach: Reach) -> bool
    ensures { result ≡ has_wholes reach }
{
    match reach {
        Reach::Wholes => true,
        _ => false,
    }
}

pub(crate) fn has_subsets(reach: Reach) -> bool
    ensures { result ≡ has_subsets reach }
{
    match reach {
        Reach::Subsets => true,
        _ => false,
    }
}

impl Table {
    /// The node of a list of integers with an element; `None` where it is none.
    pub(crate) fn wholes_node(&self, id: Id) -> Option<Node>
        requires { IsSoundTable self.now }
        ensures { MatchOption result (wholes_of self.now id ≡ []) (λ n. HasWholes self.now.sets.items self.now.stored.items id n) }
    {
        if (id as usize) < self.stored.len() {
            let stored = self.stored[id as usize];
            if has_wholes(stored.reach) {
                Some(stored.node)
            } else {
                None
            }
        } else {
            None
        }
    }

    /// The bounds of the first integer of a list, and the list of the others.
    pub(crate) fn split(&self, id: Id) -> Option<(Interval, Id)>
        requires { IsSoundTable self.now }
        ensures parts { SplitsWholes self.now.sets.items self.now.stored.items id result }
        ensures smaller { IfSome result (λ p. p.1 < id) }
    {
        let node = self.wholes_node(id)?;
        match self.whole(node.a) {
            Some(head) => Some((head, node.b)),
            None => unreachable!(),
        }
    }

    /// The bounds of the least or the greatest integer of a list; 0..0 of none.
    pub(crate) fn extreme(&self, side: Side, list: Id) -> Interval
        requires { IsSoundTable self.now }
        ensures { ends result ≡ extreme_ends side (wholes_of self.now list) }
    {
        let Some((first, rest)) = self.split(list) else {
            return Interval { lo: 0, hi: 0 };
        };
        let mut acc = first;
        let mut at = rest;
        while let Some((head, tail)) = self.split(at) {
            acc = toward(side, &acc, &head);
            at = tail;
        }
        acc
    }
}
