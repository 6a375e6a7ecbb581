// The places of lists among those of their kind, by which an access finds what it reaches.

ghost use Rattle.std.specs.Prelude.{◌≡◌, ◌<◌, Some, length, map, true, IfOk};
ghost use Rattle.mz_interval.specs.Interval.{ends};
ghost use Rattle.mz_arena_blocks.specs.Lists.{list_at};
ghost use Rattle.mz_arena.specs.Places.{HasPlace, IsListedTable, subsets_listed, wholes_listed};
ghost use Rattle.mz_arena.specs.Tables.{asked, subsets_in, subsets_of, wholes_in, wholes_of, has_subsets, has_wholes, IsKept, IsLongCons, IsSoundTable, TellsIn};
ghost use Rattle.mz_arena.specs.declared.node.NodeKind.TheVariants.{Cons};
ghost use Rattle.mz_arena.specs.declared.table.Reach.TheVariants.{Subsets, Wholes};

use crate::list::{has_subsets, has_wholes};
use crate::node::{Id, Node};
use crate::table::{Reach, Table};
use std::alloc::{AllocError, Global};

impl Table {
    /// The place of a list of integers; that of the empty list where the node is none.
    pub(crate) fn wholes_place(&self, id: Id) -> u64
        requires sound { IsSoundTable self.now }
        requires listed { IsListedTable self.now }
        ensures within { result < length self.now.wholes }
        ensures is { map ends (list_at self.now.wholes result) ≡ wholes_of self.now id }
    {
        if (id as usize) < self.stored.len() {
            let stored = self.stored[id as usize];
            if has_wholes(stored.reach) {
                stored.place
            } else {
                0
            }
        } else {
            0
        }
    }

    /// The place of a list of sets; that of the empty list where the node is none.
    pub(crate) fn subsets_place(&self, id: Id) -> u64
        requires sound { IsSoundTable self.now }
        requires listed { IsListedTable self.now }
        ensures within { result < length self.now.subsets }
        ensures is { list_at self.now.subsets result ≡ subsets_of self.now id }
    {
        if (id as usize) < self.stored.len() {
            let stored = self.stored[id as usize];
            if has_subsets(stored.reach) {
                stored.place
            } else {
                0
            }
        } else {
            0
        }
    }

    /// Adds the list of integers that this node is to be, and gives its place.
    fn add_wholes(&mut self, n: &Node) -> Result<u64, AllocError>
        requires sound { IsSoundTable self.old }
        requires listed { IsListedTable self.old }
        requires told { TellsIn self.old (Some Wholes) (asked self.old n.now) }
        requires cons { n.now.kind ≡ Cons }
        ensures kept { IsKept self.old self.new }
        ensures sets { self.new.sets.items ≡ self.old.sets.items }
        ensures place { IfOk result (λ k. HasPlace (wholes_listed self.new) (length self.new.wholes) k (wholes_in (asked self.old n.now))) }
    {
        let tail = self.wholes_place(n.b);
        match self.whole(n.a) {
            Some(head) => {
                let place = self.wholes.push(head, tail)?;
                Ok(place)
            }
            None => unreachable!(),
        }
    }

    /// Adds the list of sets that this node is to be, and gives its place.
    fn add_subsets(&mut self, alloc: Global, n: &Node) -> Result<u64, AllocError>
        requires sound { IsSoundTable self.old }
        requires listed { IsListedTable self.old }
        requires told { TellsIn self.old (Some Subsets) (asked self.old n.now) }
        requires cons { n.now.kind ≡ Cons }
        ensures kept { IsKept self.old self.new }
        ensures sets { self.new.sets.items ≡ self.old.sets.items }
        ensures place { IfOk result (λ k. HasPlace (subsets_listed self.new) (length self.new.subsets) k (subsets_in (asked self.old n.now))) }
    {
        let tail = self.subsets_place(n.b);
        match self.subset(n.a) {
            Some(at) => {
                let head = self.sets[at as usize].copy(alloc)?;
                let place = self.subsets.push(head, tail)?;
                Ok(place)
            }
            None => unreachable!(),
        }
    }

    /// Adds the list that a node with these bounds is to be, and gives its place; any number where
    /// the node is to be no list of integers or of sets.
    pub(crate) fn add_list(
        &mut self,
        alloc: Global,
        n: &Node,
        reach: &Reach,
    ) -> Result<u64, AllocError>
        requires sound { IsSoundTable self.old }
        requires listed { IsListedTable self.old }
        requires told { TellsIn self.old (Some reach.now) (asked self.old n.now) }
        requires long { IsLongCons n.now.kind (Some reach.now) }
        ensures kept { IsKept self.old self.new }
        ensures sets { self.new.sets.items ≡ self.old.sets.items }
        ensures wholes { IfOk result (λ k. has_wholes reach.now ≡ true → HasPlace (wholes_listed self.new) (length self.new.wholes) k (wholes_in (asked self.old n.now))) }
        ensures subsets { IfOk result (λ k. has_subsets reach.now ≡ true → HasPlace (subsets_listed self.new) (length self.new.subsets) k (subsets_in (asked self.old n.now))) }
    {
        match reach {
            Reach::Wholes => self.add_wholes(n),
            Reach::Subsets => self.add_subsets(alloc, n),
            _ => Ok(0),
        }
    }
}
