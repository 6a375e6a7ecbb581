// The arena: nodes by their ids.

ghost use Rattle.std.specs.Prelude.{◌≡◌, ◌+◌, ◌<◌, ◌≤◌, [], IfOk, IfSome, IsSome, OnErr, Some, false, length, option_map, slice_get, true};
ghost use Rattle.mz_interval.specs.Interval.{ends};

use crate::asked::{is_free, is_id, is_local, is_set_const};
use crate::node::{Id, Node, Sort};
use crate::table::{Stored, Table, sort_in};
use mz_arena_blocks::Blocks;
use mz_base::Memory;
use mz_interval::Interval;
use mz_value::RangeSet;
use std::alloc::Global;
use std::marker::Model;

/// Terms that share their parts: nodes, each with its id, its meaning and its bounds. An arena only
/// grows.
///
/// Contracts see it as the list of its nodes, each with its set, which is empty where the node is no
/// SetConst.
#[derive(Drop)]
pub struct Arena {
    table: Table,
    /// How many choices there are.
    choices: u64,
    alloc: Global,
}

impl Model for Arena {
    ghost use Rattle.std.specs.Prelude.{List};
    ghost use Rattle.mz_arena.specs.Entries.{Entry};
    ghost use Rattle.mz_arena.specs.Tables.{entries};
    ghost use Rattle.mz_arena.specs.StepsAsked.{IsSoundArena};

    ghost Value = { List Entry };

    ghost view = { λ s. entries s.table.sets.items s.table.stored.items };

    ghost invariant = { λ s. IsSoundArena s.table s.choices };
}

impl Arena {
    ghost use Rattle.mz_arena.specs.Entries.{entry, is_free};
    ghost use Rattle.mz_arena.specs.Extents.{extent, ends_in, sort_of};
    ghost use Rattle.mz_arena.specs.Charges.{charge_of, charges};
    ghost use Rattle.mz_arena.specs.Arenas.{IsArena, IsAsked, IsSetConst, Grew, Extends, Made, MadeAnew, HasAtMost, IsChecked, IsConst};
    ghost use Rattle.mz_arena.specs.StepsAsked.{is_own, is_next, is_free_node, may_stand, Puts};
    ghost use Rattle.mz_arena.specs.Numbering.{local_ids};

    /// An arena with no node.
    pub fn new(alloc: Global) -> Arena
        ensures { result ≡ [] }
    {
        Arena {
            table: Table {
                stored: Vec::new(alloc),
                sets: Vec::new(alloc),
                wholes: Blocks::new(alloc),
                subsets: Blocks::new(alloc),
            },
            choices: 0,
            alloc,
        }
    }

    /// How many nodes there are.
    pub fn len(&self) -> u64
        ensures count { result ≡ length self.now }
        ensures arena { IsArena self.now }
    {
        self.table.stored.len() as u64
    }

    /// The id of a node, which means that node in this arena and in each that goes on from it.
    ///
    /// The node's children are in the arena, of the sorts that its kind needs, and its bounds are in
    /// the limit. A variable or a choice has its own id as its number. After `Memory` the arena is
    /// unchanged.
    pub fn intern(&mut self, n: Node) -> Result<Id, Memory>
        requires { IsAsked self.old n }
        ensures grew { Grew self.old self.new }
        ensures made { IfOk result (Made self.new (entry n)) }
        ensures pushed { HasAtMost self.old self.new (entry n) }
        ensures frees { is_free n.kind ≡ false → Extends self.old self.new }
        ensures anew { is_free n.kind ≡ true → IfOk result (MadeAnew self.old self.new n) }
        ensures charged { charges self.new ≤ charges self.old + charge_of n.kind }
        ensures err { OnErr result (self.new ≡ self.old) }
    {
        match self.put(&n) {
            Ok(Some(id)) => Ok(id),
            Ok(None) => unreachable!(),
            Err(memory) => Err(memory),
        }
    }

    /// The id of a node, as `intern` gives it, and `None` exactly where the node isn't one that
    /// `intern` asks for. After `None` and after `Memory` the arena is unchanged.
    pub fn checked(&mut self, n: Node) -> Result<Option<Id>, Memory>
        ensures grew { Grew self.old self.new }
        ensures checked { IfOk result (IsChecked self.old self.new n) }
        ensures pushed { HasAtMost self.old self.new (entry n) }
        ensures frees { is_free n.kind ≡ false → Extends self.old self.new }
        ensures anew { is_free n.kind ≡ true → IfOk result (λ r. IfSome r (MadeAnew self.old self.new n)) }
        ensures charged { charges self.new ≤ charges self.old + charge_of n.kind }
        ensures err { OnErr result (self.new ≡ self.old) }
    {
        self.put(&n)
    }

    /// Puts a node into the arena, last, where it may be made.
    fn put(&mut self, n: &Node) -> Result<Option<Id>, Memory>
        ensures { Puts self.old self.new n.now result }
    {
        if !self.may_stand(n) {
            return Ok(None);
        }
        let Some(reach) = self.table.reach_of(self.alloc, n)? else {
            return Ok(None);
        };
        let place = self.table.add_list(self.alloc, n, &reach)?;
        let node = *n;
        let id = self.table.push(&Stored { node, reach, place })?;
        if is_local(n.kind) {
            self.choices += 1;
        }
        Ok(Some(id))
    }

    /// What is asked of a node, beside its bounds.
    fn may_stand(&self, n: &Node) -> bool
        ensures { result ≡ may_stand self.now n.now }
    {
        if is_set_const(n.kind) {
            return false;
        }
        if is_free(n.kind) {
            self.is_free_node(n)
        } else {
            true
        }
    }

    /// What is asked of a variable or a choice, beside its bounds.
    fn is_free_node(&self, n: &Node) -> bool
        ensures { result ≡ is_free_node self.now n.now }
    {
        self.is_own(n) && (self.table.is_const(n.a) && self.is_next(n))
    }

    /// Whether the node's number is the next id.
    fn is_own(&self, n: &Node) -> bool
        ensures { result ≡ is_own (length self.now) n.now }
    {
        is_id(&n.number, self.table.stored.len() as u64)
    }

    /// Whether a choice has the next number of a choice.
    fn is_next(&self, n: &Node) -> bool
        ensures { result ≡ is_next (length (local_ids self.now)) n.now }
    {
        if is_local(n.kind) {
            n.b == self.choices
        } else {
            true
        }
    }

    /// The id of a SetConst with this set. After `Memory` the arena is unchanged.
    pub fn set_const(&mut self, s: RangeSet) -> Result<Id, Memory>
        ensures extends { Extends self.old self.new }
        ensures made { IfOk result (IsConst self.new s) }
        ensures charged { charges self.new ≡ charges self.old }
        ensures err { OnErr result (self.new ≡ self.old) }
    {
        let place = self.table.keep_const(s)?;
        let id = self.table.push_const(place)?;
        Ok(id)
    }

    /// The node with this id.
    pub fn node(&self, id: Id) -> Node
        requires { id < length self.now }
        ensures { option_map (λ e. e.node) (slice_get self.now id) ≡ Some result }
    {
        self.table.stored[id as usize].node
    }

    /// Whether the node with this id is an integer, a Boolean, a set or a list.
    pub fn sort(&self, id: Id) -> Sort
        requires { id < length self.now }
        ensures { sort_of (extent self.now id) ≡ Some result }
    {
        match sort_in(self.table.reach(id)) {
            Some(sort) => sort,
            None => unreachable!(),
        }
    }

    /// The bounds of an integer, or of a Boolean as 0 or 1.
    pub fn bounds(&self, id: Id) -> Interval
        requires { IsSome (ends_in (extent self.now id)) }
        ensures { ends_in (extent self.now id) ≡ Some (ends result) }
    {
        match self.table.interval(id) {
            Some(bounds) => bounds,
            None => unreachable!(),
        }
    }

    /// The set of a SetConst.
    pub fn set(&self, id: Id) -> &RangeSet
        requires { IsSetConst self.now id }
        ensures { option_map (λ e. e.set) (slice_get self.now id) ≡ Some result.now }
    {
        match self.table.subset(id) {
            Some(place) => &self.table.sets[place as usize],
            None => unreachable!(),
        }
    }
}
