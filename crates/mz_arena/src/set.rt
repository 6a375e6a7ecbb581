// The greatest sets of sets.

ghost use Rattle.std.specs.Prelude.{◌≡◌, ◌<◌, IfOk, OnErr, length, option_map};
ghost use Rattle.mz_interval.specs.Interval.{ends};
ghost use Rattle.mz_operations.specs.Sets.{union, intersection};
ghost use Rattle.mz_operations.specs.declared.row.SetOp.TheVariants.{Union, Intersect, Diff, Symdiff};
ghost use Rattle.mz_operations.specs.Laws.{IsSet};
ghost use Rattle.mz_arena.specs.Extents.{as_subset, ends_in, card_bounds, marked, both_truths, set_extent, set_variable_extent, variable_extent};
ghost use Rattle.mz_arena.specs.Places.{IsListedTable};
ghost use Rattle.mz_arena.specs.Tables.{Sets, set_at, entries, interval_in, IsPushedConst, known, TellsAny, IsPair, IsKept, IsPut, IsSoundTable, IsShort, TellsIn};

use crate::node::{Id, Node, NodeKind};
use crate::number::{hull, size};
use crate::table::{Reach, Stored, Table};
use mz_base::Memory;
use mz_interval::Interval;
use mz_value::RangeSet;
use std::alloc::{AllocError, Global};

impl Table {
    /// Puts a set into the table, and gives its place.
    pub(crate) fn keep(&mut self, set: RangeSet) -> Result<u64, AllocError>
        requires sound { IsSoundTable self.old }
        requires set { IsSet set }
        ensures kept { IsKept self.old self.new }
        ensures put { IfOk result (λ k. IsPut self.new k set) }
    {
        let k = self.sets.len() as u64;
        self.sets.push(set)?;
        Ok(k)
    }

    /// What one of two sets of the table has.
    pub(crate) fn union_at(&self, alloc: Global, k: u64, m: u64) -> Result<RangeSet, AllocError>
        requires sound { IsSoundTable self.now }
        requires first { k < length self.now.sets.items }
        requires second { m < length self.now.sets.items }
        ensures is { IfOk result (λ s. s ≡ union (set_at self.now.sets.items k) (set_at self.now.sets.items m)) }
        ensures set { IfOk result IsSet }
    {
        self.sets[k as usize].union(alloc, &self.sets[m as usize])
    }

    /// What both of two sets of the table have.
    pub(crate) fn intersection_at(
        &self,
        alloc: Global,
        k: u64,
        m: u64,
    ) -> Result<RangeSet, AllocError>
        requires sound { IsSoundTable self.now }
        requires first { k < length self.now.sets.items }
        requires second { m < length self.now.sets.items }
        ensures is { IfOk result (λ s. s ≡ intersection (set_at self.now.sets.items k) (set_at self.now.sets.items m)) }
        ensures set { IfOk result IsSet }
    {
        self.sets[k as usize].intersect(alloc, &self.sets[m as usize])
    }

    /// The bounds of the number of elements of a set.
    pub(crate) fn card(&self, a: Id) -> Option<Interval>
        requires { IsSoundTable self.now }
        ensures { option_map ends result ≡ card_bounds (as_subset (known self.now a)) }
    {
        let k = self.subset(a)?;
        size(&self.sets[k as usize])
    }

    /// The places of the greatest sets of two sets; `None` where one of the nodes is none.
    pub(crate) fn pair(&self, a: Id, b: Id) -> Option<(u64, u64)>
        requires { IsSoundTable self.now }
        ensures { IsPair self.now result (known self.now a) (known self.now b) }
    {
        let k = self.subset(a)?;
        let m = self.subset(b)?;
        Some((k, m))
    }

    /// Puts into the table what one of two of its sets has.
    pub(crate) fn joined(&mut self, alloc: Global, k: u64, m: u64) -> Result<u64, AllocError>
        requires sound { IsSoundTable self.old }
        requires first { k < length self.old.sets.items }
        requires second { m < length self.old.sets.items }
        ensures kept { IsKept self.old self.new }
        ensures put { IfOk result (λ p. IsPut self.new p (union (set_at self.old.sets.items k) (set_at self.old.sets.items m))) }
    {
        if k == m {
            return Ok(k);
        }
        let set = self.union_at(alloc, k, m)?;
        self.keep(set)
    }

    /// Puts into the table what both of two of its sets have.
    pub(crate) fn shared(&mut self, alloc: Global, k: u64, m: u64) -> Result<u64, AllocError>
        requires sound { IsSoundTable self.old }
        requires first { k < length self.old.sets.items }
        requires second { m < length self.old.sets.items }
        ensures kept { IsKept self.old self.new }
        ensures put { IfOk result (λ p. IsPut self.new p (intersection (set_at self.old.sets.items k) (set_at self.old.sets.items m))) }
    {
        let set = self.intersection_at(alloc, k, m)?;
        self.keep(set)
    }

    /// A union or a symmetric difference of sets.
    pub(crate) fn united(
        &mut self,
        alloc: Global,
        a: Id,
        b: Id,
    ) -> Result<Option<Reach>, AllocError>
        requires sound { IsSoundTable self.old }
        ensures kept { IsKept self.old self.new }
        ensures short { IfOk result IsShort }
        ensures told { IfOk result (λ r. TellsIn self.new r (set_extent Union (known self.old a) (known self.old b))) }
        ensures symdiff { IfOk result (λ r. TellsIn self.new r (set_extent Symdiff (known self.old a) (known self.old b))) }
    {
        let Some((k, m)) = self.pair(a, b) else {
            return Ok(None);
        };
        let place = self.joined(alloc, k, m)?;
        Ok(Some(Reach::Subset(place)))
    }

    /// An intersection of sets.
    pub(crate) fn intersected(
        &mut self,
        alloc: Global,
        a: Id,
        b: Id,
    ) -> Result<Option<Reach>, AllocError>
        requires sound { IsSoundTable self.old }
        ensures kept { IsKept self.old self.new }
        ensures short { IfOk result IsShort }
        ensures told { IfOk result (λ r. TellsIn self.new r (set_extent Intersect (known self.old a) (known self.old b))) }
    {
        let Some((k, m)) = self.pair(a, b) else {
            return Ok(None);
        };
        let place = self.shared(alloc, k, m)?;
        Ok(Some(Reach::Subset(place)))
    }

    /// A difference of sets, which has nothing that the first one hasn't.
    pub(crate) fn diff(&self, a: Id, b: Id) -> Option<Reach>
        requires { IsSoundTable self.now }
        ensures short { IsShort result }
        ensures told { TellsIn self.now result (set_extent Diff (known self.now a) (known self.now b)) }
    {
        let (k, _) = self.pair(a, b)?;
        Some(Reach::Subset(k))
    }

    /// A variable or a choice with this domain, Boolean where the mark is 1.
    pub(crate) fn variable(&self, mark: u64, a: Id) -> Option<Reach>
        requires { IsSoundTable self.now }
        ensures short { IsShort result }
        ensures told { TellsIn self.now result (variable_extent mark (known self.now a)) }
    {
        let k = self.subset(a)?;
        marked(mark, hull(&self.sets[k as usize]))
    }

    /// A set variable or a choice of a set.
    pub(crate) fn set_variable(&self, a: Id) -> Option<Reach>
        requires { IsSoundTable self.now }
        ensures short { IsShort result }
        ensures told { TellsIn self.now result (set_variable_extent (known self.now a)) }
    {
        let k = self.subset(a)?;
        Some(Reach::Subset(k))
    }

    /// Puts the set of a SetConst into the table, and gives its place.
    pub(crate) fn keep_const(&mut self, set: RangeSet) -> Result<u64, AllocError>
        requires { IsSoundTable self.old }
        ensures kept { IsKept self.old self.new }
        ensures put { IfOk result (λ k. IsPut self.new k set) }
    {
        let _ranges = set.ranges();
        self.keep(set)
    }

    /// Puts a SetConst with this set of the table into it.
    pub(crate) fn push_const(&mut self, place: u64) -> Result<Id, Memory>
        requires sound { IsSoundTable self.old }
        requires within { place < length self.old.sets.items }
        requires listed { IsListedTable self.old }
        ensures sound { IsSoundTable self.new }
        ensures listed { IsListedTable self.new }
        ensures pushed { IfOk result (IsPushedConst self.old self.new place) }
        ensures err { OnErr result (entries self.new.sets.items self.new.stored.items ≡ entries self.old.sets.items self.old.stored.items) }
    {
        if place >= 1 << 62 {
            return Err(Memory);
        }
        let node = Node {
            kind: NodeKind::SetConst,
            a: 0,
            b: 0,
            c: 0,
            number: place as i64,
        };
        let id = self.push(&Stored {
            node,
            reach: Reach::Subset(place),
            place: 0,
        })?;
        Ok(id)
    }

    /// The bounds of an integer or a Boolean; `None` where the node is none.
    pub(crate) fn interval(&self, id: Id) -> Option<Interval>
        requires { IsSoundTable self.now }
        ensures { option_map ends result ≡ ends_in (known self.now id) }
    {
        let reach = self.reach(id);
        interval_in(reach)
    }
}

fn interval_in(reach: Option<Reach>) -> Option<Interval>
    ensures { option_map ends result ≡ interval_in reach }
{
    match reach {
        Some(Reach::Whole(i)) => Some(i),
        Some(Reach::Truth(i)) => Some(i),
        _ => None,
    }
}

/// An integer where the mark is 0, and a Boolean where it is 1.
fn marked(mark: u64, hull: Interval) -> Option<Reach>
    ensures short { IsShort result }
    ensures told { (sets : Sets) → TellsAny sets result (marked mark (ends hull)) }
{
    if mark == 0 {
        Some(Reach::Whole(hull))
    } else if mark == 1 {
        both_truths(hull)
    } else {
        None
    }
}

fn both_truths(hull: Interval) -> Option<Reach>
    ensures short { IsShort result }
    ensures told { (sets : Sets) → TellsAny sets result (both_truths (ends hull)) }
{
    if hull.lo == 0 && hull.hi == 1 {
        Some(Reach::Truth(hull))
    } else {
        None
    }
}
