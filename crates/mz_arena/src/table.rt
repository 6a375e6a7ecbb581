// What is kept of the nodes: each with its bounds, and the sets and lists that they speak of.

ghost use Rattle.std.specs.Prelude.{◌≡◌, IfOk, OnErr, option_map, if◌then◌else◌, Some, None};
ghost use Rattle.mz_interval.specs.Interval.{ends};
ghost use Rattle.mz_arena.specs.Extents.{as_whole, as_truth, as_subset, as_wholes, is_truths, as_subsets, extent};
ghost use Rattle.mz_arena.specs.Tables.{entries, whole_in, truth_in, subset_place, single_in, row_in, sort_in, is_whole_list, is_truth_list, is_subset_list, IsPlaced, IsSound, TellsAny, IsSoundTable, TellsSingle, TellsRow, known, wholes_of, subsets_of, IsReady, IsPushed};
ghost use Rattle.mz_arena.specs.Places.{HasPlaces, IsListedTable};

use crate::node::{Id, Node, Sort};
use mz_arena_blocks::Blocks;
use mz_interval::Interval;
use mz_value::RangeSet;
use std::alloc::AllocError;

/// The bounds of a node.
#[derive(Clone, Copy)]
pub(crate) enum Reach {
    Whole(Interval),
    Truth(Interval),
    /// The place of the greatest set.
    Subset(u64),
    /// A list of integers, of Booleans, of sets, with an element.
    Wholes,
    Truths,
    Subsets,
    Empty,
}

/// The bounds of a node that is no list.
#[derive(Clone, Copy)]
pub(crate) enum Single {
    Whole(Interval),
    Truth(Interval),
    Subset(u64),
}

/// What a list has elements of.
#[derive(Clone, Copy)]
pub(crate) enum Row {
    Wholes,
    Truths,
    Subsets,
    Empty,
}

/// A node with its bounds.
#[derive(Clone, Copy)]
pub(crate) struct Stored {
    pub(crate) node: Node,
    pub(crate) reach: Reach,
    /// Where it is a list of integers or of sets: its place among these.
    pub(crate) place: u64,
}

#[derive(Drop)]
pub(crate) struct Table {
    pub(crate) stored: Vec<Stored>,
    pub(crate) sets: Vec<RangeSet>,
    /// The bounds of the elements of each list of integers, and the greatest sets of those of each
    /// list of sets, so that an access doesn't walk its list.
    pub(crate) wholes: Blocks<Interval>,
    pub(crate) subsets: Blocks<RangeSet>,
}

impl Table {
    /// What is kept of the node with this id; `None` where there is none.
    pub(crate) fn reach(&self, id: Id) -> Option<Reach>
        requires { IsSound self.now.sets.items self.now.stored.items }
        ensures { TellsAny self.now.sets.items result (extent (entries self.now.sets.items self.now.stored.items) id) }
    {
        if (id as usize) < self.stored.len() {
            Some(self.stored[id as usize].reach)
        } else {
            None
        }
    }

    /// The bounds of an integer; `None` where the node is none.
    pub(crate) fn whole(&self, id: Id) -> Option<Interval>
        requires { IsSound self.now.sets.items self.now.stored.items }
        ensures { option_map ends result ≡ as_whole (extent (entries self.now.sets.items self.now.stored.items) id) }
    {
        let reach = self.reach(id);
        whole_in(reach)
    }

    /// The bounds of a Boolean; `None` where the node is none.
    pub(crate) fn truth(&self, id: Id) -> Option<Interval>
        requires { IsSound self.now.sets.items self.now.stored.items }
        ensures { option_map ends result ≡ as_truth (extent (entries self.now.sets.items self.now.stored.items) id) }
    {
        let reach = self.reach(id);
        truth_in(reach)
    }

    /// The place of the greatest set of a set; `None` where the node is none.
    pub(crate) fn subset(&self, id: Id) -> Option<u64>
        requires { IsSound self.now.sets.items self.now.stored.items }
        ensures { IsPlaced self.now.sets.items result (as_subset (extent (entries self.now.sets.items self.now.stored.items) id)) }
    {
        let reach = self.reach(id);
        subset_place(reach)
    }

    /// The bounds of a node that is no list; `None` where it is none.
    pub(crate) fn single(&self, id: Id) -> Option<Single>
        requires { IsSoundTable self.now }
        ensures { TellsSingle self.now result (known self.now id) }
    {
        let reach = self.reach(id);
        single_in(reach)
    }

    /// What a list has elements of; `None` where the node is no list.
    pub(crate) fn row(&self, id: Id) -> Option<Row>
        requires { IsSoundTable self.now }
        ensures { TellsRow result (known self.now id) }
    {
        let reach = self.reach(id);
        row_in(reach)
    }

    /// Whether a node is a list of integers. So is the empty list.
    pub(crate) fn is_whole_list(&self, id: Id) -> bool
        requires { IsSoundTable self.now }
        ensures { (if result then Some (wholes_of self.now id) else None) ≡ as_wholes (known self.now id) }
    {
        let reach = self.reach(id);
        is_whole_list(reach)
    }

    /// Whether a node is a list of Booleans.
    pub(crate) fn is_truth_list(&self, id: Id) -> bool
        requires { IsSoundTable self.now }
        ensures { result ≡ is_truths (known self.now id) }
    {
        let reach = self.reach(id);
        is_truth_list(reach)
    }

    /// Whether a node is a list of sets.
    pub(crate) fn is_subset_list(&self, id: Id) -> bool
        requires { IsSoundTable self.now }
        ensures { (if result then Some (subsets_of self.now id) else None) ≡ as_subsets (known self.now id) }
    {
        let reach = self.reach(id);
        is_subset_list(reach)
    }

    /// Puts a node into the table, last, and gives its id.
    pub(crate) fn push(&mut self, stored: &Stored) -> Result<Id, AllocError>
        requires sound { IsSoundTable self.old }
        requires ready { IsReady self.old.sets.items self.old.stored.items stored.now }
        requires listed { IsListedTable self.old }
        requires places { HasPlaces self.old stored.now }
        ensures sound { IsSoundTable self.new }
        ensures listed { IsListedTable self.new }
        ensures pushed { IfOk result (IsPushed self.old self.new stored.now) }
        ensures err { OnErr result (entries self.new.sets.items self.new.stored.items ≡ entries self.old.sets.items self.old.stored.items) }
    {
        let id = self.stored.len() as u64;
        self.stored.push(*stored)?;
        Ok(id)
    }
}

pub(crate) fn sort_in(reach: Option<Reach>) -> Option<Sort>
    ensures { result ≡ sort_in reach }
{
    match reach {
        Some(Reach::Whole(_)) => Some(Sort::Integer),
        Some(Reach::Truth(_)) => Some(Sort::Boolean),
        Some(Reach::Subset(_)) => Some(Sort::Set),
        Some(_) => Some(Sort::List),
        None => None,
    }
}

fn single_in(reach: Option<Reach>) -> Option<Single>
    ensures { result ≡ single_in reach }
{
    match reach {
        Some(Reach::Whole(i)) => Some(Single::Whole(i)),
        Some(Reach::Truth(i)) => Some(Single::Truth(i)),
        Some(Reach::Subset(k)) => Some(Single::Subset(k)),
        _ => None,
    }
}

fn row_in(reach: Option<Reach>) -> Option<Row>
    ensures { result ≡ row_in reach }
{
    match reach {
        Some(Reach::Wholes) => Some(Row::Wholes),
        Some(Reach::Truths) => Some(Row::Truths),
        Some(Reach::Subsets) => Some(Row::Subsets),
        Some(Reach::Empty) => Some(Row::Empty),
        _ => None,
    }
}

fn is_whole_list(reach: Option<Reach>) -> bool
    ensures { result ≡ is_whole_list reach }
{
    match reach {
        Some(Reach::Wholes) => true,
        Some(Reach::Empty) => true,
        _ => false,
    }
}

fn is_truth_list(reach: Option<Reach>) -> bool
    ensures { result ≡ is_truth_list reach }
{
    match reach {
        Some(Reach::Truths) => true,
        Some(Reach::Empty) => true,
        _ => false,
    }
}

fn is_subset_list(reach: Option<Reach>) -> bool
    ensures { result ≡ is_subset_list reach }
{
    match reach {
        Some(Reach::Subsets) => true,
        Some(Reach::Empty) => true,
        _ => false,
    }
}

fn whole_in(reach: Option<Reach>) -> Option<Interval>
    ensures { option_map ends result ≡ whole_in reach }
{
    match reach {
        Some(Reach::Whole(i)) => Some(i),
        _ => None,
    }
}

fn truth_in(reach: Option<Reach>) -> Option<Interval>
    ensures { option_map ends result ≡ truth_in reach }
{
    match reach {
        Some(Reach::Truth(i)) => Some(i),
        _ => None,
    }
}

fn subset_place(reach: Option<Reach>) -> Option<u64>
    ensures { result ≡ subset_place reach }
{
    match reach {
        Some(Reach::Subset(k)) => Some(k),
        _ => None,
    }
}
