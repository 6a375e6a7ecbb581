// The types of this crate.

use crate::presences::Presence;
use mz_core::Base;
use mz_eval_arrays::Gathered;
use mz_eval_cells::{Known, VarItems};
use mz_eval_guards::Guard;
use mz_symbol::Symbol;
use mz_value::{RangeSet, Value};

/// The elements of a comprehension so far, and whether each set so far that counts is there.
#[derive(Drop)]
pub struct Made {
    pub cells: Gathered,
    pub whole: Guard,
}

/// An element of a generator, and whether it occurs.
#[derive(Drop)]
pub struct Turn {
    pub cell: Known,
    pub presence: Presence,
}

/// Which numbers of those that a generator's set may have it has.
#[derive(Clone, Copy)]
pub enum Members {
    /// All: the set is par.
    All,
    /// None: nothing tells the set's value.
    Nowhere,
    /// Those of the set that this symbol stands for.
    Of(Symbol),
}

/// What a generator runs over, in its order.
#[derive(Clone, Copy)]
pub enum Elements<'a> {
    Nothing,
    /// The numbers that a set may have, as integers or as cases of the enum with this number, and
    /// which of them it has.
    Numbers(Option<u64>, Members, &'a RangeSet),
    /// The elements of a par array.
    Values(&'a [Value]),
    /// The elements of a var array, whose type has this base, options or not.
    Places(Base, bool, &'a VarItems),
}

/// The elements of a generator that are left: those from a place on, of numbers those after the last
/// one that was given of the range at that place.
#[derive(Drop)]
pub struct Turns<'a> {
    pub(crate) elements: &'a Elements<'a>,
    pub(crate) place: usize,
    pub(crate) last: Option<i64>,
}
