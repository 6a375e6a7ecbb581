// Symbols, choices, and the elements of var arrays.

use mz_arena::Id;
use mz_core::Base;
use mz_value::RangeSet;

/// What stands for the value of a var cell that is no array.
///
/// A node alone doesn't tell true from 1, so `base` says what its number or its set stands for.
#[derive(Clone, Copy)]
pub struct Symbol {
    /// What the value is.
    pub base: Base,
    /// Of an option the Boolean node that is 1 where the value is there, or undefined. None for
    /// what is no option.
    pub occurs: Option<Id>,
    /// The node of the value: a Boolean as 0 or 1, a case by its number.
    pub term: Id,
}

/// A choice that was taken, whose nodes are Locals or SetLocals of their own.
#[derive(Drop)]
pub struct Free {
    /// What it is: of an option two choice nodes, else one.
    pub symbol: Symbol,
    /// The integers that its value may be, or that its set may have.
    pub set: RangeSet,
}

/// The Cons lists of an array's elements.
#[derive(Clone, Copy)]
pub struct Lists {
    /// What the value of each element is; any base where there is no element.
    pub base: Base,
    /// The list of the values' nodes.
    pub terms: Id,
    /// The list of the Boolean nodes that are 1 where an element is there. None where no element is
    /// an option.
    pub occurs: Option<Id>,
}

/// How far the Cons lists of an array's elements are made. They are made once.
#[derive(Clone, Copy)]
pub enum Listing {
    /// None is made.
    Wanted,
    /// Memory ran out while they were made.
    Begun,
    /// They are there.
    Made(Lists),
}

/// A var array without its index ranges.
#[derive(Drop)]
pub struct Line {
    /// The Boolean node that is 1 where the array is defined.
    pub defined: Id,
    /// Its elements, the last index moving first. Where the array is defined, each has a value.
    pub items: Vec<Symbol>,
    /// Its elements once more, as Cons lists.
    pub listing: Listing,
}
