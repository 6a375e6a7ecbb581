// The types of this crate.

use mz_arena::Id;
use mz_base::Name;
use mz_core::Base;
use mz_eval_cells::Known;
use mz_symbol::Free;

/// What a declared name is called, and what its values are.
#[derive(Clone, Copy)]
pub struct Label {
    pub slot: u64,
    pub name: Name,
    pub base: Base,
    pub opt: bool,
}

/// What is made for a name.
#[derive(Drop)]
pub enum Kind {
    /// Nothing: it is par.
    Par,
    /// A place.
    One(Free),
    /// The places of an array, the last index moving first, and its index ranges.
    Many(Vec<(i64, i64)>, Vec<Free>),
}

/// A declared name in hand.
#[derive(Drop)]
pub struct HeldName {
    pub label: Label,
    pub kind: Kind,
    pub cell: Known,
    /// Of a variable the cell of its value, if it is declared with one. A par name's value is its
    /// cell.
    pub value: Option<Known>,
    /// The Boolean nodes that are 1 where it has that value.
    pub roots: Vec<Id>,
}
