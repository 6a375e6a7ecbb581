// The types of this crate.

use mz_arena::Id;
use mz_core::Base;
use mz_eval_cells::Known;
use mz_operations::ScalarRow;

/// An argument of a row: its cell, and what the type of its node says.
#[derive(Drop)]
pub struct Argument {
    pub cell: Known,
    pub base: Base,
    pub opt: bool,
}

/// What tells a number or a truth value.
#[derive(Clone, Copy)]
pub enum Operand {
    /// The node of a number.
    Number(Id),
    /// The node of a truth value, which is false where the node has no value.
    Truth(Id),
    /// An integer itself.
    Integer(i64),
}

/// A number or a truth value: what tells it, and the ends of its bounds.
#[derive(Clone, Copy)]
pub struct Number {
    pub operand: Operand,
    pub ends: (i64, i64),
}

/// A row of two numbers: what tells these, and the ends of its bounds.
#[derive(Clone, Copy)]
pub struct NumberRow {
    pub row: ScalarRow,
    pub left: Operand,
    pub right: Operand,
    pub ends: (i64, i64),
}
