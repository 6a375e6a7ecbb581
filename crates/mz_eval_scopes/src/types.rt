// The types of this crate.

ghost use Rattle.std.specs.Prelude.{◌<◌, ◌^◌, ◌≤ℤ◌, pos};
ghost use Rattle.mz_value.specs.Ranges.{greatest};

use mz_core::Program;
use mz_eval_cells::Known;
use std::alloc::Global;

/// For each slot a value, or that it is undefined. A slot that was never set is undefined.
///
/// Elements of arrays, sets and texts are held here once, and are not copied where they are read.
#[derive(Drop)]
pub struct Env {
    pub(crate) alloc: Global,
    pub(crate) cells: Vec<Known>,
}

/// What stays the same in an evaluation: the program, the cells of its top-level names, the greatest
/// work, and how far a free `int` reaches from 0.
#[derive(Drop)]
pub struct World<'a> {
    pub program: &'a Program,
    pub env: &'a Env,
    pub budget: u64,
    pub int_range: i64,
    ghost small: { budget < 2 ^ 63 },
    ghost from_zero: { pos 0 ≤ℤ int_range },
    ghost in_limit: { int_range ≤ℤ greatest },
}

/// Where a free local may be evaluated: in a positive place, and in no other one.
#[derive(Clone, Copy)]
pub enum Context {
    /// No place is tested.
    Untested,
    Positive,
    Other,
}

/// The cells of the slots that are in scope: the top-level ones; one more; or several more, of which
/// the last of the same slot counts.
#[derive(Drop)]
pub enum Scope<'a> {
    Top,
    Bound(u64, &'a Known, &'a Scope<'a>),
    Frame(&'a [u64], &'a [Known], &'a Scope<'a>),
}
