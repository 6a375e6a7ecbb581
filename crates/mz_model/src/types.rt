// The types of this crate.

ghost use Rattle.std.specs.Prelude.{◌<◌, ◌^◌, ◌≤ℤ◌, pos};
ghost use Rattle.mz_value.specs.Ranges.{greatest};

use mz_arena::Id;
use mz_core::Program;
use mz_eval_cells::Known;
use mz_eval_scopes::Env;
use mz_model_names::HeldName;

/// A program, the greatest work, and how far a free `int` reaches from 0.
#[derive(Drop)]
pub(crate) struct Task<'a> {
    pub(crate) program: &'a Program,
    pub(crate) budget: u64,
    pub(crate) int_range: i64,
    ghost small: { budget < 2 ^ 63 },
    ghost from_zero: { pos 0 ≤ℤ int_range },
    ghost in_limit: { int_range ≤ℤ greatest },
}

/// The names that are declared so far, whose slots count from 0, the cell of each slot, and how many
/// parts the names have.
#[derive(Drop)]
pub(crate) struct Names {
    pub(crate) list: Vec<HeldName>,
    pub(crate) env: Env,
    pub(crate) parts: u64,
}

/// A constraint in hand: its cell, and its roots; none where it is par and true.
#[derive(Drop)]
pub(crate) struct HeldConstraint {
    pub(crate) cell: Known,
    pub(crate) roots: Vec<Id>,
}
