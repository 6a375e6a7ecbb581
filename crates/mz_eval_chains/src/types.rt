// The types of this crate.

use mz_base::Span;
use mz_core::{Core, CoreStep};

/// An operator of a chain with the place of its node. `before` has further coercions of its left
/// operand, those round an expression, and `after` of its right one; they come first.
#[derive(Clone, Copy)]
pub struct Operator<'a> {
    pub at: Span,
    pub step: &'a CoreStep,
    pub before: Option<&'a Core>,
    pub operand: &'a Core,
    pub after: Option<&'a Core>,
}

/// A chain's innermost first operand, and its operators in order.
#[derive(Drop)]
pub struct Innermost<'a> {
    pub first: &'a Core,
    pub operators: Vec<Operator<'a>>,
}
