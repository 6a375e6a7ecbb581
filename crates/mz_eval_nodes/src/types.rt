// The types of this crate.

use mz_base::Span;
use mz_eval_cells::Known;
use mz_eval_chains::Operator;

/// The operands of a chain of `++` so far: each operator with its left operand, and the last operand
/// with its place.
#[derive(Drop)]
pub struct Appended<'a> {
    pub lefts: Vec<(Operator<'a>, Known)>,
    pub place: Span,
    pub last: Known,
}
