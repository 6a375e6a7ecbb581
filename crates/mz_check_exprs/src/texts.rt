// Operators before an expression, and texts with shown parts.

ghost use Rattle.std.specs.Prelude.{◌≡◌, ◌∷◌, [], codes, IfOk, map};
ghost use Rattle.mz_core.specs.Tree.{place_of};
ghost use Rattle.mz_core.specs.TreeViews.{tree};
ghost use Rattle.mz_check_meaning.specs.Models.{Model};
ghost use Rattle.mz_check_meaning.specs.Calls.{row_node};
ghost use Rattle.mz_check_meaning.specs.Chains.{prefix_name};
ghost use Rattle.mz_check_meaning.specs.Forms.{next_piece, group_right, texted};
ghost use Rattle.mz_check_meaning.specs.Passes.{Passes};
ghost use Rattle.mz_check_calls.specs.Views.{operand};
ghost use Rattle.mz_check_exprs.specs.StepsForms.{operand_by};

use mz_base::{Kind, Memory, Span, Stop};
use mz_check_calls::{Operand, appended, groups_right, prefix_name, row_node};
use mz_check_forms::{place_of, refusal};
use mz_core::Core;
use mz_tree::{BinOp, Expr, PlacedOp, UnOp};
use std::alloc::Global;

/// A prefix operator with its typed operand.
#[inline(never)]
pub(crate) fn prefixed(alloc: Global, span: Span, op: UnOp, e: Core) -> Result<Core, Stop>
    ensures { Passes tree result (row_node span (prefix_name op) (tree e ∷ [])) }
{
    let args = vec![in alloc; e]?;
    row_node(alloc, span, prefix_name(op), args)
}

/// What is shown in a text, as a text.
#[inline(never)]
pub(crate) fn shown(alloc: Global, e: Core) -> Result<Core, Stop>
    ensures { Passes tree result (row_node (place_of (tree e)) (codes "show") (tree e ∷ [])) }
{
    let span = place_of(&e);
    let args = vec![in alloc; e]?;
    row_node(alloc, span, "show", args)
}

/// Whether the operators of a chain group to the right.
pub(crate) fn group_right(rest: &[(PlacedOp, Expr)]) -> bool
    ensures { (m : Model) → result ≡ group_right (map (operand_by m) rest.now) }
{
    match rest {
        [] => false,
        [o, ..] => groups_right(o.0.op),
    }
}

/// Expressions as operands of `++`, each at its place.
fn concatenated(alloc: Global, es: Vec<Core>) -> Result<Vec<Operand>, Memory>
    ensures { IfOk result (λ v. map operand v.items ≡ map next_piece (map tree es.items)) }
{
    let mut all = Vec::new(alloc);
    for e in es {
        let operator = PlacedOp {
            op: BinOp::Concat,
            start: place_of(&e),
        };
        all.push(Operand { operator, tree: e })?;
    }
    Ok(all)
}

/// The text of typed pieces, from left to right. Syntax at it, where there is no piece, which no reader gives.
#[inline(never)]
pub(crate) fn texted(alloc: Global, span: Span, es: Vec<Core>) -> Result<Core, Stop>
    ensures { Passes tree result (texted span (map tree es.items)) }
{
    if es.is_empty() {
        return Err(refusal(Kind::Syntax, span));
    }
    let mut rest = es;
    let first = rest.remove(0);
    if rest.is_empty() {
        return Ok(first);
    }
    let operands = concatenated(alloc, rest)?;
    appended(alloc, span, first, operands)
}
