// The order of evaluation, and the first declaration that never has its turn.

ghost use Rattle.std.specs.Prelude.{◌≡◌, ℕ, ◌+◌, ◌<◌, IfOk, MatchOption};
ghost use Rattle.mz_graph.specs.Graph.{graph_of, IsIn};
ghost use Rattle.mz_graph.specs.Order.{IsComplete, IsFirstLeft};
ghost use Rattle.mz_graph.specs.Depends.{AreUses};
ghost use Rattle.mz_graph.specs.Evaluation.{IsEvaluation};
ghost use Rattle.mz_graph.specs.StepsLayers.{decls_in};

use crate::layers::layers_of;
use crate::{components_of, order_of};
use std::alloc::{AllocError, Global};

/// The order in which declarations are evaluated, or that there is none for all of them.
#[derive(Drop)]
pub enum Evaluation {
    /// The numbers of all declarations, in their order.
    Ordered(Vec<usize>),
    /// The number of the first declaration that never has its turn.
    Cyclic(usize),
}

/// The declarations of an order of all layers, which begin at `base`.
fn decls_of(alloc: Global, order: &[usize], base: usize) -> Result<Vec<usize>, AllocError>
    ensures { IfOk result (λ v. v.items ≡ decls_in base order.now) }
{
    let mut decls = Vec::new(alloc);
    for x in order {
        if *x >= base {
            decls.push(*x - base)?;
        }
    }
    Ok(decls)
}

/// The first of `count` declarations that an order leaves out.
fn first_left(alloc: Global, order: &[usize], count: usize) -> Result<Option<usize>, AllocError>
    requires { (x : ℕ) → IsIn x order.now → x < count }
    ensures { IfOk result (λ left. MatchOption left (IsComplete count order.now) (IsFirstLeft count order.now)) }
{
    let mut marks = vec![in alloc; false; count]?;
    for x in order {
        marks[*x] = true;
    }
    for d in 0..count {
        if !marks[d] {
            return Ok(Some(d));
        }
    }
    Ok(None)
}

/// Again and again the first declaration whose dependencies all had their turn, through the functions that it calls.
///
/// `calls` and `mentions` have for each function the functions that it calls and the declarations that it mentions, `decl_calls`
/// and `decl_mentions` the same for each declaration. Time grows as functions, declarations and what they name, times the
/// logarithm of their number.
pub fn evaluation_order(
    alloc: Global,
    calls: &[Vec<usize>],
    mentions: &[Vec<usize>],
    decl_calls: &[Vec<usize>],
    decl_mentions: &[Vec<usize>],
) -> Result<Evaluation, AllocError>
    requires { AreUses (graph_of calls.now) (graph_of mentions.now) (graph_of decl_calls.now) (graph_of decl_mentions.now) }
    ensures { IfOk result (IsEvaluation (graph_of calls.now) (graph_of mentions.now) (graph_of decl_calls.now) (graph_of decl_mentions.now)) }
{
    let parts = components_of(alloc, calls)?;
    let all = layers_of(alloc, calls, mentions, decl_calls, decl_mentions, &parts)?;
    let order = order_of(alloc, all.as_slice())?;
    let decls = decls_of(alloc, order.as_slice(), calls.len() + parts.count)?;
    match first_left(alloc, decls.as_slice(), decl_mentions.len())? {
        None => Ok(Evaluation::Ordered(decls)),
        Some(d) => Ok(Evaluation::Cyclic(d)),
    }
}
