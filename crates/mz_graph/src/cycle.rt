// Nodes whose edges lead back to them.

ghost use Rattle.std.specs.Prelude.{ℕ, ◌<◌, ◌≤◌, ◌↔◌, IsTrue, length, MatchOption, IfOk};
ghost use Rattle.mz_graph.specs.Graph.{graph_of, IsIn, IsGraph};
ghost use Rattle.mz_graph.specs.Depends.{IsFirstOnCycle, NoneOnCycle, HaveComponents};
ghost use Rattle.mz_graph.specs.StepsLayers.{LeadsWithin};

use crate::components_of;
use std::alloc::{AllocError, Global};

/// Whether one of these nodes has this number.
fn leads_within(heads: &[usize], of: &[usize], number: usize) -> bool
    requires { (y : ℕ) → IsIn y heads.now → y < length of.now }
    ensures { IsTrue result ↔ LeadsWithin heads.now of.now number }
{
    for y in heads {
        if of[*y] == number {
            return true;
        }
    }
    false
}

/// The first node from `from` on, before `till`, whose edges lead back to it; None where there is none.
pub fn first_on_cycle(
    alloc: Global,
    graph: &[Vec<usize>],
    from: usize,
    till: usize,
) -> Result<Option<usize>, AllocError>
    requires graph { IsGraph (graph_of graph.now) }
    requires till { till ≤ length (graph_of graph.now) }
    ensures found { IfOk result (λ found. MatchOption found (NoneOnCycle (graph_of graph.now) from till) (IsFirstOnCycle (graph_of graph.now) from till)) }
    ensures components { IfOk result (λ found. HaveComponents (graph_of graph.now)) }
{
    let parts = components_of(alloc, graph)?;
    for x in from..till {
        if leads_within(graph[x].as_slice(), parts.of.as_slice(), parts.of[x]) {
            return Ok(Some(x));
        }
    }
    Ok(None)
}
