// The order of turns in a graph.

ghost use Rattle.std.specs.Prelude.{length, IfOk};
ghost use Rattle.mz_graph.specs.Graph.{graph_of, IsGraph, Edge};
ghost use Rattle.mz_graph.specs.Order.{IsOrder};

use crate::turns::Turns;
use std::alloc::{AllocError, Global};

/// Nodes in the order of their turns: again and again the least one whose edges all lead to nodes that had theirs. A node
/// that never has its turn isn't in it.
///
/// `graph` has for each node the nodes that its edges lead to.
pub fn order_of(alloc: Global, graph: &[Vec<usize>]) -> Result<Vec<usize>, AllocError>
    requires { IsGraph (graph_of graph.now) }
    ensures { IfOk result (λ v. IsOrder (Edge (graph_of graph.now)) (length (graph_of graph.now)) v.items) }
{
    let mut turns = Turns::new(alloc, graph.len())?;
    turns.place_all(graph)?;
    'turns: loop {
        if !turns.turn(alloc, graph)? {
            break;
        }
    }
    Ok(turns.into_order())
}
