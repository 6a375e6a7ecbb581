// The strongly connected components of a graph.

ghost use Rattle.std.specs.Prelude.{◌≡◌, ◌<◌, ◌^◌, map, IfOk};
ghost use Rattle.mz_graph.specs.Graph.{graph_of, IsGraph, AreComponents};
ghost use Rattle.mz_graph.specs.StepsSearch.{number};

use crate::search::{Search, Visit};
use std::alloc::{AllocError, Global};

/// The strongly connected components of a graph.
#[derive(Drop)]
pub struct Components {
    /// For each node the number of its component, from 0. No edge leads to a higher number.
    pub of: Vec<usize>,
    /// How many components there are.
    pub count: usize,
}

/// The number of a component that has one.
fn number(visit: Visit) -> usize
    ensures { result ≡ number visit }
{
    match visit {
        Visit::Numbered(number) => number,
        _ => 0,
    }
}

/// The numbers that these have.
fn numbers_of(alloc: Global, visits: &[Visit]) -> Result<Vec<usize>, AllocError>
    ensures { IfOk result (λ of. of.items ≡ map number visits.now) }
{
    let mut of = Vec::new(alloc);
    for visit in visits {
        of.push(number(*visit))?;
    }
    Ok(of)
}

/// The components of nodes that reach each other.
///
/// `graph` has for each node the nodes that its edges lead to. Time is linear in nodes and edges, and no call is nested.
pub fn components_of(alloc: Global, graph: &[Vec<usize>]) -> Result<Components, AllocError>
    requires { IsGraph (graph_of graph.now) }
    ensures components { IfOk result (λ r. AreComponents (graph_of graph.now) r.count r.of.items) }
    ensures few { IfOk result (λ r. r.count < 2 ^ 63) }
{
    let mut search = Search::new(alloc, graph.len())?;
    for x in 0..graph.len() {
        search.explore(graph, x)?;
    }
    let of = numbers_of(alloc, search.visits.as_slice())?;
    Ok(Components {
        of,
        count: search.leaders.len(),
    })
}
