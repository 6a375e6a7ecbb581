// Nodes that wait for their turn, each for one head of its edges that had none yet.

ghost use Rattle.std.specs.Prelude.{◌≡◌, ◌-◌, ◌<◌, ℕ, List, [], ◌∷◌, length, IfOk, OnOk};
ghost use Rattle.mz_graph.specs.Graph.{heads, graph_of, IsGraph};
ghost use Rattle.mz_graph.specs.StepsTurns.{line, HasRows, Stands, IsFirstPending, AreBelow, from_on, Turned, IsNew};

use crate::rows::{append_to, empty_rows, take_row};
use std::alloc::{AllocError, Global};
use std::collections::BTreeSet;

/// Nodes that wait for their turn.
pub struct Turns {
    /// For each node how many of its heads are known to be done: those before it in its list.
    pub passed: Vec<usize>,
    /// For each node those that wait for it.
    pub waiting: Vec<Vec<usize>>,
    pub done: Vec<bool>,
    pub ready: BTreeSet<usize>,
    pub order: Vec<usize>,
}

impl Drop for Turns {
    fn drop(self) {
        let Turns {
            passed: _passed,
            waiting: _waiting,
            done: _done,
            ready: _ready,
            order: _order,
        } = self;
    }
}

/// The place, from `from` on, of the first head that had no turn.
fn first_pending(heads: &[usize], done: &[bool], from: usize) -> Option<usize>
    requires { AreBelow (length done.now) heads.now }
    ensures { IsFirstPending heads.now done.now from result }
{
    for k in from..heads.len() {
        if !done[heads[k]] {
            return Some(k);
        }
    }
    None
}

impl Turns {
    /// None of `count` nodes has a place.
    pub fn new(alloc: Global, count: usize) -> Result<Turns, AllocError>
        ensures rows { IfOk result (λ t. HasRows count (line t)) }
        ensures fresh { IfOk result (λ t. IsNew count (line t)) }
    {
        let passed = vec![in alloc; 0; count]?;
        let waiting = empty_rows(alloc, count)?;
        let done = vec![in alloc; false; count]?;
        Ok(Turns {
            passed,
            waiting,
            done,
            ready: BTreeSet::new(alloc),
            order: Vec::new(alloc),
        })
    }

    /// The nodes that had their turn, in this order.
    pub fn into_order(self) -> Vec<usize>
        ensures { result ≡ self.order }
    {
        let Turns {
            passed: _passed,
            waiting: _waiting,
            done: _done,
            ready: _ready,
            order,
        } = self;
        order
    }

    /// Makes `x` ready, or lets it wait for the first of its heads that had no turn.
    pub fn place(&mut self, graph: &[Vec<usize>], x: usize) -> Result<(), AllocError>
        requires graph { IsGraph (graph_of graph.now) }
        requires rows { HasRows (length (graph_of graph.now)) (line self.old) }
        requires counted { x < length (graph_of graph.now) }
        ensures rows { OnOk result (HasRows (length (graph_of graph.now)) (line self.new)) }
        ensures stands { OnOk result ((todo : List ℕ) → Stands (graph_of graph.now) (x ∷ todo) (line self.old) → Stands (graph_of graph.now) todo (line self.new)) }
        ensures done { OnOk result (self.new.done.items ≡ self.old.done.items) }
    {
        let row = graph[x].as_slice();
        match first_pending(row, self.done.as_slice(), self.passed[x]) {
            Some(k) => {
                self.passed[x] = k;
                append_to(&mut self.waiting, row[k], x)?;
            }
            None => {
                self.ready.insert(x)?;
            }
        }
        Ok(())
    }

    /// Gives each node its place.
    pub fn place_all(&mut self, graph: &[Vec<usize>]) -> Result<(), AllocError>
        requires graph { IsGraph (graph_of graph.now) }
        requires rows { HasRows (length (graph_of graph.now)) (line self.old) }
        requires stands { Stands (graph_of graph.now) (from_on 0 (length (graph_of graph.now))) (line self.old) }
        ensures rows { OnOk result (HasRows (length (graph_of graph.now)) (line self.new)) }
        ensures stands { OnOk result (Stands (graph_of graph.now) [] (line self.new)) }
    {
        for x in 0..graph.len() {
            self.place(graph, x)?;
        }
        Ok(())
    }

    /// Gives the least ready node its turn, and a new place to those that waited for it; false where none is ready.
    pub fn turn(&mut self, alloc: Global, graph: &[Vec<usize>]) -> Result<bool, AllocError>
        requires graph { IsGraph (graph_of graph.now) }
        requires rows { HasRows (length (graph_of graph.now)) (line self.old) }
        requires stands { Stands (graph_of graph.now) [] (line self.old) }
        ensures rows { OnOk result (HasRows (length (graph_of graph.now)) (line self.new)) }
        ensures stands { OnOk result (Stands (graph_of graph.now) [] (line self.new)) }
        ensures turned { IfOk result (λ went. Turned went (line self.old) (line self.new)) }
    {
        let Some(x) = self.ready.pop_first() else {
            return Ok(false);
        };
        let waited = take_row(alloc, &mut self.waiting, x);
        self.done[x] = true;
        self.order.push(x)?;
        for y in &waited {
            self.place(graph, *y)?;
        }
        Ok(true)
    }
}
