// A search for components, along a path of them.

ghost use Rattle.std.specs.Prelude.{◌≡◌, ◌-◌, ◌<◌, ◌≤◌, ℕ, [], ◌∷◌, length, IfOk, OnOk};
ghost use Rattle.mz_graph.specs.Graph.{Graph, graph_of, IsGraph};
ghost use Rattle.mz_graph.specs.StepsTurns.{AreBelow};
ghost use Rattle.mz_graph.specs.StepsSearch.{trail, visit_of, Holds, AllReach, left, IsNew, at, entered, BeginsPath, HasSamePath, StayVisited, AreVisits, AreNumbered, Stepped};
ghost use Rattle.mz_graph.specs.declared.search.Visit.TheVariants.{Unvisited, OnPath, Numbered};

use std::alloc::{AllocError, Global};

/// How far the search is with a node.
#[derive(Clone, Copy)]
pub enum Visit {
    Unvisited,
    /// On the path, at this place.
    OnPath(usize),
    /// In the component of this number.
    Numbered(usize),
}

/// A path of components: the nodes of each reach all of its own and of the later ones.
pub struct Search {
    pub visits: Vec<Visit>,
    /// The nodes of the path.
    pub path: Vec<usize>,
    /// Where the edges of the path lead that are still to be followed.
    pub work: Vec<usize>,
    /// For each component of the path where it begins on `path`.
    pub starts: Vec<usize>,
    /// For each component of the path where it begins on `work`.
    pub floors: Vec<usize>,
    /// A node of each component that has its number.
    pub leaders: Vec<usize>,
}

impl Drop for Search {
    fn drop(self) {
        let Search {
            visits: _visits,
            path: _path,
            work: _work,
            starts: _starts,
            floors: _floors,
            leaders: _leaders,
        } = self;
    }
}

/// Gives these nodes a number.
fn number_all(nodes: &[usize], visits: &mut Vec<Visit>, number: usize)
    requires { AreBelow (length visits.old.items) nodes.now }
    ensures { AreNumbered visits.old.items visits.new.items nodes.now number }
{
    for x in nodes {
        visits[*x] = Visit::Numbered(number);
    }
}

impl Search {
    /// None of `count` nodes is visited.
    pub fn new(alloc: Global, count: usize) -> Result<Search, AllocError>
        ensures { IfOk result (λ s. IsNew count (trail s)) }
    {
        let visits = vec![in alloc; Visit::Unvisited; count]?;
        Ok(Search {
            visits,
            path: Vec::new(alloc),
            work: Vec::new(alloc),
            starts: Vec::new(alloc),
            floors: Vec::new(alloc),
            leaders: Vec::new(alloc),
        })
    }

    /// Puts `x` on the path, as a component of its own.
    pub fn enter(&mut self, graph: &[Vec<usize>], x: usize) -> Result<(), AllocError>
        requires visits { x < length self.old.visits.items }
        requires counted { x < length (graph_of graph.now) }
        ensures { OnOk result (trail self.new ≡ entered (graph_of graph.now) x (trail self.old)) }
    {
        let start = self.path.len();
        let floor = self.work.len();
        self.visits[x] = Visit::OnPath(start);
        self.path.push(x)?;
        self.work.extend_from_slice(graph[x].as_slice())?;
        self.starts.push(start)?;
        self.floors.push(floor)?;
        Ok(())
    }

    /// Where the last component of the path begins on `path`.
    fn last_start(&self) -> usize
        requires { 0 < length self.now.starts.items }
        ensures { result ≡ at self.now.starts.items (length self.now.starts.items - 1) }
    {
        self.starts[self.starts.len() - 1]
    }

    /// Makes one component of those that reach back to the place `p` of the path.
    fn merge(&mut self, p: usize)
        requires begins { BeginsPath self.old.starts.items }
        requires paired { length self.old.floors.items ≡ length self.old.starts.items }
        ensures holds { (g : Graph) (y : ℕ) → Holds g (y ∷ []) (trail self.old) → visit_of self.old.visits.items y ≡ OnPath p → AllReach g (trail self.old) y → Holds g [] (trail self.new) }
        ensures path { HasSamePath (trail self.old) (trail self.new) }
    {
        while self.last_start() > p {
            self.starts.truncate(self.starts.len() - 1);
            self.floors.truncate(self.floors.len() - 1);
        }
    }

    /// Follows an edge to `y` from the last component of the path.
    fn follow(&mut self, graph: &[Vec<usize>], y: usize) -> Result<(), AllocError>
        requires counted { y < length (graph_of graph.now) }
        requires some { 0 < length self.old.path.items }
        requires holds { Holds (graph_of graph.now) (y ∷ []) (trail self.old) }
        requires reach { AllReach (graph_of graph.now) (trail self.old) y }
        ensures holds { OnOk result (Holds (graph_of graph.now) [] (trail self.new)) }
        ensures left { OnOk result (left (graph_of graph.now) (trail self.new) ≤ left (graph_of graph.now) (trail self.old)) }
        ensures visited { OnOk result (StayVisited self.old.visits.items self.new.visits.items) }
    {
        match self.visits[y] {
            Visit::Unvisited => self.enter(graph, y)?,
            Visit::OnPath(p) => self.merge(p),
            Visit::Numbered(_) => {}
        }
        Ok(())
    }

    /// Takes the last component off the path, and gives it the next number.
    fn settle(&mut self) -> Result<(), AllocError>
        requires some { 0 < length self.old.starts.items }
        requires paired { length self.old.floors.items ≡ length self.old.starts.items }
        requires inside { at self.old.starts.items (length self.old.starts.items - 1) < length self.old.path.items }
        requires visits { AreVisits self.old.visits.items self.old.path.items }
        requires idle { length self.old.work.items ≤ at self.old.floors.items (length self.old.floors.items - 1) }
        ensures holds { OnOk result ((g : Graph) → Holds g [] (trail self.old) → Holds g [] (trail self.new)) }
        ensures left { OnOk result ((g : Graph) → left g (trail self.new) < left g (trail self.old)) }
        ensures visited { OnOk result (StayVisited self.old.visits.items self.new.visits.items) }
    {
        let start = self.last_start();
        let number = self.leaders.len();
        number_all(&self.path[start..], &mut self.visits, number);
        self.leaders.push(self.path[start])?;
        self.path.truncate(start);
        self.starts.truncate(self.starts.len() - 1);
        self.floors.truncate(self.floors.len() - 1);
        Ok(())
    }

    /// Follows one edge, or gives a component its number; false where the path is empty.
    pub fn step(&mut self, graph: &[Vec<usize>]) -> Result<bool, AllocError>
        requires graph { IsGraph (graph_of graph.now) }
        requires holds { Holds (graph_of graph.now) [] (trail self.old) }
        ensures holds { OnOk result (Holds (graph_of graph.now) [] (trail self.new)) }
        ensures stepped { IfOk result (λ went. Stepped (graph_of graph.now) went (trail self.old) (trail self.new)) }
        ensures visited { OnOk result (StayVisited self.old.visits.items self.new.visits.items) }
    {
        let count = self.floors.len();
        if count == 0 {
            return Ok(false);
        }
        let length = self.work.len();
        if length > self.floors[count - 1] {
            let y = self.work[length - 1];
            self.work.truncate(length - 1);
            self.follow(graph, y)?;
        } else {
            self.settle()?;
        }
        Ok(true)
    }

    /// Numbers all that `x` reaches, where the path is empty.
    pub fn explore(&mut self, graph: &[Vec<usize>], x: usize) -> Result<(), AllocError>
        requires graph { IsGraph (graph_of graph.now) }
        requires counted { x < length (graph_of graph.now) }
        requires empty { length self.old.path.items ≡ 0 }
        requires holds { Holds (graph_of graph.now) [] (trail self.old) }
        ensures holds { OnOk result (Holds (graph_of graph.now) [] (trail self.new)) }
        ensures empty { OnOk result (length self.new.path.items ≡ 0) }
        ensures visited { OnOk result (StayVisited self.old.visits.items self.new.visits.items) }
        ensures explored { OnOk result (visit_of self.new.visits.items x ≡ Unvisited → ⊥) }
    {
        if let Visit::Unvisited = self.visits[x] {
            self.enter(graph, x)?;
            'steps: loop {
                if !self.step(graph)? {
                    break;
                }
            }
        }
        Ok(())
    }
}
