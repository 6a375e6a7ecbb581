// The order of types.

ghost use Rattle.std.specs.Prelude.{◌≡◌, ℕ, ◌-◌, ◌+◌, ◌<◌, ◌≤◌, ◌++◌, length, map, IfOk, OnOk};
ghost use Rattle.mz_graph.specs.Graph.{graph_of, IsGraph, IsIn};
ghost use Rattle.mz_scope_order.specs.Subjects.{subject};
ghost use Rattle.mz_scope_order.specs.StepsSubjects.{StandOnce, ArePlaces, subject_at, subjects_in, AreSubjects};

use crate::subject::Subject;
use mz_base::Memory;
use mz_graph::order_of;
use std::alloc::Global;

/// For each of `count` numbers its place in the order, if it is there.
fn places_in(alloc: Global, order: &[usize], count: usize) -> Result<Vec<usize>, Memory>
    requires { StandOnce count order.now }
    ensures { IfOk result (λ at. ArePlaces count order.now at.items) }
{
    let mut at = vec![in alloc; 0; count]?;
    for i in 0..order.len() {
        at[order[i]] = i;
    }
    Ok(at)
}

/// Adds what a node of the graph of types is: the functions come first, then their names, and from `base` on the declarations,
/// whose numbers are turned to those in `at`.
fn add_subject(
    all: &mut Vec<Subject>,
    functions: usize,
    base: usize,
    at: &[usize],
    node: usize,
) -> Result<(), Memory>
    requires { node < base + length at.now }
    ensures { OnOk result (map subject all.new.items ≡ map subject all.old.items ++ subject_at functions base at.now node) }
{
    if node < functions {
        all.push(Subject::Function(node as u64))?;
        Ok(())
    } else if node < base {
        Ok(())
    } else {
        all.push(Subject::Decl(at[node - base] as u64))?;
        Ok(())
    }
}

/// The declarations and functions among these nodes, in their order.
fn subjects_in(
    alloc: Global,
    functions: usize,
    base: usize,
    at: &[usize],
    nodes: &[usize],
) -> Result<Vec<Subject>, Memory>
    requires { (x : ℕ) → IsIn x nodes.now → x < base + length at.now }
    ensures { IfOk result (λ v. map subject v.items ≡ subjects_in functions base at.now nodes.now) }
{
    let mut all = Vec::new(alloc);
    for node in nodes {
        add_subject(&mut all, functions, base, at, *node)?;
    }
    Ok(all)
}

/// The order of the graph of types, where the functions come first, then their names, and then `count` declarations: all
/// declarations and functions, a declaration by its place in `order`.
pub(crate) fn type_order(
    alloc: Global,
    types: &[Vec<usize>],
    functions: usize,
    count: usize,
    order: &[usize],
) -> Result<Vec<Subject>, Memory>
    requires graph { IsGraph (graph_of types.now) }
    requires counted { count ≤ length (graph_of types.now) }
    requires apart { StandOnce count order.now }
    ensures { IfOk result (λ v. AreSubjects (graph_of types.now) functions (length (graph_of types.now) - count) count order.now (map subject v.items)) }
{
    let nodes = order_of(alloc, types)?;
    let at = places_in(alloc, order, count)?;
    let base = types.len() - count;
    let subjects = subjects_in(alloc, functions, base, at.as_slice(), nodes.as_slice())?;
    Ok(subjects)
}
