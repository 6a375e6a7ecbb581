// The graphs of dependencies: functions, then the names of functions, then declarations.

ghost use Rattle.std.specs.Prelude.{◌≡◌, ℕ, ◌+◌, ◌<◌, ◌^◌, ◌++◌, [], length, map, replicate, IfOk};
ghost use Rattle.mz_graph.specs.Graph.{graph_of, number_of};
ghost use Rattle.mz_scope_names.specs.Sketches.{sketch};
ghost use Rattle.mz_scope_order.specs.StepsGraphs.{call_rows, mention_rows, type_rows, HasMembers, HasMembersBetween, AreTables, AreGraphs};

use crate::listing::{call_rows, mention_rows, type_rows};
use crate::tables::Tables;
use mz_base::Memory;
use mz_graph::{empty_rows, members_of};
use mz_scope_names::Sketch;
use std::alloc::Global;

/// The graphs of dependencies.
pub(crate) struct Graphs {
    /// What each function calls, and then for each name of functions those that have it.
    pub calls: Vec<Vec<usize>>,
    /// The declarations that each function mentions.
    pub mentions: Vec<Vec<usize>>,
    /// What each declaration calls.
    pub decl_calls: Vec<Vec<usize>>,
    /// The declarations that each declaration mentions.
    pub decl_mentions: Vec<Vec<usize>>,
    /// What the types of functions and of declarations lead to.
    pub types: Vec<Vec<usize>>,
}

impl Drop for Graphs {
    fn drop(self) {
        let Graphs {
            calls: _calls,
            mentions: _mentions,
            decl_calls: _decl_calls,
            decl_mentions: _decl_mentions,
            types: _types,
        } = self;
    }
}

/// Two graphs, one after the other.
fn joined(mut front: Vec<Vec<usize>>, mut back: Vec<Vec<usize>>) -> Result<Vec<Vec<usize>>, Memory>
    ensures { IfOk result (λ v. graph_of v.items ≡ graph_of front.items ++ graph_of back.items) }
{
    front.append(&mut back)?;
    Ok(front)
}

/// A graph with, after it, the functions of each of `count` names.
fn with_members(
    alloc: Global,
    front: Vec<Vec<usize>>,
    numbers: &Vec<usize>,
    count: usize,
) -> Result<Vec<Vec<usize>>, Memory>
    requires { (f : ℕ) → f < length numbers.now.items → number_of numbers.now.items f < count }
    ensures { IfOk result (λ v. HasMembers (graph_of front.items) numbers.now.items count (graph_of v.items)) }
{
    let members = members_of(alloc, numbers, count)?;
    let all = joined(front, members)?;
    Ok(all)
}

/// A graph with, after it, `count` nodes that lead nowhere.
fn with_blanks(
    alloc: Global,
    front: Vec<Vec<usize>>,
    count: usize,
) -> Result<Vec<Vec<usize>>, Memory>
    ensures { IfOk result (λ v. graph_of v.items ≡ graph_of front.items ++ replicate count []) }
{
    let blank = empty_rows(alloc, count)?;
    let all = joined(front, blank)?;
    Ok(all)
}

/// What each function calls, and then for each of `count` names the functions that have it.
fn calls_of(
    tables: &Tables,
    alloc: Global,
    functions: &[Sketch],
    numbers: &Vec<usize>,
    first: usize,
    count: usize,
) -> Result<Vec<Vec<usize>>, Memory>
    requires room { first + (length tables.now.bare + length tables.now.applied) < 2 ^ 64 }
    requires numbers { (f : ℕ) → f < length numbers.now.items → number_of numbers.now.items f < count }
    ensures { IfOk result (λ v. HasMembers (call_rows first tables.now.bare tables.now.applied (map sketch functions.now)) numbers.now.items count (graph_of v.items)) }
{
    let own = call_rows(tables, alloc, functions, first)?;
    let all = with_members(alloc, own, numbers, count)?;
    Ok(all)
}

/// The declarations that each function mentions, and then `count` nodes that lead nowhere.
fn mentions_of(
    tables: &Tables,
    alloc: Global,
    functions: &[Sketch],
    count: usize,
) -> Result<Vec<Vec<usize>>, Memory>
    ensures { IfOk result (λ v. graph_of v.items ≡ mention_rows tables.now.decls (map sketch functions.now) ++ replicate count []) }
{
    let own = mention_rows(tables, alloc, functions)?;
    let all = with_blanks(alloc, own, count)?;
    Ok(all)
}

/// What the types of functions lead to, then for each of `count` names the functions that have it, then what the types of
/// declarations lead to.
fn types_of(
    tables: &Tables,
    alloc: Global,
    decls: &[Sketch],
    functions: &[Sketch],
    numbers: &Vec<usize>,
    first: usize,
    count: usize,
    base: usize,
) -> Result<Vec<Vec<usize>>, Memory>
    requires first { first + (length tables.now.bare + length tables.now.applied) < 2 ^ 64 }
    requires base { base + length tables.now.decls < 2 ^ 64 }
    requires numbers { (f : ℕ) → f < length numbers.now.items → number_of numbers.now.items f < count }
    ensures { IfOk result (λ v. HasMembersBetween (type_rows first base tables.now.bare tables.now.applied tables.now.decls (map sketch functions.now)) numbers.now.items count (type_rows first base tables.now.bare tables.now.applied tables.now.decls (map sketch decls.now)) (graph_of v.items)) }
{
    let own = type_rows(tables, alloc, functions, first, base)?;
    let front = with_members(alloc, own, numbers, count)?;
    let back = type_rows(tables, alloc, decls, first, base)?;
    let all = joined(front, back)?;
    Ok(all)
}

/// The graphs of dependencies, by the names that uses are looked up in and the number of each function's name.
fn graphs_by(
    tables: &Tables,
    alloc: Global,
    decls: &[Sketch],
    functions: &[Sketch],
    numbers: &Vec<usize>,
) -> Result<Graphs, Memory>
    requires { AreTables (map sketch decls.now) (map sketch functions.now) tables.now.bare tables.now.applied tables.now.decls numbers.now.items }
    ensures { IfOk result (λ g. AreGraphs (map sketch decls.now) (map sketch functions.now) (graph_of g.calls.items) (graph_of g.mentions.items) (graph_of g.decl_calls.items) (graph_of g.decl_mentions.items) (graph_of g.types.items)) }
{
    let first = functions.len();
    let count = tables.count();
    let base = first + count;
    let calls = calls_of(tables, alloc, functions, numbers, first, count)?;
    let mentions = mentions_of(tables, alloc, functions, count)?;
    let types = types_of(tables, alloc, decls, functions, numbers, first, count, base)?;
    let decl_calls = call_rows(tables, alloc, decls, first)?;
    let decl_mentions = mention_rows(tables, alloc, decls)?;
    Ok(Graphs {
        calls,
        mentions,
        decl_calls,
        decl_mentions,
        types,
    })
}

/// The graphs of dependencies.
pub(crate) fn graphs_of(
    alloc: Global,
    decls: &[Sketch],
    functions: &[Sketch],
) -> Result<Graphs, Memory>
    ensures { IfOk result (λ g. AreGraphs (map sketch decls.now) (map sketch functions.now) (graph_of g.calls.items) (graph_of g.mentions.items) (graph_of g.decl_calls.items) (graph_of g.decl_mentions.items) (graph_of g.types.items)) }
{
    let tables = Tables::of(alloc, decls, functions)?;
    let numbers = tables.numbers(alloc, functions)?;
    let graphs = graphs_by(&tables, alloc, decls, functions, &numbers)?;
    Ok(graphs)
}
