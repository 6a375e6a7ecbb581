// What declarations and functions use, as lists of nodes.

ghost use Rattle.std.specs.Prelude.{◌≡◌, ◌+◌, ◌<◌, ◌^◌, ◌++◌, length, map, IfOk, OnOk};
ghost use Rattle.mz_graph.specs.Graph.{graph_of};
ghost use Rattle.mz_scope_names.specs.Sketches.{sketch, all_of};
ghost use Rattle.mz_scope_order.specs.StepsPlaces.{callee, mentioned, raised_from, callees_in, mentions_in};
ghost use Rattle.mz_scope_order.specs.StepsGraphs.{call_rows, mention_rows, type_rows};

use crate::tables::Tables;
use mz_base::Memory;
use mz_scope_names::{NameUse, Sketch};
use std::alloc::Global;

/// Adds the name of a function that a use means, numbered from `first` on.
fn add_callee(tables: &Tables, row: &mut Vec<usize>, u: NameUse, first: usize) -> Result<(), Memory>
    requires { first + (length tables.now.bare + length tables.now.applied) < 2 ^ 64 }
    ensures { OnOk result (row.new.items ≡ row.old.items ++ raised_from first (callee tables.now.bare tables.now.applied u)) }
{
    if let Some(k) = tables.callee(u) {
        row.push(first + k)?;
    }
    Ok(())
}

/// Adds the names of functions that are used, numbered from `first` on.
fn add_callees(
    tables: &Tables,
    row: &mut Vec<usize>,
    uses: &[NameUse],
    first: usize,
) -> Result<(), Memory>
    requires { first + (length tables.now.bare + length tables.now.applied) < 2 ^ 64 }
    ensures { OnOk result (row.new.items ≡ row.old.items ++ callees_in first tables.now.bare tables.now.applied uses.now) }
{
    for u in uses {
        add_callee(tables, row, *u, first)?;
    }
    Ok(())
}

/// Adds the declaration that a use mentions, numbered from `base` on.
fn add_mention(tables: &Tables, row: &mut Vec<usize>, u: NameUse, base: usize) -> Result<(), Memory>
    requires { base + length tables.now.decls < 2 ^ 64 }
    ensures { OnOk result (row.new.items ≡ row.old.items ++ raised_from base (mentioned tables.now.decls u)) }
{
    if let Some(k) = tables.mentioned(u) {
        row.push(base + k)?;
    }
    Ok(())
}

/// Adds the declarations that are used, numbered from `base` on.
fn add_mentions(
    tables: &Tables,
    row: &mut Vec<usize>,
    uses: &[NameUse],
    base: usize,
) -> Result<(), Memory>
    requires { base + length tables.now.decls < 2 ^ 64 }
    ensures { OnOk result (row.new.items ≡ row.old.items ++ mentions_in base tables.now.decls uses.now) }
{
    for u in uses {
        add_mention(tables, row, *u, base)?;
    }
    Ok(())
}

fn call_row(tables: &Tables, alloc: Global, o: &Sketch, first: usize) -> Result<Vec<usize>, Memory>
    requires { first + (length tables.now.bare + length tables.now.applied) < 2 ^ 64 }
    ensures { IfOk result (λ r. r.items ≡ callees_in first tables.now.bare tables.now.applied (all_of (sketch o.now))) }
{
    let mut row = Vec::new(alloc);
    add_callees(tables, &mut row, o.types.as_slice(), first)?;
    add_callees(tables, &mut row, o.rest.as_slice(), first)?;
    Ok(row)
}

fn mention_row(tables: &Tables, alloc: Global, o: &Sketch) -> Result<Vec<usize>, Memory>
    ensures { IfOk result (λ r. r.items ≡ mentions_in 0 tables.now.decls (all_of (sketch o.now))) }
{
    let _count = tables.decls.len();
    let mut row = Vec::new(alloc);
    add_mentions(tables, &mut row, o.types.as_slice(), 0)?;
    add_mentions(tables, &mut row, o.rest.as_slice(), 0)?;
    Ok(row)
}

fn type_row(
    tables: &Tables,
    alloc: Global,
    o: &Sketch,
    first: usize,
    base: usize,
) -> Result<Vec<usize>, Memory>
    requires first { first + (length tables.now.bare + length tables.now.applied) < 2 ^ 64 }
    requires base { base + length tables.now.decls < 2 ^ 64 }
    ensures { IfOk result (λ r. r.items ≡ callees_in first tables.now.bare tables.now.applied (sketch o.now).types ++ mentions_in base tables.now.decls (sketch o.now).types) }
{
    let mut row = Vec::new(alloc);
    add_callees(tables, &mut row, o.types.as_slice(), first)?;
    add_mentions(tables, &mut row, o.types.as_slice(), base)?;
    Ok(row)
}

/// For each of these the names of functions that it uses, numbered from `first` on.
pub(crate) fn call_rows(
    tables: &Tables,
    alloc: Global,
    sketches: &[Sketch],
    first: usize,
) -> Result<Vec<Vec<usize>>, Memory>
    requires { first + (length tables.now.bare + length tables.now.applied) < 2 ^ 64 }
    ensures { IfOk result (λ v. graph_of v.items ≡ call_rows first tables.now.bare tables.now.applied (map sketch sketches.now)) }
{
    let mut rows = Vec::new(alloc);
    for o in sketches {
        let row = call_row(tables, alloc, o, first)?;
        rows.push(row)?;
    }
    Ok(rows)
}

/// For each of these the declarations that it mentions.
pub(crate) fn mention_rows(
    tables: &Tables,
    alloc: Global,
    sketches: &[Sketch],
) -> Result<Vec<Vec<usize>>, Memory>
    ensures { IfOk result (λ v. graph_of v.items ≡ mention_rows tables.now.decls (map sketch sketches.now)) }
{
    let mut rows = Vec::new(alloc);
    for o in sketches {
        let row = mention_row(tables, alloc, o)?;
        rows.push(row)?;
    }
    Ok(rows)
}

/// For each of these what its types use: names of functions, numbered from `first` on, and declarations, numbered from `base`
/// on.
pub(crate) fn type_rows(
    tables: &Tables,
    alloc: Global,
    sketches: &[Sketch],
    first: usize,
    base: usize,
) -> Result<Vec<Vec<usize>>, Memory>
    requires first { first + (length tables.now.bare + length tables.now.applied) < 2 ^ 64 }
    requires base { base + length tables.now.decls < 2 ^ 64 }
    ensures { IfOk result (λ v. graph_of v.items ≡ type_rows first base tables.now.bare tables.now.applied tables.now.decls (map sketch sketches.now)) }
{
    let mut rows = Vec::new(alloc);
    for o in sketches {
        let row = type_row(tables, alloc, o, first, base)?;
        rows.push(row)?;
    }
    Ok(rows)
}
