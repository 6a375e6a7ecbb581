// Functions, their components and the declarations as one graph.

ghost use Rattle.std.specs.Prelude.{◌≡◌, ℕ, ◌+◌, ◌<◌, ◌^◌, ◌++◌, length, IfOk, OnOk};
ghost use Rattle.std.specs.List.{flat_map};
ghost use Rattle.mz_graph.specs.Graph.{graph_of, heads, IsIn, AreComponents, number_of};
ghost use Rattle.mz_graph.specs.Depends.{AllBelow, AreUses};
ghost use Rattle.mz_graph.specs.Members.{AreMembers};
ghost use Rattle.mz_graph.specs.StepsLayers.{other, raised, row_heads, in_layers, AreRows, AreLayers};

use crate::{Components, append_to, empty_rows};
use std::alloc::{AllocError, Global};

/// Adds the components of these functions, numbered from `first` on, but for the component `own`.
fn add_others(
    row: &mut Vec<usize>,
    functions: &[usize],
    of: &Vec<usize>,
    own: usize,
    first: usize,
) -> Result<(), AllocError>
    requires functions { (h : ℕ) → IsIn h functions.now → h < length of.now.items }
    requires components { (h : ℕ) → h < length of.now.items → first + number_of of.now.items h < 2 ^ 64 }
    ensures { OnOk result (row.new.items ≡ row.old.items ++ flat_map (other of.now.items own first) functions.now) }
{
    for h in functions {
        let number = of[*h];
        if number != own {
            row.push(first + number)?;
        }
    }
    Ok(())
}

/// Adds these declarations, numbered from `base` on.
fn add_raised(row: &mut Vec<usize>, decls: &[usize], base: usize) -> Result<(), AllocError>
    requires { (e : ℕ) → IsIn e decls.now → base + e < 2 ^ 64 }
    ensures { OnOk result (row.new.items ≡ row.old.items ++ raised base decls.now) }
{
    for e in decls {
        row.push(base + *e)?;
    }
    Ok(())
}

/// Where a function or a declaration leads that calls and mentions these.
fn row_of(
    alloc: Global,
    calls: &[usize],
    mentions: &[usize],
    of: &Vec<usize>,
    own: usize,
    first: usize,
    base: usize,
) -> Result<Vec<usize>, AllocError>
    requires calls { (h : ℕ) → IsIn h calls.now → h < length of.now.items }
    requires components { (h : ℕ) → h < length of.now.items → first + number_of of.now.items h < 2 ^ 64 }
    requires mentions { (e : ℕ) → IsIn e mentions.now → base + e < 2 ^ 64 }
    ensures { IfOk result (λ r. r.items ≡ row_heads calls.now mentions.now of.now.items own first base) }
{
    let mut row = Vec::new(alloc);
    add_others(&mut row, calls, of, own, first)?;
    add_raised(&mut row, mentions, base)?;
    Ok(row)
}

/// Where each of some functions or declarations leads. `own` has for each the number of a component that it doesn't lead to.
fn rows_of(
    alloc: Global,
    calls: &[Vec<usize>],
    mentions: &[Vec<usize>],
    of: &Vec<usize>,
    own: &Vec<usize>,
    first: usize,
    base: usize,
) -> Result<Vec<Vec<usize>>, AllocError>
    requires mentions { length (graph_of mentions.now) ≡ length (graph_of calls.now) }
    requires own { length own.now.items ≡ length (graph_of calls.now) }
    requires called { AllBelow (graph_of calls.now) (length of.now.items) }
    requires components { (h : ℕ) → h < length of.now.items → first + number_of of.now.items h < 2 ^ 64 }
    requires mentioned { (x e : ℕ) → IsIn e (heads (graph_of mentions.now) x) → base + e < 2 ^ 64 }
    ensures { IfOk result (λ v. AreRows (in_layers (graph_of calls.now) (graph_of mentions.now) of.now.items own.now.items first base) (length (graph_of calls.now)) (graph_of v.items)) }
{
    let mut rows = Vec::new(alloc);
    for x in 0..calls.len() {
        let row = row_of(
            alloc,
            calls[x].as_slice(),
            mentions[x].as_slice(),
            of,
            own[x],
            first,
            base,
        )?;
        rows.push(row)?;
    }
    Ok(rows)
}

/// For each of `count` sets its members. `of` has for each number the set that it is in.
pub fn members_of(
    alloc: Global,
    of: &Vec<usize>,
    count: usize,
) -> Result<Vec<Vec<usize>>, AllocError>
    requires { (f : ℕ) → f < length of.now.items → number_of of.now.items f < count }
    ensures { IfOk result (λ v. AreMembers of.now.items count (length of.now.items) (graph_of v.items)) }
{
    let mut members = empty_rows(alloc, count)?;
    for f in 0..of.len() {
        append_to(&mut members, of[f], f)?;
    }
    Ok(members)
}

/// One graph of the functions, then their components, then the declarations.
pub(crate) fn layers_of(
    alloc: Global,
    calls: &[Vec<usize>],
    mentions: &[Vec<usize>],
    decl_calls: &[Vec<usize>],
    decl_mentions: &[Vec<usize>],
    parts: &Components,
) -> Result<Vec<Vec<usize>>, AllocError>
    requires uses { AreUses (graph_of calls.now) (graph_of mentions.now) (graph_of decl_calls.now) (graph_of decl_mentions.now) }
    requires parts { AreComponents (graph_of calls.now) parts.now.count parts.now.of.items }
    requires few { parts.now.count < 2 ^ 63 }
    ensures { IfOk result (λ v. AreLayers (graph_of calls.now) (graph_of mentions.now) (graph_of decl_calls.now) (graph_of decl_mentions.now) parts.now.of.items (length (graph_of calls.now)) parts.now.count (length (graph_of decl_mentions.now)) (graph_of v.items)) }
{
    let first = calls.len();
    let count = parts.count;
    let base = first + count;
    let none = vec![in alloc; count; decl_calls.len()]?;
    let mut all = rows_of(alloc, calls, mentions, &parts.of, &parts.of, first, base)?;
    let mut members = members_of(alloc, &parts.of, count)?;
    let mut decls = rows_of(
        alloc,
        decl_calls,
        decl_mentions,
        &parts.of,
        &none,
        first,
        base,
    )?;
    all.append(&mut members)?;
    all.append(&mut decls)?;
    Ok(all)
}
