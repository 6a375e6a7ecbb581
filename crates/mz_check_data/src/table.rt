// The table of texts of a typed program.

ghost use Rattle.std.specs.Prelude.{◌≡◌, ◌<◌, [], All, IfOk, OnOk, length, map};
ghost use Rattle.mz_core.specs.TreeViews.{tree, decl};
ghost use Rattle.mz_core.specs.Program.{function, goal};
ghost use Rattle.mz_scope_names.specs.Sets.{with_name};
ghost use Rattle.mz_check_meaning.specs.Checks.{text_entry};
ghost use Rattle.mz_check_meaning.specs.Texts.{once};
ghost use Rattle.mz_check_data.specs.StepsLayers.{names_in};
ghost use Rattle.mz_check_data.specs.StepsTables.{entry};

use crate::program::names_in;
use mz_base::{Memory, Name, Names};
use mz_core::{Core, CoreDecl, CoreFunction, CoreGoal};
use mz_scope_names::NameSet;
use mz_value::TextValue;
use std::alloc::Global;

/// Adds a name, where it isn't there yet.
fn add_once(set: &mut NameSet, all: &mut Vec<Name>, n: Name) -> Result<(), Memory>
    requires { set.old ≡ all.old.items }
    ensures set { OnOk result (set.new ≡ all.new.items) }
    ensures names { OnOk result (all.new.items ≡ with_name all.old.items n) }
{
    if !set.has(n) {
        set.add(n)?;
        all.push(n)?;
    }
    Ok(())
}

/// These names, each once, where it is first.
#[tactic(auto, unfolding(mz_check_meaning::specs::Texts::once))]
fn once(alloc: Global, names: &[Name]) -> Result<Vec<Name>, Memory>
    ensures { IfOk result (λ v. v.items ≡ once [] names.now) }
{
    let mut set = NameSet::new(alloc);
    let mut all = Vec::new(alloc);
    for n in names {
        add_once(&mut set, &mut all, *n)?;
    }
    Ok(all)
}

/// A name with its text.
fn text_entry(alloc: Global, table: &Names, n: Name) -> Result<(Name, TextValue), Memory>
    requires { n < length table.now }
    ensures { IfOk result (λ e. entry e ≡ text_entry table.now n) }
{
    let text = String::from_str(alloc, table.text(n))?;
    Ok((n, TextValue { text }))
}

/// These names with their texts.
fn text_entries(
    alloc: Global,
    table: &Names,
    names: &[Name],
) -> Result<Vec<(Name, TextValue)>, Memory>
    requires { All (λ n. n < length table.now) names.now }
    ensures { IfOk result (λ v. map entry v.items ≡ map (text_entry table.now) names.now) }
{
    let mut all = Vec::new(alloc);
    for n in names {
        let e = text_entry(alloc, table, *n)?;
        all.push(e)?;
    }
    Ok(all)
}

/// The text of each text literal in the parts of a program, by its name, in the order in which they are first met.
pub fn texts_of(
    alloc: Global,
    table: &Names,
    decls: &[CoreDecl],
    functions: &[CoreFunction],
    constraints: &[Core],
    objective: &CoreGoal,
    outputs: &[Core],
) -> Result<Vec<(Name, TextValue)>, Memory>
    requires { All (λ n. n < length table.now) (names_in (map decl decls.now) (map function functions.now) (map tree constraints.now) (goal objective.now) (map tree outputs.now)) }
    ensures { IfOk result (λ v. map entry v.items ≡ map (text_entry table.now) (once [] (names_in (map decl decls.now) (map function functions.now) (map tree constraints.now) (goal objective.now) (map tree outputs.now)))) }
{
    let names = names_in(alloc, decls, functions, constraints, objective, outputs)?;
    let each = once(alloc, names.as_slice())?;
    let entries = text_entries(alloc, table, each.as_slice())?;
    Ok(entries)
}
