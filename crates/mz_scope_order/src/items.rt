// The functions, constraints and outputs of a model, and its goal.

ghost use Rattle.std.specs.Prelude.{◌≡◌, ◌++◌, IfOk, OnOk, map};
ghost use Rattle.std.specs.List.{flat_map};
ghost use Rattle.std.specs.Option.{option_map};
ghost use Rattle.mz_tree.specs.Items.{item as tree_of, goal as goal_tree};
ghost use Rattle.mz_scope_names.specs.StepsWalk.{items_of};
ghost use Rattle.mz_scope_order.specs.Parts.{function_in, constraint_in, output_in, goal_of};
ghost use Rattle.mz_scope_order.specs.Scoped.{asked, lent_function, lent_tree};
ghost use Rattle.mz_scope_order.specs.StepsParts.{goal_asked, first_goal};

use mz_base::Memory;
use mz_tree::{Expr, Function, Goal, Item, SourceFile};
use std::alloc::Global;

fn add_functions<'a>(out: &mut Vec<&'a Function>, items: &'a [Item]) -> Result<(), Memory>
    ensures { OnOk result (map lent_function out.new.items ≡ map lent_function out.old.items ++ flat_map (λ i. function_in (tree_of i)) items.now) }
{
    for item in items {
        if let Item::Function(f) = item {
            out.push(f)?;
        }
    }
    Ok(())
}

/// The functions of these files.
pub(crate) fn functions_of<'a>(
    alloc: Global,
    files: &'a [SourceFile],
) -> Result<Vec<&'a Function>, Memory>
    ensures { IfOk result (λ out. map lent_function out.items ≡ flat_map (λ f. flat_map (λ i. function_in (tree_of i)) f.items.items) files.now) }
{
    let mut out = Vec::new(alloc);
    for file in files {
        add_functions(&mut out, file.items.as_slice())?;
    }
    Ok(out)
}

fn add_constraints<'a>(out: &mut Vec<&'a Expr>, items: &'a [Item]) -> Result<(), Memory>
    ensures { OnOk result (map lent_tree out.new.items ≡ map lent_tree out.old.items ++ flat_map (λ i. constraint_in (tree_of i)) items.now) }
{
    for item in items {
        if let Item::Constraint(e) = item {
            out.push(e)?;
        }
    }
    Ok(())
}

/// The constraints of these files.
pub(crate) fn constraints_of<'a>(
    alloc: Global,
    files: &'a [SourceFile],
) -> Result<Vec<&'a Expr>, Memory>
    ensures { IfOk result (λ out. map lent_tree out.items ≡ flat_map (λ f. flat_map (λ i. constraint_in (tree_of i)) f.items.items) files.now) }
{
    let mut out = Vec::new(alloc);
    for file in files {
        add_constraints(&mut out, file.items.as_slice())?;
    }
    Ok(out)
}

fn add_outputs<'a>(out: &mut Vec<&'a Expr>, items: &'a [Item]) -> Result<(), Memory>
    ensures { OnOk result (map lent_tree out.new.items ≡ map lent_tree out.old.items ++ flat_map (λ i. output_in (tree_of i)) items.now) }
{
    for item in items {
        if let Item::Output(e) = item {
            out.push(e)?;
        }
    }
    Ok(())
}

/// The expressions of the output items of these files.
pub(crate) fn outputs_of<'a>(
    alloc: Global,
    files: &'a [SourceFile],
) -> Result<Vec<&'a Expr>, Memory>
    ensures { IfOk result (λ out. map lent_tree out.items ≡ flat_map (λ f. flat_map (λ i. output_in (tree_of i)) f.items.items) files.now) }
{
    let mut out = Vec::new(alloc);
    for file in files {
        add_outputs(&mut out, file.items.as_slice())?;
    }
    Ok(out)
}

/// What an item asks for, where it is a solve item.
fn goal_asked(item: &Item) -> Option<&Goal>
    ensures { option_map (λ g. goal_tree g.now) result ≡ goal_asked (tree_of item.now) }
{
    match item {
        Item::Solve(_, goal) => Some(goal),
        _ => None,
    }
}

/// The goal of the first solve item.
fn first_goal(items: &[Item]) -> Option<&Goal>
    ensures { option_map (λ g. goal_tree g.now) result ≡ first_goal (map tree_of items.now) }
{
    for item in items {
        if let Some(goal) = goal_asked(item) {
            return Some(goal);
        }
    }
    None
}

/// What the first solve item of these files asks for.
pub(crate) fn goal_of(files: &[SourceFile]) -> Option<&Goal>
    ensures { asked result ≡ goal_of (items_of files.now) }
{
    for file in files {
        if let Some(goal) = first_goal(file.items.as_slice()) {
            return Some(goal);
        }
    }
    None
}
