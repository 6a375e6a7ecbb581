// The occurrences of names in the items of a model's files.

ghost use Rattle.std.specs.Prelude.{◌≡◌, ◌++◌, OnOk, map};
ghost use Rattle.std.specs.List.{flat_map};
ghost use Rattle.std.specs.Option.{option_map};
ghost use Rattle.mz_tree.specs.Views.{declaration};
ghost use Rattle.mz_tree.specs.Items.{item as tree_of, goal as goal_tree, function_of, function};
ghost use Rattle.mz_scope_names.specs.Occurrences.{in_parameter, in_top, in_goal, of_case, of_cases, of_function, in_item};

use crate::occurrence::{Occurrence, Role, note};
use crate::walk::{in_expression, in_type};
use mz_base::{Memory, Name, Span};
use mz_tree::{Decl, Function, Goal, Item, SourceFile};

/// Adds the occurrences of a parameter.
fn in_parameter(out: &mut Vec<Occurrence>, d: &Decl) -> Result<(), Memory>
    ensures { OnOk result (out.new.items ≡ out.old.items ++ in_parameter (declaration d.now)) }
{
    in_type(out, &d.ty)?;
    note(out, Role::Local, d.name, d.span)?;
    match &d.value {
        Some(value) => in_expression(out, value),
        None => Ok(()),
    }
}

fn in_parameters(out: &mut Vec<Occurrence>, params: &[Decl]) -> Result<(), Memory>
    ensures { OnOk result (out.new.items ≡ out.old.items ++ flat_map (λ d. in_parameter (declaration d)) params.now) }
{
    for d in params {
        in_parameter(out, d)?;
    }
    Ok(())
}

/// Adds the occurrences of a declaration at top level.
fn in_top(out: &mut Vec<Occurrence>, d: &Decl) -> Result<(), Memory>
    ensures { OnOk result (out.new.items ≡ out.old.items ++ in_top (declaration d.now)) }
{
    in_type(out, &d.ty)?;
    note(out, Role::Declared, d.name, d.span)?;
    match &d.value {
        Some(value) => {
            note(out, Role::Valued, d.name, d.span)?;
            in_expression(out, value)
        }
        None => {
            if d.ty.var {
                Ok(())
            } else {
                note(out, Role::Wanting, d.name, d.span)
            }
        }
    }
}

/// Adds a case.
pub(crate) fn in_case(out: &mut Vec<Occurrence>, name: Name, span: Span) -> Result<(), Memory>
    ensures { OnOk result (out.new.items ≡ out.old.items ++ of_case (name, span)) }
{
    note(out, Role::Declared, name, span)?;
    note(out, Role::Valued, name, span)
}

fn in_cases(out: &mut Vec<Occurrence>, cases: &[(Name, Span)]) -> Result<(), Memory>
    ensures { OnOk result (out.new.items ≡ out.old.items ++ flat_map of_case cases.now) }
{
    for case in cases {
        in_case(out, case.0, case.1)?;
    }
    Ok(())
}

/// Adds an enum's name, and its cases where its item lists them.
fn in_enum(
    out: &mut Vec<Occurrence>,
    name: Name,
    span: Span,
    cases: &Option<Vec<(Name, Span)>>,
) -> Result<(), Memory>
    ensures { OnOk result (out.new.items ≡ out.old.items ++ of_cases name span (option_map (λ v. v.items) cases.now)) }
{
    match cases {
        Some(cases) => {
            note(out, Role::Valued, name, span)?;
            in_cases(out, cases.as_slice())
        }
        None => note(out, Role::Caseless, name, span),
    }
}

/// Adds the name of a function.
fn in_name(out: &mut Vec<Occurrence>, f: &Function) -> Result<(), Memory>
    ensures { OnOk result (out.new.items ≡ out.old.items ++ of_function f.now.name f.now.span (map declaration f.now.params.items)) }
{
    if f.params.is_empty() {
        in_case(out, f.name, f.span)
    } else {
        note(out, Role::Overloaded, f.name, f.span)
    }
}

fn in_function(out: &mut Vec<Occurrence>, f: &Function) -> Result<(), Memory>
    ensures { OnOk result (out.new.items ≡ out.old.items ++ in_item (function (function_of f.now))) }
{
    in_type(out, &f.result)?;
    in_name(out, f)?;
    in_parameters(out, f.params.as_slice())?;
    in_expression(out, &f.body)
}

fn in_goal(out: &mut Vec<Occurrence>, goal: &Goal) -> Result<(), Memory>
    ensures { OnOk result (out.new.items ≡ out.old.items ++ in_goal (goal_tree goal.now)) }
{
    match goal {
        Goal::Satisfy => Ok(()),
        Goal::Minimize(e) => in_expression(out, e),
        Goal::Maximize(e) => in_expression(out, e),
    }
}

fn in_item(out: &mut Vec<Occurrence>, item: &Item) -> Result<(), Memory>
    ensures { OnOk result (out.new.items ≡ out.old.items ++ in_item (tree_of item.now)) }
{
    match item {
        Item::Include(_, _) => Ok(()),
        Item::Decl(d) => in_top(out, d),
        Item::Assign(name, span, e) => {
            note(out, Role::Valued, *name, *span)?;
            in_expression(out, e)
        }
        Item::Constraint(e) => in_expression(out, e),
        Item::Solve(_, goal) => in_goal(out, goal),
        Item::Output(e) => in_expression(out, e),
        Item::Function(f) => in_function(out, f),
        Item::Enum(name, span, cases) => {
            note(out, Role::Declared, *name, *span)?;
            in_enum(out, *name, *span, cases)
        }
        Item::Annotation(_) => Ok(()),
    }
}

fn in_items(out: &mut Vec<Occurrence>, items: &[Item]) -> Result<(), Memory>
    ensures { OnOk result (out.new.items ≡ out.old.items ++ flat_map (λ i. in_item (tree_of i)) items.now) }
{
    for item in items {
        in_item(out, item)?;
    }
    Ok(())
}

/// Adds the occurrences of the model's files, in the order of the text.
pub(crate) fn in_files(out: &mut Vec<Occurrence>, files: &[SourceFile]) -> Result<(), Memory>
    ensures { OnOk result (out.new.items ≡ out.old.items ++ flat_map (λ f. flat_map (λ i. in_item (tree_of i)) f.items.items) files.now) }
{
    for file in files {
        in_items(out, file.items.as_slice())?;
    }
    Ok(())
}
