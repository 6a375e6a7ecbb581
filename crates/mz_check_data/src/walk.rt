// The names of the texts in typed expressions, declarations and types.

ghost use Rattle.std.specs.Prelude.{◌≡◌, ◌++◌, OnOk, map};
ghost use Rattle.std.specs.List.{flat_map};
ghost use Rattle.std.specs.Option.{option_map};
ghost use Rattle.mz_core.specs.declared.tree.CoreForm.TheViews.{out-CoreForm};
ghost use Rattle.mz_core.specs.TreeViews.{tree, declared_type, decl, gen, step, item, branch, form_layer};
ghost use Rattle.mz_check_meaning.specs.Texts.{texts_in};
ghost use Rattle.mz_check_data.specs.StepsLayers.{in_all, in_option, in_options, in_branch, in_operand, in_generator, in_declared, in_declaration, in_item, in_layer};

use mz_base::{Memory, Name};
use mz_core::{Core, CoreDecl, CoreForm, CoreGen, CoreItem, CoreStep, CoreType};

/// Adds the names of the texts in an expression.
#[cycle(texts)]
pub(crate) fn in_tree(out: &mut Vec<Name>, e: &Core) -> Result<(), Memory>
    ensures { OnOk result (out.new.items ≡ out.old.items ++ texts_in (tree e.now)) }
{
    in_form(out, &e.form)
}

/// Adds the names of the texts in a form.
#[cycle(texts)]
fn in_form(out: &mut Vec<Name>, form: &CoreForm) -> Result<(), Memory>
    ensures { OnOk result (out.new.items ≡ out.old.items ++ in_layer (form_layer (out-CoreForm form.now))) }
{
    match form {
        CoreForm::Bool(_) => Ok(()),
        CoreForm::Int(_) => Ok(()),
        CoreForm::Enum(_, _) => Ok(()),
        CoreForm::Text(n) => {
            out.push(*n)?;
            Ok(())
        }
        CoreForm::Absent => Ok(()),
        CoreForm::EnumSet(_) => Ok(()),
        CoreForm::Slot(_) => Ok(()),
        CoreForm::Whole => Ok(()),
        CoreForm::Chain(x, steps) => {
            in_tree(out, x)?;
            in_operands(out, steps.as_slice())?;
            Ok(())
        }
        CoreForm::Builtin(_, xs) => {
            in_all(out, xs.as_slice())?;
            Ok(())
        }
        CoreForm::Call(_, xs) => {
            in_all(out, xs.as_slice())?;
            Ok(())
        }
        CoreForm::Access(x, xs) => {
            in_tree(out, x)?;
            in_all(out, xs.as_slice())?;
            Ok(())
        }
        CoreForm::Array(xs) => {
            in_all(out, xs.as_slice())?;
            Ok(())
        }
        CoreForm::Rows(rows) => {
            for row in rows.as_slice() {
                in_all(out, row.as_slice())?;
            }
            Ok(())
        }
        CoreForm::Set(xs) => {
            in_all(out, xs.as_slice())?;
            Ok(())
        }
        CoreForm::Comp(_, x, gens) => {
            in_tree(out, x)?;
            in_generators(out, gens.as_slice())?;
            Ok(())
        }
        CoreForm::If(branches, other) => {
            in_branches(out, branches.as_slice())?;
            match other {
                None => Ok(()),
                Some(x) => {
                    in_tree(out, x)?;
                    Ok(())
                }
            }
        }
        CoreForm::Let(items, x) => {
            in_items(out, items.as_slice())?;
            in_tree(out, x)?;
            Ok(())
        }
        CoreForm::Coerce(_, x) => {
            in_tree(out, x)?;
            Ok(())
        }
    }
}

#[cycle(texts)]
pub(crate) fn in_all(out: &mut Vec<Name>, es: &[Core]) -> Result<(), Memory>
    ensures { OnOk result (out.new.items ≡ out.old.items ++ in_all (map tree es.now)) }
{
    for e in es {
        in_tree(out, e)?;
    }
    Ok(())
}

#[cycle(texts)]
fn in_operands(out: &mut Vec<Name>, steps: &[CoreStep]) -> Result<(), Memory>
    ensures { OnOk result (out.new.items ≡ out.old.items ++ flat_map in_operand (map step steps.now)) }
{
    for s in steps {
        in_tree(out, &s.operand)?;
    }
    Ok(())
}

#[cycle(texts)]
fn in_branches(out: &mut Vec<Name>, branches: &[(Core, Core)]) -> Result<(), Memory>
    ensures { OnOk result (out.new.items ≡ out.old.items ++ flat_map in_branch (map branch branches.now)) }
{
    for b in branches {
        in_tree(out, &b.0)?;
        in_tree(out, &b.1)?;
    }
    Ok(())
}

#[cycle(texts)]
fn in_option(out: &mut Vec<Name>, m: &Option<Core>) -> Result<(), Memory>
    ensures { OnOk result (out.new.items ≡ out.old.items ++ in_option (option_map tree m.now)) }
{
    match m {
        None => Ok(()),
        Some(e) => {
            in_tree(out, e)?;
            Ok(())
        }
    }
}

#[cycle(texts)]
fn in_options(out: &mut Vec<Name>, ms: &[Option<Core>]) -> Result<(), Memory>
    ensures { OnOk result (out.new.items ≡ out.old.items ++ in_options (map (option_map tree) ms.now)) }
{
    for m in ms {
        match m {
            None => {}
            Some(e) => in_tree(out, e)?,
        }
    }
    Ok(())
}

#[cycle(texts)]
fn in_generators(out: &mut Vec<Name>, gens: &[CoreGen]) -> Result<(), Memory>
    ensures { OnOk result (out.new.items ≡ out.old.items ++ flat_map in_generator (map gen gens.now)) }
{
    for g in gens {
        in_tree(out, &g.set)?;
        in_option(out, &g.cond)?;
    }
    Ok(())
}

/// Adds the names of the texts in the sets of a declared type.
#[cycle(texts)]
pub(crate) fn in_declared(out: &mut Vec<Name>, t: &CoreType) -> Result<(), Memory>
    ensures { OnOk result (out.new.items ≡ out.old.items ++ in_declared (declared_type t.now)) }
{
    in_options(out, t.index.as_slice())?;
    in_option(out, &t.set)?;
    Ok(())
}

/// Adds the names of the texts in a declaration: in its type, and then in its value.
#[cycle(texts)]
pub(crate) fn in_declaration(out: &mut Vec<Name>, d: &CoreDecl) -> Result<(), Memory>
    ensures { OnOk result (out.new.items ≡ out.old.items ++ in_declaration (decl d.now)) }
{
    in_declared(out, &d.ty)?;
    in_option(out, &d.value)?;
    Ok(())
}

#[cycle(texts)]
fn in_items(out: &mut Vec<Name>, items: &[CoreItem]) -> Result<(), Memory>
    ensures { OnOk result (out.new.items ≡ out.old.items ++ flat_map in_item (map item items.now)) }
{
    for i in items {
        in_item(out, i)?;
    }
    Ok(())
}

#[cycle(texts)]
fn in_item(out: &mut Vec<Name>, i: &CoreItem) -> Result<(), Memory>
    ensures { OnOk result (out.new.items ≡ out.old.items ++ in_item (item i.now)) }
{
    match i {
        CoreItem::Decl(d) => {
            in_declaration(out, d)?;
            Ok(())
        }
        CoreItem::Constraint(e) => {
            in_tree(out, e)?;
            Ok(())
        }
    }
}
