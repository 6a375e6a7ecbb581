// What declarations and functions use.

ghost use Rattle.std.specs.Prelude.{◌≡◌, ◌++◌, IfOk, OnOk, map};
ghost use Rattle.mz_tree.specs.Views.{declaration};
ghost use Rattle.mz_tree.specs.Items.{function_of};
ghost use Rattle.mz_scope_names.specs.Sketches.{sketch, decl_sketch, function_sketch, in_parameter, in_parameters, with_parameters};
ghost use Rattle.mz_scope_names.specs.Uses.{with_declaration};
ghost use Rattle.mz_scope_names.specs.Valued.{valued};

use crate::use_walk::{in_expression, in_type};
use crate::{NameSet, NameUse, Sketch};
use mz_base::Memory;
use mz_tree::{Decl, Expr, Function};
use std::alloc::Global;

/// What a declaration uses that has this value, in place of its own.
#[tactic(auto, unfolding(crate::specs::Uses::in_tree, mz_tree::specs::Views::declaration, mz_tree::specs::Views::written, mz_tree::specs::Views::tree))]
pub fn sketch_of_decl(alloc: Global, d: &Decl, value: Option<&Expr>) -> Result<Sketch, Memory>
    ensures { IfOk result (λ o. sketch o ≡ decl_sketch (valued d.now value.entry)) }
{
    let mut hidden = NameSet::new(alloc);
    let mut types = Vec::new(alloc);
    let mut rest = Vec::new(alloc);
    in_type(&mut types, &mut hidden, &d.ty)?;
    if let Some(value) = value {
        in_expression(&mut rest, &mut hidden, value)?;
    }
    Ok(Sketch {
        name: d.name,
        applied: false,
        types,
        rest,
    })
}

/// Adds what a parameter's type uses, and hides its name from there on.
#[tactic(auto, unfolding(mz_tree::specs::Views::declaration, mz_tree::specs::Views::written, mz_tree::specs::Views::tree))]
fn in_parameter(out: &mut Vec<NameUse>, hidden: &mut NameSet, p: &Decl) -> Result<(), Memory>
    ensures uses { OnOk result (out.new.items ≡ out.old.items ++ in_parameter hidden.old (declaration p.now)) }
    ensures hidden { OnOk result (hidden.new ≡ with_declaration hidden.old (declaration p.now)) }
{
    in_type(out, hidden, &p.ty)?;
    hidden.add(p.name)?;
    Ok(())
}

/// Adds what the types of parameters use, and hides their names.
fn in_parameters(
    out: &mut Vec<NameUse>,
    hidden: &mut NameSet,
    params: &[Decl],
) -> Result<(), Memory>
    ensures uses { OnOk result (out.new.items ≡ out.old.items ++ in_parameters hidden.old (map declaration params.now)) }
    ensures hidden { OnOk result (hidden.new ≡ with_parameters hidden.old (map declaration params.now)) }
{
    for p in params {
        in_parameter(out, hidden, p)?;
    }
    Ok(())
}

/// What a function uses.
pub fn sketch_of_function(alloc: Global, f: &Function) -> Result<Sketch, Memory>
    ensures { IfOk result (λ o. sketch o ≡ function_sketch (function_of f.now)) }
{
    let mut hidden = NameSet::new(alloc);
    let mut types = Vec::new(alloc);
    let mut rest = Vec::new(alloc);
    in_parameters(&mut types, &mut hidden, f.params.as_slice())?;
    in_type(&mut types, &mut hidden, &f.result)?;
    in_expression(&mut rest, &mut hidden, &f.body)?;
    Ok(Sketch {
        name: f.name,
        applied: !f.params.is_empty(),
        types,
        rest,
    })
}
