// The shapes of an instance's variables.

ghost use Rattle.std.specs.Prelude.{◌≡◌, ◌<◌, IfOk, length, map};
ghost use Rattle.std.specs.List.{AllByRecursion};
ghost use Rattle.std.specs.Option.{option_map};
ghost use Rattle.mz_base.specs.Names.{text_of};
ghost use Rattle.mz_value.specs.Contents.{text_bytes};
ghost use Rattle.mz_arena.specs.Instances.{model_var, var_cell};
ghost use Rattle.fz_items.specs.Forms.{form, forms};
ghost use Rattle.mz_print_model.specs.Shapes.{domain_of, form_of, forms_of, IsVarNamed};

use mz_arena::{ModelVar, VarCell};
use mz_base::{Memory, Name, Names};
use mz_value::{RangeSet, Shape, TextValue};
use std::alloc::Global;

fn label(alloc: Global, names: &Names, name: Name) -> Result<TextValue, Memory>
    requires { name < length names.now }
    ensures { IfOk result (λ t. text_bytes t ≡ text_of names.now name) }
{
    let text = String::from_str(alloc, names.text(name))?;
    Ok(TextValue { text })
}

fn index(alloc: Global, index: &Option<Vec<(i64, i64)>>) -> Result<Option<Vec<(i64, i64)>>, Memory>
    ensures { IfOk result (λ ix. option_map (λ v. v.items) ix ≡ option_map (λ v. v.items) index.now) }
{
    match index {
        Some(ranges) => Ok(Some(Vec::from_slice(alloc, ranges)?)),
        None => Ok(None),
    }
}

fn domains(alloc: Global, cells: &[VarCell]) -> Result<Vec<RangeSet>, Memory>
    ensures { IfOk result (λ sets. sets.items ≡ map domain_of (map var_cell cells.now)) }
{
    let mut sets = Vec::new(alloc);
    for cell in cells {
        sets.push(cell.domain.copy(alloc)?)?;
    }
    Ok(sets)
}

fn shape(alloc: Global, names: &Names, var: &ModelVar) -> Result<Shape, Memory>
    requires { IsVarNamed names.now (model_var var.now) }
    ensures { IfOk result (λ s. form s ≡ form_of names.now (model_var var.now)) }
{
    let label = label(alloc, names, var.name)?;
    let index = index(alloc, &var.index)?;
    let domains = domains(alloc, &var.cells)?;
    Ok(Shape {
        label,
        opt: var.opt,
        base: var.base,
        index,
        domains,
    })
}

/// A shape for each of an instance's variables, in their order, by the table of their names.
pub fn shapes(alloc: Global, vars: &[ModelVar], names: &Names) -> Result<Vec<Shape>, Memory>
    requires { AllByRecursion (IsVarNamed names.now) (map model_var vars.now) }
    ensures { IfOk result (λ shapes. forms shapes.items ≡ forms_of names.now (map model_var vars.now)) }
{
    let mut shapes = Vec::new(alloc);
    for var in vars {
        shapes.push(shape(alloc, names, var)?)?;
    }
    Ok(shapes)
}
