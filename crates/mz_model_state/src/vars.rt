// The variables of an instance, made of the places of names.

ghost use Rattle.std.specs.Prelude.{◌≡◌, IfOk, IfSome, map};
ghost use Rattle.std.specs.Option.{option_map};
ghost use Rattle.mz_arena.specs.Instances.{model_var, var_cell};
ghost use Rattle.mz_instance.specs.Parts.{base_of};
ghost use Rattle.mz_model_state.specs.Variables.{place_cell};
ghost use Rattle.mz_model_state.specs.Vars.{IsVarOver};

use mz_arena::{ModelVar, VarCell};
use mz_base::{Memory, Name};
use mz_core::Base;
use mz_symbol::Free;
use mz_value::ShapeBase;
use std::alloc::Global;

/// The base of an instance's variable; None where no variable has it.
fn shape_of(base: Base) -> Option<ShapeBase>
    ensures { IfSome result (λ s. base_of s ≡ base) }
{
    match base {
        Base::Bool => Some(ShapeBase::Bool),
        Base::Int => Some(ShapeBase::Int),
        Base::Enum(e) => Some(ShapeBase::Enum(e)),
        Base::SetInt => Some(ShapeBase::SetInt),
        Base::SetEnum(e) => Some(ShapeBase::SetEnum(e)),
        _ => None,
    }
}

fn cell(f: Free) -> VarCell
    ensures { var_cell result ≡ place_cell f }
{
    let Free { symbol, set } = f;
    VarCell {
        occurs: symbol.occurs,
        term: symbol.term,
        domain: set,
    }
}

/// The cells of places, which are moved into them.
fn cells(alloc: Global, places: Vec<Free>) -> Result<Vec<VarCell>, Memory>
    ensures { IfOk result (λ v. map var_cell v.items ≡ map place_cell places.items) }
{
    let mut all = Vec::new(alloc);
    for f in places {
        all.push(cell(f))?;
    }
    Ok(all)
}

/// The variable of an instance that has these places, of this base, and options or not. Its index
/// ranges are those of an array, and None of a single variable. The sets of the places are moved.
///
/// Out of memory too where no variable has the base.
pub fn var_over(
    alloc: Global,
    name: Name,
    base: Base,
    opt: bool,
    index: Option<Vec<(i64, i64)>>,
    places: Vec<Free>,
) -> Result<ModelVar, Memory>
    ensures { IfOk result (λ m. IsVarOver name base opt (option_map (λ ix. ix.items) index) places.items (model_var m)) }
{
    let Some(shape) = shape_of(base) else {
        return Err(Memory);
    };
    let all = cells(alloc, places)?;
    Ok(ModelVar {
        name,
        index,
        opt,
        base: shape,
        cells: all,
    })
}
