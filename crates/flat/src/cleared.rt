// Domains without a value.

ghost use Rattle.std.specs.Prelude.{◌≡◌, ◌∷◌, [], IfOk, map};
ghost use Rattle.mz_arena.specs.Instances.{model_var, var_cell};
ghost use Rattle.mz_instance.specs.Parts.{base_of, is_subset_sort, sort_of, value_part};
ghost use Rattle.flat_reif.specs.States.{state};
ghost use Rattle.flat_root.specs.Keeps.{IsReadyState};
ghost use Rattle.flat.specs.Cleared.{AreBound, AreCleared, all_value_parts, value_parts};

use flat_reif::Flat;
use mz_arena::{ModelVar, VarCell};
use mz_base::Memory;
use mz_value::ShapeBase;

// Whether the values of a base are sets.
fn has_sets(base: &ShapeBase) -> bool
    ensures { result ≡ is_subset_sort (sort_of (base_of base.now)) }
{
    match base {
        ShapeBase::SetInt => true,
        ShapeBase::SetEnum(_) => true,
        _ => false,
    }
}

// Leaves no solution where the domain of a cell has no value.
fn clear_cell(flat: &mut Flat, m: &ModelVar, c: &VarCell) -> Result<(), Memory>
    requires ready { IsReadyState (state flat.old) }
    requires bound { AreBound (state flat.old).es (value_part (model_var m.now) (var_cell c.now) ∷ []) }
    ensures { IfOk result (λ _. AreCleared (state flat.old) (state flat.new) (value_part (model_var m.now) (var_cell c.now) ∷ [])) }
{
    if has_sets(&m.base) {
        return Ok(());
    }
    if c.domain.ranges().is_empty() {
        let done = given!(flat.post_false());
        Ok(done)
    } else {
        Ok(())
    }
}

// Leaves no solution where a domain of these cells has no value.
fn clear_cells(flat: &mut Flat, m: &ModelVar, cells: &[VarCell]) -> Result<(), Memory>
    requires ready { IsReadyState (state flat.old) }
    requires bound { AreBound (state flat.old).es (value_parts (model_var m.now) (map var_cell cells.now)) }
    ensures { IfOk result (λ _. AreCleared (state flat.old) (state flat.new) (value_parts (model_var m.now) (map var_cell cells.now))) }
{
    'cells: for c in cells {
        given!(clear_cell(flat, m, c));
    }
    Ok(())
}

/// Leaves no solution where a domain of these variables has no value: one row for each such domain.
pub(crate) fn clear_vars(flat: &mut Flat, vars: &[ModelVar]) -> Result<(), Memory>
    requires ready { IsReadyState (state flat.old) }
    requires bound { AreBound (state flat.old).es (all_value_parts (map model_var vars.now)) }
    ensures { IfOk result (λ _. AreCleared (state flat.old) (state flat.new) (all_value_parts (map model_var vars.now))) }
{
    'vars: for m in vars {
        given!(clear_cells(flat, m, m.cells.as_slice()));
    }
    Ok(())
}
