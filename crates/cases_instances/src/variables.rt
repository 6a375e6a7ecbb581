// Variables of the model.

ghost use Rattle.std.specs.Prelude.{◌≡◌, Some, false, length, map, true};
ghost use Rattle.mz_arena.specs.Instances.{model_var, var_cell};
ghost use Rattle.mz_instance.specs.Instance.{AreModelVars, AreOccurring, IsCounted, IsIndex, IsModelVar};
ghost use Rattle.mz_instance.specs.Parts.{base_of, is_subset_sort, sort_of};

use fz_program::{has_places, is_index};
use mz_arena::{ModelVar, VarCell};
use mz_value::ShapeBase;

// Whether a variable may be an option where it is one: there is none of a set.
fn is_allowed(opt: bool, base: &ShapeBase) -> bool
    ensures { result ≡ true → opt ≡ true → is_subset_sort (sort_of (base_of base.now)) ≡ false }
{
    match base {
        ShapeBase::SetInt => !opt,
        ShapeBase::SetEnum(_) => !opt,
        _ => true,
    }
}

// Whether each cell of an option has an occurrence, and no other has one.
fn are_occurring(opt: bool, cells: &[VarCell]) -> bool
    ensures { result ≡ true → AreOccurring opt (map var_cell cells.now) }
{
    let mut rest = cells;
    while let [c, more @ ..] = rest {
        if c.occurs.is_some() != opt {
            return false;
        }
        rest = more;
    }
    true
}

// Whether there are index ranges, and as many cells as these have places.
fn is_array(index: &[(i64, i64)], cells: u64) -> bool
    ensures { result ≡ true → IsIndex (Some index.now) × IsCounted (Some index.now) cells }
{
    is_index(index) && has_places(index, cells)
}

// Whether a scalar has one cell, and an array one for each place.
fn has_cells(m: &ModelVar) -> bool
    ensures { result ≡ true → IsIndex (model_var m.now).index × IsCounted (model_var m.now).index (length m.now.cells.items) }
{
    let count = m.cells.len() as u64;
    match &m.index {
        Some(index) => is_array(index.as_slice(), count),
        None => count == 1,
    }
}

fn is_model_var(m: &ModelVar) -> bool
    ensures { result ≡ true → IsModelVar (model_var m.now) }
{
    is_allowed(m.opt, &m.base) && (has_cells(m) && are_occurring(m.opt, m.cells.as_slice()))
}

/// Whether each has cells as its index ranges ask, and occurrences exactly where it is an option.
pub(crate) fn are_model_vars(vars: &[ModelVar]) -> bool
    ensures { result ≡ true → AreModelVars (map model_var vars.now) }
{
    let mut rest = vars;
    while let [m, more @ ..] = rest {
        if !is_model_var(m) {
            return false;
        }
        rest = more;
    }
    true
}
