// Conditions without a value: no such condition is true.

ghost use Rattle.std.specs.Prelude.{◌≡◌, ◌++◌, ◌∷◌, [], IfOk, map};
ghost use Rattle.mz_meaning.specs.Cells as cells;
ghost use Rattle.mz_meaning.specs.Cells.{value_of};
ghost use Rattle.mz_symbol.specs.Readings.{Reading};
ghost use Rattle.mz_eval_cells.specs.Views.{seen};
ghost use Rattle.mz_eval_branches.specs.StepsConditions.{tested};

use crate::undefined::has_no_value;
use mz_eval_cells::{Item, Known, one, share};
use std::alloc::{AllocError, Global};

/// Whether each condition may have a value.
pub(crate) fn are_told(branches: &[(Known, Known)]) -> bool {
    for p in branches {
        if has_no_value(&p.0) {
            return false;
        }
    }
    true
}

/// A condition; one without a value as a false one.
fn settled(k: &Known) -> Result<Known, AllocError>
    ensures { IfOk result (λ x. (r : Reading) → cells.is_true (value_of (seen r x)) ≡ cells.is_true (value_of (seen r k.now))) }
{
    if has_no_value(k) {
        return Ok(one(Item::Bool(false)));
    }
    let x = share(k)?;
    Ok(x)
}

fn with_settled(
    p: &(Known, Known),
    made: Vec<(Known, Known)>,
) -> Result<Vec<(Known, Known)>, AllocError>
    ensures { IfOk result (λ v. (r : Reading) → map (tested r) v.items ≡ map (tested r) made.items ++ tested r p.now ∷ []) }
{
    let condition = settled(&p.0)?;
    let branch = share(&p.1)?;
    let mut more = made;
    more.push((condition, branch))?;
    Ok(more)
}

/// The same branches, where conditions without a value are false.
pub(crate) fn all_settled(
    alloc: Global,
    branches: &[(Known, Known)],
) -> Result<Vec<(Known, Known)>, AllocError>
    ensures { IfOk result (λ v. (r : Reading) → map (tested r) v.items ≡ map (tested r) branches.now) }
{
    let mut made = Vec::new(alloc);
    for p in branches {
        made = with_settled(p, made)?;
    }
    Ok(made)
}
