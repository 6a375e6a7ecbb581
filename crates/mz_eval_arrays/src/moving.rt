// Arrays under other index ranges, and elements that may be absent.

ghost use Rattle.std.specs.Prelude.{◌≡◌, IfOk};
ghost use Rattle.mz_meaning.specs.Arrays as arrays;
ghost use Rattle.mz_meaning.specs.Cells.{Bare};
ghost use Rattle.mz_meaning.specs.Comprehensions as comprehensions;
ghost use Rattle.mz_eval_cells.specs.Views.{cell_of};
ghost use Rattle.mz_eval_arrays.specs.Gathered.{occurs_if};

use mz_eval_cells::{Known, bounds_in, share, var_cell, var_items};
use std::alloc::{AllocError, Global};
use std::rc::Rc;

/// An array under these index ranges. Its elements aren't copied; a par cell that is no array stays,
/// and a var one becomes an array of no element.
pub fn moved(alloc: Global, index: Vec<(i64, i64)>, k: &Known) -> Result<Known, AllocError>
    ensures { IfOk result (λ x. cell_of x ≡ arrays.moved index.items (cell_of k.now)) }
{
    match k {
        Known::Undefined => share(k),
        Known::One(_) => share(k),
        Known::Array(_, items) => {
            let ranges = Rc::new(alloc, index)?;
            Ok(Known::Array(ranges, items.clone()?))
        }
        Known::Var(_) => {
            let none = Vec::new(alloc);
            var_items(alloc, index, none)
        }
        Known::Row(_, items) => {
            let ranges = Rc::new(alloc, index)?;
            Ok(Known::Row(ranges, items.clone()?))
        }
        Known::Unshaped(_) => share(k),
    }
}

/// An element of a comprehension, which surely occurs or may be absent: then it is var.
pub fn present(alloc: Global, surely: bool, k: Known) -> Result<Known, AllocError>
    ensures { IfOk result (λ x. cell_of x ≡ comprehensions.present Bare (occurs_if surely) (cell_of k)) }
{
    if surely {
        Ok(k)
    } else {
        let b = bounds_in(alloc, &k)?;
        var_cell(alloc, b)
    }
}
