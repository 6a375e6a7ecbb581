// Cells that are undefined wherever they are read, and branches of which none has a value.

ghost use Rattle.std.specs.Prelude.{◌≡◌, IfOk, None, true};
ghost use Rattle.std.specs.List.{list_all};
ghost use Rattle.mz_symbol.specs.Readings.{Reading};
ghost use Rattle.mz_eval_cells.specs.Views.{cell_of, seen};
ghost use Rattle.mz_eval_arrays.specs.StepsBranches.{branches_value, with_value};
ghost use Rattle.mz_eval_branches.specs.BranchLines.{has_no_value, is_nothing, is_untold};

use mz_base::Memory;
use mz_eval_cells::{Known, Origin, Origins};

fn is_untold(o: &Origin) -> bool
    ensures { result ≡ is_untold o.now }
{
    match o {
        Origin::Nothing => true,
        _ => false,
    }
}

fn is_nothing(o: &Origins) -> bool
    ensures { result ≡ is_nothing o.now }
{
    match o {
        Origins::Nothing => true,
        _ => false,
    }
}

/// Whether a cell is surely undefined wherever it is read, since nothing tells its value.
pub fn has_no_value(k: &Known) -> bool
    ensures { result ≡ has_no_value k.now }
{
    match k {
        Known::Undefined => true,
        Known::Unshaped(_) => true,
        Known::Var(v) => is_untold(&v.origin),
        Known::Row(_, xs) => is_nothing(&xs.origins),
        _ => false,
    }
}

/// A cell without a value; out of memory where it may have one.
pub fn unvalued(k: Known) -> Result<Known, Memory>
    ensures { IfOk result (λ x. (r : Reading) → seen r x ≡ with_value None (cell_of k)) }
{
    if has_no_value(&k) { Ok(k) } else { Err(Memory) }
}

fn have_no_value(branches: &[(Known, Known)]) -> bool
    ensures { result ≡ list_all (λ p. has_no_value p.1) branches.now }
{
    for p in branches {
        if !has_no_value(&p.1) {
            return false;
        }
    }
    true
}

/// Whether all branches, and the last one, are surely undefined wherever they are read.
pub(crate) fn no_values(branches: &[(Known, Known)], last: &Known) -> bool
    ensures { result ≡ true → (r : Reading) → branches_value r branches.now last.now ≡ None }
{
    if has_no_value(last) {
        have_no_value(branches)
    } else {
        false
    }
}

/// Whether a branch, or the last one, is surely undefined wherever it is read.
pub(crate) fn has_missing(branches: &[(Known, Known)], last: &Known) -> bool {
    for p in branches {
        if has_no_value(&p.1) {
            return true;
        }
    }
    has_no_value(last)
}
