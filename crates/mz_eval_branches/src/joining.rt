// Rows of cells as one list.

ghost use Rattle.std.specs.Prelude.{◌≡◌, ◌++◌, IfOk, OnOk};
ghost use Rattle.std.specs.List.{list_all};
ghost use Rattle.mz_symbol.specs.Readings.{Reading};
ghost use Rattle.mz_eval_cells.specs.Views.{all_seen};
ghost use Rattle.mz_eval_branches.specs.TableCells.{AreJoined, has_value};

use crate::has_no_value;
use mz_eval_cells::{Known, share};
use std::alloc::{AllocError, Global};

fn push_shared(all: &mut Vec<Known>, row: &[Known]) -> Result<(), AllocError>
    ensures { OnOk result ((r : Reading) → all_seen r all.new.items ≡ all_seen r all.old.items ++ all_seen r row.now) }
{
    for k in row {
        let x = share(k)?;
        all.push(x)?;
    }
    Ok(())
}

/// The cells of all rows, the last column moving first. No element, set or text is copied.
pub(crate) fn joined(alloc: Global, rows: &[Vec<Known>]) -> Result<Vec<Known>, AllocError>
    ensures { IfOk result (λ v. AreJoined rows.now v.items) }
{
    let mut all = Vec::new(alloc);
    for row in rows {
        push_shared(&mut all, row)?;
    }
    Ok(all)
}

fn has_value(k: &Known) -> bool
    ensures { result ≡ has_value k.now }
{
    !has_no_value(k)
}

/// Whether each cell may have a value.
pub(crate) fn have_values(all: &[Known]) -> bool
    ensures { result ≡ list_all has_value all.now }
{
    for k in all {
        if !has_value(k) {
            return false;
        }
    }
    true
}
