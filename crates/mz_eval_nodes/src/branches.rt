// The branches of an `if` so far.

ghost use Rattle.std.specs.Prelude.{◌≡◌, ◌++◌, ◌∷◌, [], IfOk};
ghost use Rattle.mz_symbol.specs.Readings.{Reading};
ghost use Rattle.mz_eval_cells.specs.Views.{seen};
ghost use Rattle.mz_eval_nodes.specs.Views.{pairs_seen};

use mz_eval_cells::Known;
use std::alloc::AllocError;

/// One branch more of an `if`, with its condition.
pub fn with_branch(
    branches: Vec<(Known, Known)>,
    cond: Known,
    cell: Known,
) -> Result<Vec<(Known, Known)>, AllocError>
    ensures { IfOk result (λ v. (r : Reading) → pairs_seen r v.items ≡ pairs_seen r branches.items ++ (seen r cond, seen r cell) ∷ []) }
{
    let mut branches = branches;
    branches.push((cond, cell))?;
    Ok(branches)
}
