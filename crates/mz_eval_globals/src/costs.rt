// What calls of globals cost over cells.

ghost use Rattle.std.specs.Prelude.{◌≡◌, ◌≤◌, ◌^◌, IfOk};
ghost use Rattle.mz_meaning.specs.Globals as globals;
ghost use Rattle.mz_eval_cells.specs.Views.{cells_of};

use crate::apply::global_cost;
use mz_eval_cells::Known;
use mz_eval_row_cells::sizes_of;
use mz_globals::Global;
use std::alloc::{AllocError, Global as Heap};

/// What a call of a global costs, by the elements of its arrays and the values of its par integers;
/// at most 2^62.
pub fn cost_of_call(alloc: Heap, g: Global, cells: &[Known]) -> Result<u64, AllocError>
    ensures { IfOk result (λ n. n ≡ globals.call_cost g (cells_of cells.now)) }
{
    let sizes = sizes_of(alloc, cells)?;
    Ok(global_cost(g, sizes.as_slice()))
}
