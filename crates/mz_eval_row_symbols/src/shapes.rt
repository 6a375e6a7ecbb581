// Faults and bounds of a row: its cell, which lacks its var value alone.

ghost use Rattle.std.specs.Prelude.{◌∷◌, []};
ghost use Rattle.mz_value.specs.Contents.{case_names};
ghost use Rattle.mz_core.specs.Types.{plain_type};
ghost use Rattle.mz_meaning.specs.Operations.{row_cell};
ghost use Rattle.mz_symbol.specs.Readings.{Reading};
ghost use Rattle.mz_eval_cells.specs.Views.{all_seen, seen};
ghost use Rattle.mz_eval_cells.specs.Meets.{Tells};
ghost use Rattle.mz_eval_row_symbols.specs.NodeRows.{shape_seen};

use mz_base::{Span, Stop};
use mz_core::TypeInst;
use mz_eval_cells::Known;
use mz_eval_row_cells::{row_of_all, row_of_one, row_of_two};
use mz_operations::Row;
use mz_value::Cases;
use std::alloc::Global;

/// The cell of a row of one argument, which lacks its value under a reading alone.
pub fn shape_of_one(
    alloc: Global,
    cases: &Cases,
    row: Row,
    t: &TypeInst,
    at: Span,
    a: Known,
) -> Result<Known, Stop>
    ensures { (r : Reading) → Tells (shape_seen r (case_names cases.now) row (plain_type t.now) (seen r a ∷ [])) result
        (row_cell r.mode (case_names cases.now) row (plain_type t.now) at (seen r a ∷ [])) }
{
    row_of_one(alloc, cases, row, t, at, a)
}

/// The same of two arguments.
#[inline(always)]
pub fn shape_of_two(
    alloc: Global,
    cases: &Cases,
    row: Row,
    t: &TypeInst,
    at: Span,
    a: Known,
    b: Known,
) -> Result<Known, Stop>
    ensures { (r : Reading) → Tells (shape_seen r (case_names cases.now) row (plain_type t.now) (seen r a ∷ seen r b ∷ [])) result
        (row_cell r.mode (case_names cases.now) row (plain_type t.now) at (seen r a ∷ seen r b ∷ [])) }
{
    row_of_two(alloc, cases, row, t, at, a, b)
}

/// The same of any number of arguments.
pub fn shape_of_all(
    alloc: Global,
    cases: &Cases,
    row: Row,
    t: &TypeInst,
    at: Span,
    cells: Vec<Known>,
) -> Result<Known, Stop>
    ensures { (r : Reading) → Tells (shape_seen r (case_names cases.now) row (plain_type t.now) (all_seen r cells.items)) result
        (row_cell r.mode (case_names cases.now) row (plain_type t.now) at (all_seen r cells.items)) }
{
    row_of_all(alloc, cases, row, t, at, cells)
}
