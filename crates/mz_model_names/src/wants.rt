// The declared sets of top-level names, which have to be defined.

ghost use Rattle.std.specs.Prelude.{Some};
ghost use Rattle.mz_meaning.specs.Arrays as arrays;
ghost use Rattle.mz_meaning.specs.Cells.{set_in};
ghost use Rattle.mz_meaning.specs.Runs.{give};
ghost use Rattle.mz_meaning.specs.Walk as walk;
ghost use Rattle.mz_symbol.specs.Readings.{Reading};
ghost use Rattle.mz_eval_cells.specs.Views.{cell_of, seen};
ghost use Rattle.mz_eval_cells.specs.Meets.{Tells};
ghost use Rattle.mz_eval_declared.specs.Wants.{wanted};

use mz_base::{Fault, Kind, Span, Stop};
use mz_eval_cells::{Known, set_in};
use mz_eval_declared::{Want, index_want};
use mz_value::RangeSet;
use std::alloc::Global;

fn within(alloc: Global, s: &RangeSet) -> Result<Want, Stop>
    ensures { Tells wanted result (give (arrays.Within s.now)) }
{
    let set = s.copy(alloc)?;
    Ok(Want::Within(set))
}

fn set_of(alloc: Global, at: Span, k: &Known) -> Result<Want, Stop>
    ensures { Tells wanted result (walk.defined_set at (set_in (cell_of k.now))) }
{
    match set_in(k) {
        None => Err(Stop::Refused(Fault::at(Kind::ParUndefined, at))),
        Some(s) => within(alloc, s),
    }
}

fn index_of(alloc: Global, at: Span, k: &Known) -> Result<Want, Stop>
    ensures { Tells wanted result (walk.defined_index at (set_in (cell_of k.now))) }
{
    match set_in(k) {
        None => Err(Stop::Refused(Fault::at(Kind::ParUndefined, at))),
        Some(_) => index_want(alloc, at, k),
    }
}

/// The declared set that a cell is. Refused ParUndefined at `at` where the cell is undefined, var or no
/// set.
pub fn defined_set(alloc: Global, at: Span, k: &Known) -> Result<Want, Stop>
    ensures { (r : Reading) → Tells wanted result (walk.defined_set at (set_in (seen r k.now))) }
{
    set_of(alloc, at, k)
}

/// The declared index set that a cell is. Refused ParUndefined as `defined_set` does; IndexMismatch at
/// `at` where it is not one range and not empty.
pub fn defined_index(alloc: Global, at: Span, k: &Known) -> Result<Want, Stop>
    ensures { (r : Reading) → Tells wanted result (walk.defined_index at (set_in (seen r k.now))) }
{
    index_of(alloc, at, k)
}
