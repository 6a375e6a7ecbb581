// Declared sets.

ghost use Rattle.std.specs.Prelude.{◌≡◌, IfOk, Some};
ghost use Rattle.mz_operations.specs.Arrays as operations;
ghost use Rattle.mz_meaning.specs.Arrays as arrays;
ghost use Rattle.mz_meaning.specs.Cells as cells;
ghost use Rattle.mz_meaning.specs.Lets as lets;
ghost use Rattle.mz_meaning.specs.Runs.{give};
ghost use Rattle.mz_eval_cells.specs.Views.{cell_of, sure_of};
ghost use Rattle.mz_eval_cells.specs.Meets.{Tells};
ghost use Rattle.mz_eval_declared.specs.Wants.{wanted, wants_of};

use mz_base::{Fault, Kind, Span, Stop};
use mz_eval_cells::{Known, Sure, both_sure, set_in, surely, unsure};
use mz_value::RangeSet;
use std::alloc::{AllocError, Global};

/// A declared set.
#[derive(Drop)]
pub enum Want {
    /// None is declared.
    Anything,
    /// It is undefined.
    Missing,
    /// It is this set.
    Within(RangeSet),
}

/// The declared set that a cell is: it is missing where the cell is undefined, var or no set.
pub fn want_of(alloc: Global, k: &Known) -> Result<Want, AllocError>
    ensures { IfOk result (λ w. wanted w ≡ arrays.want_of (cells.set_in (cell_of k.now))) }
{
    match set_in(k) {
        None => Ok(Want::Missing),
        Some(s) => {
            let set = s.copy(alloc)?;
            Ok(Want::Within(set))
        }
    }
}

fn is_contiguous(s: &RangeSet) -> bool
    ensures { result ≡ operations.is_contiguous s.now }
{
    s.ranges().len() <= 1
}

fn within(alloc: Global, s: &RangeSet) -> Result<Want, Stop>
    ensures { Tells wanted result (give (arrays.Within s.now)) }
{
    let set = s.copy(alloc)?;
    Ok(Want::Within(set))
}

fn contiguous(alloc: Global, at: Span, s: &RangeSet) -> Result<Want, Stop>
    ensures { Tells wanted result (lets.contiguous at (Some s.now)) }
{
    if is_contiguous(s) {
        within(alloc, s)
    } else {
        Err(Stop::Refused(Fault::at(Kind::IndexMismatch, at)))
    }
}

/// The declared index set that a cell is, as `want_of` says. Refused IndexMismatch at `at` where it
/// is not one range and not empty.
pub fn index_want(alloc: Global, at: Span, k: &Known) -> Result<Want, Stop>
    ensures { Tells wanted result (lets.contiguous at (cells.set_in (cell_of k.now))) }
{
    match set_in(k) {
        None => Ok(Want::Missing),
        Some(s) => contiguous(alloc, at, s),
    }
}

/// Whether a declared set is there.
pub fn has_set(w: &Want) -> Sure
    ensures { sure_of result ≡ arrays.has_set (wanted w.now) }
{
    match w {
        Want::Anything => surely(),
        Want::Missing => unsure(),
        Want::Within(_) => surely(),
    }
}

/// Whether all declared sets are there.
pub fn all_have_sets(ws: &[Want]) -> Sure
    ensures { sure_of result ≡ lets.all_have_sets (wants_of ws.now) }
{
    match ws {
        [] => surely(),
        [first, others @ ..] => both_sure(has_set(first), all_have_sets(others)),
    }
}
