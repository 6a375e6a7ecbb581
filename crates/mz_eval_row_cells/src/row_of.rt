// A row over cells: one for each number of arguments, since rows of one and two arguments need no list.

ghost use Rattle.std.specs.Prelude.{◌≡◌, ◌&&◌, ◌∷◌, [], IfOk, map};
ghost use Rattle.mz_value.specs.Contents.{case_names};
ghost use Rattle.mz_value.specs.Shown.{Names};
ghost use Rattle.mz_core.specs.Types.{plain_type};
ghost use Rattle.mz_operations.specs.Arguments.{arguments};
ghost use Rattle.mz_meaning.specs.Cells as cells;
ghost use Rattle.mz_meaning.specs.Cells.{Bare, value_of};
ghost use Rattle.mz_meaning.specs.Operations.{par_row, row_cell};
ghost use Rattle.mz_eval_cells.specs.Views.{cell_of, cells_of};
ghost use Rattle.mz_eval_cells.specs.Meets.{Tells};
ghost use Rattle.mz_eval_row_cells.specs.Steps as steps;

use crate::applied::par_row;
use crate::integers::{integers_of, row_of_integers};
use crate::opened::open_row;
use crate::sets::{row_of_extreme, row_of_member};
use mz_base::{Span, Stop};
use mz_core::{Base, TypeInst};
use mz_eval_cells::{Known, all_par, given, is_par};
use mz_operations::{Row, ScalarRow};
use mz_value::{Cases, Value};
use std::alloc::{AllocError, Global};

fn values_of_one(
    alloc: Global,
    cases: &Cases,
    row: Row,
    base: Base,
    at: Span,
    a: Known,
) -> Result<Known, Stop>
    ensures { Tells cell_of result (par_row (case_names cases.now) row base at (value_of (cell_of a) ∷ [])) }
{
    let v = given(alloc, a)?;
    let args = [v];
    par_row(alloc, cases, row, base, at, &args)
}

/// A row of one par cell.
#[tactic(auto, unfolding(mz_operations::specs::Answers::is_mismatched, mz_operations::specs::Answers::negative, mz_operations::specs::Answers::is_failed))]
fn par_of_one(
    alloc: Global,
    cases: &Cases,
    row: Row,
    base: Base,
    at: Span,
    a: Known,
) -> Result<Known, Stop>
    ensures { Tells cell_of result (par_row (case_names cases.now) row base at (value_of (cell_of a) ∷ [])) }
{
    match row {
        Row::Scalar(ScalarRow::SetExtreme(side)) => row_of_extreme(side, base, at, &a),
        _ => values_of_one(alloc, cases, row, base, at, a),
    }
}

/// What a row gives of this argument, at a node of this type, before its type is stamped on it. An
/// array that no other cell holds is moved, and not copied. The refusals are those of `row_of_all`.
pub fn row_of_one(
    alloc: Global,
    cases: &Cases,
    row: Row,
    t: &TypeInst,
    at: Span,
    a: Known,
) -> Result<Known, Stop>
    ensures { Tells cell_of result (row_cell Bare (case_names cases.now) row (plain_type t.now) at (cell_of a ∷ [])) }
{
    if is_par(&a) {
        par_of_one(alloc, cases, row, t.base, at, a)
    } else {
        let args = [a];
        open_row(alloc, row, t, at, &args)
    }
}

fn values_of_two(
    alloc: Global,
    cases: &Cases,
    row: Row,
    base: Base,
    at: Span,
    a: Known,
    b: Known,
) -> Result<Known, Stop>
    ensures { Tells cell_of result (par_row (case_names cases.now) row base at (value_of (cell_of a) ∷ value_of (cell_of b) ∷ [])) }
{
    let x = given(alloc, a)?;
    let y = given(alloc, b)?;
    let args = [x, y];
    par_row(alloc, cases, row, base, at, &args)
}

/// A row of two par cells.
#[tactic(auto, unfolding(mz_operations::specs::Answers::is_mismatched, mz_operations::specs::Answers::negative, mz_operations::specs::Answers::is_failed))]
fn par_of_two(
    alloc: Global,
    cases: &Cases,
    row: Row,
    base: Base,
    at: Span,
    a: Known,
    b: Known,
) -> Result<Known, Stop>
    ensures { Tells cell_of result (par_row (case_names cases.now) row base at (value_of (cell_of a) ∷ value_of (cell_of b) ∷ [])) }
{
    match row {
        Row::Scalar(ScalarRow::In) => row_of_member(base, at, &a, &b),
        _ => values_of_two(alloc, cases, row, base, at, a, b),
    }
}

/// Whether both cells are par.
#[tactic(auto, using(crate::proofs::Parted::two_par))]
fn are_par(a: &Known, b: &Known) -> bool
    ensures { result ≡ cells.all_par (cell_of a.now ∷ cell_of b.now ∷ []) }
{
    both(is_par(a), is_par(b))
}

fn both(a: bool, b: bool) -> bool
    ensures { result ≡ (a && b) }
{
    a && b
}

/// A row of two cells.
fn row_of_cells(
    alloc: Global,
    cases: &Cases,
    row: Row,
    t: &TypeInst,
    at: Span,
    a: Known,
    b: Known,
) -> Result<Known, Stop>
    ensures { Tells cell_of result (row_cell Bare (case_names cases.now) row (plain_type t.now) at (cell_of a ∷ cell_of b ∷ [])) }
{
    if are_par(&a, &b) {
        par_of_two(alloc, cases, row, t.base, at, a, b)
    } else {
        let args = [a, b];
        open_row(alloc, row, t, at, &args)
    }
}

/// What a row gives of these two arguments, as `row_of_one` says. Integers are read where they are.
#[inline(always)]
pub fn row_of_two(
    alloc: Global,
    cases: &Cases,
    row: Row,
    t: &TypeInst,
    at: Span,
    a: Known,
    b: Known,
) -> Result<Known, Stop>
    ensures { Tells cell_of result (row_cell Bare (case_names cases.now) row (plain_type t.now) at (cell_of a ∷ cell_of b ∷ [])) }
{
    match integers_of(&a, &b) {
        None => row_of_cells(alloc, cases, row, t, at, a, b),
        Some(n) => row_of_integers(alloc, cases, row, t.base, at, n.0, n.1),
    }
}

/// The values of cells, `None` of an undefined or var one; what no other cell holds is moved.
pub fn all_given(alloc: Global, cells: Vec<Known>) -> Result<Vec<Option<Value>>, AllocError>
    ensures { IfOk result (λ vs. arguments vs.items ≡ map value_of (cells_of cells.items)) }
{
    let mut all = Vec::new(alloc);
    for k in cells {
        let v = given(alloc, k)?;
        all.push(v)?;
    }
    Ok(all)
}

fn par_of_all(
    alloc: Global,
    cases: &Cases,
    row: Row,
    base: Base,
    at: Span,
    cells: Vec<Known>,
) -> Result<Known, Stop>
    ensures { Tells cell_of result (par_row (case_names cases.now) row base at (map value_of (cells_of cells.items))) }
{
    let args = all_given(alloc, cells)?;
    par_row(alloc, cases, row, base, at, args.as_slice())
}

fn open_of_all(
    alloc: Global,
    row: Row,
    t: &TypeInst,
    at: Span,
    cells: Vec<Known>,
) -> Result<Known, Stop>
    ensures { (names : Names) → Tells cell_of result (steps.open_row names row (plain_type t.now) at (cells_of cells.items)) }
{
    open_row(alloc, row, t, at, cells.as_slice())
}

/// What a row gives of these arguments, at a node of this type, before its type is stamped on it.
/// An array that no other cell holds is moved, and not copied.
///
/// Refused IndexMismatch where index sets that are given to an array don't fit it;
/// NegativeArgument where an exponent is negative; AssertFailed where the condition of an `assert`
/// is false; Bounds where all arguments are par and the value is an integer outside
/// the limit, with this integer, or where one is var and an end of the bounds leaves the limit,
/// with this end, the lower one first. All are at `at`.
pub fn row_of_all(
    alloc: Global,
    cases: &Cases,
    row: Row,
    t: &TypeInst,
    at: Span,
    cells: Vec<Known>,
) -> Result<Known, Stop>
    ensures { Tells cell_of result (row_cell Bare (case_names cases.now) row (plain_type t.now) at (cells_of cells.items)) }
{
    if all_par(cells.as_slice()) {
        par_of_all(alloc, cases, row, t.base, at, cells)
    } else {
        open_of_all(alloc, row, t, at, cells)
    }
}
