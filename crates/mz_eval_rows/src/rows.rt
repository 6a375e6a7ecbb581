// Rows over cells in a run, one function for each number of arguments.

ghost use Rattle.std.specs.Prelude.{◌≡◌, ◌+◌, ◌*◌, ◌∷◌, [], IfOk, IfSome};
ghost use Rattle.mz_value.specs.Contents.{case_names};
ghost use Rattle.mz_core.specs.Types.{plain_type};
ghost use Rattle.mz_operations.specs.declared.row.MadeRow.TheVariants as made;
ghost use Rattle.mz_operations.specs.declared.row.Row.TheVariants.{Made};
ghost use Rattle.mz_meaning.specs.Cells.{value_of};
ghost use Rattle.mz_meaning.specs.Operations.{row_cost};
ghost use Rattle.mz_symbol.specs.Makes.{GoesOn, GoesOnBy, Means};
ghost use Rattle.mz_eval_cells.specs.Views.{all_seen, cell_of, cells_of, seen};
ghost use Rattle.mz_eval_row_symbols.specs.NodeRows.{row_node, stamped};
ghost use Rattle.mz_eval_rows.specs.Settled.{IsExact, IsSettled};

use crate::asserted::{is_assert, row_of_asserted};
use crate::handed::{is_lined, lined_row};
use crate::reshaped::{row_of_shaped, row_of_whole};
use crate::settled::{settled_one, settled_two, valued};
use mz_base::{Span, Stop};
use mz_core::TypeInst;
use mz_eval_cells::{Known, is_par, share};
use mz_eval_row_symbols::{
    Argument, cell_by_ends, cell_of_one, cell_of_two, ends_of_two, par_row_of_one, par_row_of_two,
    shape_of_one, shape_of_two, whole,
};
use mz_operations::{MadeRow, Row};
use mz_symbol::Run;
use mz_value::Cases;
use std::alloc::{AllocError, Global};

/// A row of a par argument, which no other cell holds.
fn row_of_par(
    alloc: Global,
    cases: &Cases,
    row: Row,
    t: &TypeInst,
    at: Span,
    a: Known,
    run: &mut Run,
) -> Result<Known, Stop>
    ensures goes { GoesOn run.old run.new }
    ensures means { Means (stamped (plain_type t.now)) result run.old run.new
        (λ r. row_node r.mode (case_names cases.now) row (plain_type t.now) at (seen r a ∷ [])) }
{
    let shape = shape_of_one(alloc, cases, row, t, at, a)?;
    let k = whole(shape)?;
    Ok(k)
}

/// A row of a var argument.
fn row_of_var(
    alloc: Global,
    cases: &Cases,
    row: Row,
    t: &TypeInst,
    at: Span,
    a: &Argument,
    run: &mut Run,
) -> Result<Known, Stop>
    ensures goes { GoesOnBy (64 * (1 + row_cost row (cell_of a.now.cell ∷ []))) run.old run.new }
    ensures means { Means (stamped (plain_type t.now)) result run.old run.new
        (λ r. row_node r.mode (case_names cases.now) row (plain_type t.now) at (seen r a.now.cell ∷ [])) }
{
    let same = share(&a.cell)?;
    let shape = shape_of_one(alloc, cases, row, t, at, same)?;
    cell_of_one(alloc, row, t, &shape, a, run)
}

/// A row of a var argument, or `array1d` of a var array, which is handed on.
#[tactic(auto, using(mz_eval_row_symbols::proofs::ToldLaws::goes_paid))]
fn row_by_argument(
    alloc: Global,
    cases: &Cases,
    row: Row,
    t: &TypeInst,
    at: Span,
    a: &Argument,
    run: &mut Run,
) -> Result<Known, Stop>
    ensures goes { GoesOnBy (64 * (1 + row_cost row (cell_of a.now.cell ∷ []))) run.old run.new }
    ensures means { Means (stamped (plain_type t.now)) result run.old run.new (λ r. row_node r.mode (case_names cases.now) row (plain_type t.now) at (seen r a.now.cell ∷ [])) }
{
    if is_lined(row, &a.cell) {
        return lined_row(alloc, &a.cell, run);
    }
    row_of_var(alloc, cases, row, t, at, a, run)
}

/// A row of an argument whose value no node tells, by the row of a par one with that value.
fn row_of_settled(
    alloc: Global,
    cases: &Cases,
    row: Row,
    t: &TypeInst,
    at: Span,
    a: Known,
    x: Known,
    run: &mut Run,
) -> Result<Known, Stop>
    requires settled { IsSettled a x }
    requires exact { IsExact row (value_of (cell_of x) ∷ []) }
    ensures goes { GoesOn run.old run.new }
    ensures means { Means (stamped (plain_type t.now)) result run.old run.new
        (λ r. row_node r.mode (case_names cases.now) row (plain_type t.now) at (seen r a ∷ [])) }
{
    let shape = shape_of_one(alloc, cases, row, t, at, a)?;
    let Ok(par) = par_row_of_one(alloc, cases, row, t, at, x) else {
        return Err(Stop::Memory);
    };
    let k = valued(alloc, &shape, &par)?;
    Ok(k)
}

/// What a row gives of this argument in a run, at a node of this type, before its type is stamped on
/// it. What its nodes may cost, the work of the row's node pays for. An array that no other cell
/// holds is moved, and none is copied.
///
/// The refusals are those of `row_of_all`. Out of memory too where the argument isn't of its type, or
/// the row's term isn't made yet.
pub fn row_of_one(
    alloc: Global,
    cases: &Cases,
    row: Row,
    t: &TypeInst,
    at: Span,
    a: Argument,
    run: &mut Run,
) -> Result<Known, Stop>
    ensures goes { GoesOnBy (64 * (1 + row_cost row (cell_of a.cell ∷ []))) run.old run.new }
    ensures means { Means (stamped (plain_type t.now)) result run.old run.new
        (λ r. row_node r.mode (case_names cases.now) row (plain_type t.now) at (seen r a.cell ∷ [])) }
{
    if is_par(&a.cell) {
        return row_of_par(alloc, cases, row, t, at, a.cell, run);
    }
    let Ok(x) = settled_one(row, &a.cell) else {
        return row_by_argument(alloc, cases, row, t, at, &a, run);
    };
    row_of_settled(alloc, cases, row, t, at, a.cell, x, run)
}

/// What a row gives of two par arguments, at a node of this type, before its type is stamped on it.
/// No node is made. The refusals are those of `row_of_all`.
#[inline(always)]
pub fn rows_of_par(
    alloc: Global,
    cases: &Cases,
    row: Row,
    t: &TypeInst,
    at: Span,
    a: Known,
    b: Known,
    run: &mut Run,
) -> Result<Known, Stop>
    ensures goes { GoesOn run.old run.new }
    ensures means { Means (stamped (plain_type t.now)) result run.old run.new
        (λ r. row_node r.mode (case_names cases.now) row (plain_type t.now) at (seen r a ∷ seen r b ∷ [])) }
{
    let shape = shape_of_two(alloc, cases, row, t, at, a, b)?;
    let k = whole(shape)?;
    Ok(k)
}

/// A row of two arguments whose values no node tells, by the row of par ones with these values.
fn rows_of_settled(
    alloc: Global,
    cases: &Cases,
    row: Row,
    t: &TypeInst,
    at: Span,
    args: (Known, Known),
    pars: (Known, Known),
    run: &mut Run,
) -> Result<Known, Stop>
    requires first { IsSettled args.0 pars.0 }
    requires second { IsSettled args.1 pars.1 }
    requires exact { IsExact row (value_of (cell_of pars.0) ∷ value_of (cell_of pars.1) ∷ []) }
    ensures goes { GoesOn run.old run.new }
    ensures means { Means (stamped (plain_type t.now)) result run.old run.new
        (λ r. row_node r.mode (case_names cases.now) row (plain_type t.now) at (seen r args.0 ∷ seen r args.1 ∷ [])) }
{
    let shape = shape_of_two(alloc, cases, row, t, at, args.0, args.1)?;
    let Ok(par) = par_row_of_two(alloc, cases, row, t, at, pars.0, pars.1) else {
        return Err(Stop::Memory);
    };
    let k = valued(alloc, &shape, &par)?;
    Ok(k)
}

/// A row of two arguments, of which one is var, from its cell without values.
fn rows_of_shape(
    alloc: Global,
    cases: &Cases,
    row: Row,
    t: &TypeInst,
    at: Span,
    a: &Argument,
    b: &Argument,
    run: &mut Run,
) -> Result<Known, Stop>
    ensures goes { GoesOnBy (64 * (1 + row_cost row (cell_of a.now.cell ∷ cell_of b.now.cell ∷ []))) run.old run.new }
    ensures means { Means (stamped (plain_type t.now)) result run.old run.new
        (λ r. row_node r.mode (case_names cases.now) row (plain_type t.now) at (seen r a.now.cell ∷ seen r b.now.cell ∷ [])) }
{
    let x = share(&a.cell)?;
    let y = share(&b.cell)?;
    let shape = shape_of_two(alloc, cases, row, t, at, x, y)?;
    cell_of_two(alloc, row, t, &shape, a, b, run)
}

/// A row of two arguments, of which one is var: by its ends alone where those of the arguments tell
/// them.
fn rows_of_var(
    alloc: Global,
    cases: &Cases,
    row: Row,
    t: &TypeInst,
    at: Span,
    a: &Argument,
    b: &Argument,
    run: &mut Run,
) -> Result<Known, Stop>
    ensures goes { GoesOnBy (64 * (1 + row_cost row (cell_of a.now.cell ∷ cell_of b.now.cell ∷ []))) run.old run.new }
    ensures means { Means (stamped (plain_type t.now)) result run.old run.new
        (λ r. row_node r.mode (case_names cases.now) row (plain_type t.now) at (seen r a.now.cell ∷ seen r b.now.cell ∷ [])) }
{
    match ends_of_two(row, &a.cell, &b.cell) {
        Some(ends) => cell_by_ends(alloc, cases, row, t, at, ends, a, b, run),
        None => rows_of_shape(alloc, cases, row, t, at, a, b, run),
    }
}

/// What a row gives of these two arguments, as `row_of_one` says.
pub fn row_of_two(
    alloc: Global,
    cases: &Cases,
    row: Row,
    t: &TypeInst,
    at: Span,
    a: Argument,
    b: Argument,
    run: &mut Run,
) -> Result<Known, Stop>
    ensures goes { GoesOnBy (64 * (1 + row_cost row (cell_of a.cell ∷ cell_of b.cell ∷ []))) run.old run.new }
    ensures means { Means (stamped (plain_type t.now)) result run.old run.new
        (λ r. row_node r.mode (case_names cases.now) row (plain_type t.now) at (seen r a.cell ∷ seen r b.cell ∷ [])) }
{
    if is_par(&a.cell) && is_par(&b.cell) {
        return rows_of_par(alloc, cases, row, t, at, a.cell, b.cell, run);
    }
    if shaped_sets(row).is_some() {
        return row_of_list(alloc, cases, row, t, at, (a.cell, b.cell), run);
    }
    let Ok(pars) = settled_two(row, &a.cell, &b.cell) else {
        return rows_of_var(alloc, cases, row, t, at, &a, &b, run);
    };
    rows_of_settled(alloc, cases, row, t, at, (a.cell, b.cell), pars, run)
}

/// How many index sets a row gives to an array.
fn shaped_sets(row: Row) -> Option<u64>
    ensures { IfSome result (λ d. row ≡ Made (made.Shaped d)) }
{
    match row {
        Row::Made(MadeRow::Shaped(d)) => Some(d),
        _ => None,
    }
}

/// What a row gives of these arguments in a run, as `row_of_one` says. They are no single values:
/// of a row of one or two single values there are `row_of_one` and `row_of_two`.
///
/// Refused IndexMismatch where index sets that are given to an array don't fit it;
/// NegativeArgument where an exponent is negative; AssertFailed where the condition of an `assert`
/// is false; Bounds where all arguments are par and the value is an integer outside
/// the limit, with this integer, or where one is var and an end of the bounds leaves the limit,
/// with this end, the lower one first. All are at `at`.
#[tactic(auto, using(mz_eval_row_symbols::proofs::ToldLaws::goes_paid))]
pub fn row_of_all(
    alloc: Global,
    cases: &Cases,
    row: Row,
    t: &TypeInst,
    at: Span,
    cells: Vec<Known>,
    run: &mut Run,
) -> Result<Known, Stop>
    ensures goes { GoesOnBy (64 * (1 + row_cost row (cells_of cells.items))) run.old run.new }
    ensures means { Means (stamped (plain_type t.now)) result run.old run.new
        (λ r. row_node r.mode (case_names cases.now) row (plain_type t.now) at (all_seen r cells.items)) }
{
    if is_assert(row) {
        return row_of_asserted(alloc, cases, row, t, at, cells, run);
    }
    let Some(d) = shaped_sets(row) else {
        return row_of_whole(alloc, cases, row, t, at, cells, run);
    };
    row_of_shaped(alloc, cases, d, t, at, cells, run)
}

fn list_of(alloc: Global, a: Known, b: Known) -> Result<Vec<Known>, AllocError>
    ensures { IfOk result (λ v. v.items ≡ a ∷ b ∷ []) }
{
    let mut all = Vec::new(alloc);
    all.push(a)?;
    all.push(b)?;
    Ok(all)
}

/// The same of two arguments.
fn row_of_list(
    alloc: Global,
    cases: &Cases,
    row: Row,
    t: &TypeInst,
    at: Span,
    args: (Known, Known),
    run: &mut Run,
) -> Result<Known, Stop>
    ensures goes { GoesOnBy (64 * (1 + row_cost row (cell_of args.0 ∷ cell_of args.1 ∷ []))) run.old run.new }
    ensures means { Means (stamped (plain_type t.now)) result run.old run.new
        (λ r. row_node r.mode (case_names cases.now) row (plain_type t.now) at (seen r args.0 ∷ seen r args.1 ∷ [])) }
{
    let all = list_of(alloc, args.0, args.1)?;
    row_of_all(alloc, cases, row, t, at, all, run)
}
