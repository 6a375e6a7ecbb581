// Rows of par values.

ghost use Rattle.std.specs.Prelude.{◌≡◌, IfOk, false, true};
ghost use Rattle.std.specs.Option.{option_map};
ghost use Rattle.mz_value.specs.Contents.{case_names, content};
ghost use Rattle.mz_value.specs.Shown.{Names};
ghost use Rattle.mz_operations.specs.Arguments.{arguments};
ghost use Rattle.mz_operations.specs.Answers.{answer};
ghost use Rattle.mz_operations.specs.Answers as answers;
ghost use Rattle.mz_builtin_apply.specs.Applied as applied;
ghost use Rattle.mz_meaning.specs.Runs.{give};
ghost use Rattle.mz_meaning.specs.Cells.{Par};
ghost use Rattle.mz_meaning.specs.Coerced as coerced;
ghost use Rattle.mz_meaning.specs.Operations.{par_answer, par_row};
ghost use Rattle.mz_eval_cells.specs.Views.{cell_of};
ghost use Rattle.mz_eval_cells.specs.Meets.{Tells};
ghost use Rattle.mz_eval_row_cells.specs.Steps.{shown_of};

use crate::showing::shown;
use mz_base::{Fault, Kind, Span, Stop};
use mz_builtin_apply::{apply_row, is_failed};
use mz_core::Base;
use mz_eval_cells::{Known, known_of, recast};
use mz_operations::Row;
use mz_value::{Cases, Value};
use std::alloc::{AllocError, Global};

fn recast_if(base: Base, v: Option<Value>) -> Option<Value>
    ensures { option_map content result ≡ option_map (coerced.recast base) (option_map content v) }
{
    match v {
        None => None,
        Some(x) => Some(recast(base, x)),
    }
}

/// The par cell of a value, as one of this base.
pub(crate) fn recast_known(alloc: Global, base: Base, v: Option<Value>) -> Result<Known, AllocError>
    ensures { IfOk result (λ k. cell_of k ≡ Par (option_map (coerced.recast base) (option_map content v))) }
{
    let k = known_of(alloc, recast_if(base, v))?;
    Ok(k)
}

fn applied(
    alloc: Global,
    row: Row,
    base: Base,
    at: Span,
    args: &[Option<Value>],
) -> Result<Known, Stop>
    requires applied { applied.is_applied row ≡ true }
    requires holds { answers.is_failed row (arguments args.now) ≡ false }
    ensures { (names : Names) → Tells cell_of result (par_answer base at (answer names row (arguments args.now))) }
{
    let v = apply_row(alloc, row, args, at)?;
    let k = recast_known(alloc, base, v)?;
    Ok(k)
}

/// A row but `show`.
fn applied_or_failed(
    alloc: Global,
    row: Row,
    base: Base,
    at: Span,
    args: &[Option<Value>],
) -> Result<Known, Stop>
    requires { applied.is_applied row ≡ true }
    ensures { (names : Names) → Tells cell_of result (par_answer base at (answer names row (arguments args.now))) }
{
    if is_failed(row, args) {
        Err(Stop::Refused(Fault::at(Kind::AssertFailed, at)))
    } else {
        applied(alloc, row, base, at, args)
    }
}

fn shown_row(
    alloc: Global,
    cases: &Cases,
    base: Base,
    args: &[Option<Value>],
) -> Result<Known, Stop>
    ensures { Tells cell_of result (give (Par (option_map (coerced.recast base) (shown_of (case_names cases.now) (arguments args.now))))) }
{
    let v = shown(alloc, cases, args)?;
    let k = recast_known(alloc, base, v)?;
    Ok(k)
}

/// `show` of what is no array.
fn show_one(
    alloc: Global,
    cases: &Cases,
    base: Base,
    at: Span,
    args: &[Option<Value>],
) -> Result<Known, Stop>
    ensures { Tells cell_of result (par_row (case_names cases.now) Row.Show base at (arguments args.now)) }
{
    let _at = at;
    shown_row(alloc, cases, base, args)
}

/// `show` of an array.
fn show_array(
    alloc: Global,
    cases: &Cases,
    base: Base,
    at: Span,
    args: &[Option<Value>],
) -> Result<Known, Stop>
    ensures { Tells cell_of result (par_row (case_names cases.now) Row.ShowArray base at (arguments args.now)) }
{
    let _at = at;
    shown_row(alloc, cases, base, args)
}

/// What a row gives of par arguments, of which each is undefined or a value, as a value of this
/// base. Refused AssertFailed where it is an `assert` whose condition is false, and as
/// `apply_row` of mz_builtin_apply says.
#[tactic(auto, unfolding(mz_builtin_apply::specs::Applied::is_applied))]
pub(crate) fn par_row(
    alloc: Global,
    cases: &Cases,
    row: Row,
    base: Base,
    at: Span,
    args: &[Option<Value>],
) -> Result<Known, Stop>
    ensures { Tells cell_of result (par_row (case_names cases.now) row base at (arguments args.now)) }
{
    match row {
        Row::Show => show_one(alloc, cases, base, at, args),
        Row::ShowArray => show_array(alloc, cases, base, at, args),
        Row::Scalar(_) => applied_or_failed(alloc, row, base, at, args),
        Row::Made(_) => applied_or_failed(alloc, row, base, at, args),
        Row::Bounding(_) => applied_or_failed(alloc, row, base, at, args),
    }
}
