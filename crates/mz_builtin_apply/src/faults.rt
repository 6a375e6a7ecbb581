// The faults of rows that come before their values.

ghost use Rattle.std.specs.Prelude.{◌≡◌, IfOk, unwrap_or, false, not, true};
ghost use Rattle.mz_operations.specs.Arguments.{arguments};
ghost use Rattle.mz_operations.specs.Arguments as words;
ghost use Rattle.mz_operations.specs.Answers as answers;
ghost use Rattle.mz_builtin_apply.specs.Applied.{is_applied};

use mz_builtin_arguments::{bool_at, int_at, items_at};
use mz_builtin_values::{fits, shape};
use mz_operations::{MadeRow, Row, ScalarRow};
use mz_value::Value;
use std::alloc::{AllocError, Global};

/// Whether the index sets and the array are defined and don't fit.
fn is_misfit(alloc: Global, d: u64, args: &[Option<Value>]) -> Result<bool, AllocError>
    ensures { IfOk result (λ b. b ≡ unwrap_or (answers.misfit d (arguments args.now)) false) }
{
    let Some(w) = shape(alloc, d, args)? else {
        return Ok(false);
    };
    let Some(xs) = items_at(args, d as usize) else {
        return Ok(false);
    };
    Ok(!fits(&w, xs.len() as u64))
}

#[tactic(auto, unfolding(mz_operations::specs::Answers::is_mismatched))]
pub(crate) fn is_mismatched(
    alloc: Global,
    row: Row,
    args: &[Option<Value>],
) -> Result<bool, AllocError>
    ensures { IfOk result (λ b. b ≡ answers.is_mismatched row (arguments args.now)) }
{
    match row {
        Row::Made(MadeRow::Shaped(d)) => is_misfit(alloc, d, args),
        _ => Ok(false),
    }
}

#[tactic(auto, unfolding(mz_operations::specs::Answers::negative))]
fn negative_exponent(args: &[Option<Value>]) -> Option<i64>
    ensures { result ≡ answers.negative (Row.Scalar ScalarRow.Power) (arguments args.now) }
{
    let k = int_at(args, 1)?;
    if k < 0 { Some(k) } else { None }
}

/// An argument that may not be negative and is.
#[tactic(auto, unfolding(mz_operations::specs::Answers::negative))]
pub(crate) fn negative(row: Row, args: &[Option<Value>]) -> Option<i64>
    ensures { result ≡ answers.negative row (arguments args.now) }
{
    match row {
        Row::Scalar(ScalarRow::Power) => negative_exponent(args),
        _ => None,
    }
}

fn is_unmet(args: &[Option<Value>]) -> bool
    ensures { result ≡ not (unwrap_or (words.bool_at (arguments args.now) 0) true) }
{
    match bool_at(args, 0) {
        Some(holds) => !holds,
        None => false,
    }
}

/// Whether the row is an `assert` whose condition is false; with an undefined one it is undefined.
/// Takes no memory.
#[tactic(auto, unfolding(mz_operations::specs::Answers::is_failed))]
pub fn is_failed(row: Row, args: &[Option<Value>]) -> bool
    ensures { result ≡ answers.is_failed row (arguments args.now) }
{
    match row {
        Row::Scalar(ScalarRow::Assert) => is_unmet(args),
        Row::Made(MadeRow::AssertValue) => is_unmet(args),
        Row::Made(MadeRow::AssertArray) => is_unmet(args),
        _ => false,
    }
}

/// Whether the row is no `show`. Takes no memory.
#[tactic(auto, unfolding(crate::specs::Applied::is_applied))]
pub fn is_applied(row: Row) -> bool
    ensures { result ≡ is_applied row }
{
    match row {
        Row::Show => false,
        Row::ShowArray => false,
        _ => true,
    }
}
