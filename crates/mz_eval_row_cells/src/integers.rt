// Rows of two integers, which need no values of arguments.

ghost use Rattle.std.specs.Prelude.{◌≡◌, ◌∷◌, [], IfSome, Some};
ghost use Rattle.std.specs.Option.{option_map};
ghost use Rattle.mz_value.specs.Contents as values;
ghost use Rattle.mz_value.specs.Contents.{case_names, int};
ghost use Rattle.mz_operations.specs.Answers.{limited};
ghost use Rattle.mz_operations.specs.Values.{scalar_value};
ghost use Rattle.mz_builtin_values.specs.Scalars.{scalar_content};
ghost use Rattle.mz_meaning.specs.Cells.{par_value};
ghost use Rattle.mz_meaning.specs.Coerced as coerced;
ghost use Rattle.mz_meaning.specs.Operations.{par_answer, par_row};
ghost use Rattle.mz_eval_cells.specs.Views.{cell_of, item_content};
ghost use Rattle.mz_eval_cells.specs.Meets.{Tells};

use crate::applied::par_row;
use mz_base::{Fault, Kind, Span, Stop};
use mz_builtin_arguments::is_number;
use mz_builtin_values::{Scalar, scalar};
use mz_core::Base;
use mz_eval_cells::{Item, Known, one, undefined};
use mz_operations::{Row, ScalarRow};
use mz_value::{Cases, Value};
use std::alloc::Global;

fn integer_in(i: &Item) -> Option<i64>
    ensures { IfSome result (λ n. item_content i.now ≡ int n) }
{
    match i {
        Item::Int(n) => Some(*n),
        _ => None,
    }
}

/// The integer that a par cell is.
fn integer_of(k: &Known) -> Option<i64>
    ensures { IfSome result (λ n. cell_of k.now ≡ par_value (int n)) }
{
    match k {
        Known::One(i) => integer_in(i),
        _ => None,
    }
}

/// The integers that two par cells are.
pub(crate) fn integers_of(a: &Known, b: &Known) -> Option<(i64, i64)>
    ensures { IfSome result (λ n. (cell_of a.now ≡ par_value (int n.0)) × (cell_of b.now ≡ par_value (int n.1))) }
{
    let x = integer_of(a)?;
    let y = integer_of(b)?;
    Some((x, y))
}

/// The cell of a truth value, as one of this base.
fn truth_cell(base: Base, b: bool) -> Known
    ensures { cell_of result ≡ par_value (coerced.recast base (values.bool b)) }
{
    match base {
        Base::Int => one(Item::Int(b as i64)),
        _ => one(Item::Bool(b)),
    }
}

/// The cell of an integer, as one of this base.
fn number_cell(base: Base, n: i64) -> Known
    ensures { cell_of result ≡ par_value (coerced.recast base (int n)) }
{
    match base {
        Base::Bool => one(Item::Bool(n != 0)),
        Base::Enum(e) => one(Item::Enum(e, n)),
        _ => one(Item::Int(n)),
    }
}

/// The cell of a case, as one of this base.
fn case_cell(base: Base, e: u64, k: i64) -> Known
    ensures { cell_of result ≡ par_value (coerced.recast base (values.case e k)) }
{
    match base {
        Base::Int => one(Item::Int(k)),
        _ => one(Item::Enum(e, k)),
    }
}

/// The cell of a computed integer, where it lies in the limit.
#[tactic(auto, unfolding(mz_operations::specs::Answers::limited))]
fn limited_cell(base: Base, at: Span, n: i128) -> Result<Known, Stop>
    ensures { Tells cell_of result (par_answer base at (limited (Some (int n)))) }
{
    if is_number(n) {
        Ok(number_cell(base, n as i64))
    } else {
        Err(Stop::Refused(Fault {
            kind: Kind::Bounds,
            span: at,
            number: n,
        }))
    }
}

/// The cell of what a row gives, where it is no integer outside the limit.
#[tactic(auto, unfolding(mz_operations::specs::Answers::limited))]
pub(crate) fn scalar_cell(base: Base, at: Span, v: Option<Scalar>) -> Result<Known, Stop>
    ensures { Tells cell_of result (par_answer base at (limited (option_map scalar_content v))) }
{
    match v {
        None => Ok(undefined()),
        Some(Scalar::Truth(b)) => Ok(truth_cell(base, b)),
        Some(Scalar::Number(n)) => limited_cell(base, at, n),
        Some(Scalar::Case(e, k)) => Ok(case_cell(base, e, k)),
    }
}

/// A row that gives a scalar and has no fault of its own.
fn scalar_of_integers(row: ScalarRow, base: Base, at: Span, x: i64, y: i64) -> Result<Known, Stop>
    ensures { Tells cell_of result (par_answer base at (limited (scalar_value row (Some (int x) ∷ Some (int y) ∷ [])))) }
{
    let args = [Some(Value::Int(x)), Some(Value::Int(y))];
    let v = scalar(row, &args);
    scalar_cell(base, at, v)
}

/// Any row, by the values of the integers.
fn values_of_integers(
    alloc: Global,
    cases: &Cases,
    row: Row,
    base: Base,
    at: Span,
    x: i64,
    y: i64,
) -> Result<Known, Stop>
    ensures { Tells cell_of result (par_row (case_names cases.now) row base at (Some (int x) ∷ Some (int y) ∷ [])) }
{
    let args = [Some(Value::Int(x)), Some(Value::Int(y))];
    par_row(alloc, cases, row, base, at, &args)
}

/// What a row gives of two integers, as `par_row` says.
#[tactic(auto, unfolding(mz_operations::specs::Answers::is_mismatched, mz_operations::specs::Answers::negative, mz_operations::specs::Answers::is_failed))]
pub(crate) fn row_of_integers(
    alloc: Global,
    cases: &Cases,
    row: Row,
    base: Base,
    at: Span,
    x: i64,
    y: i64,
) -> Result<Known, Stop>
    ensures { Tells cell_of result (par_row (case_names cases.now) row base at (Some (int x) ∷ Some (int y) ∷ [])) }
{
    match row {
        Row::Scalar(ScalarRow::Arith(op)) => {
            scalar_of_integers(ScalarRow::Arith(op), base, at, x, y)
        }
        Row::Scalar(ScalarRow::Order(op)) => {
            scalar_of_integers(ScalarRow::Order(op), base, at, x, y)
        }
        Row::Scalar(ScalarRow::Equal) => scalar_of_integers(ScalarRow::Equal, base, at, x, y),
        Row::Scalar(ScalarRow::Unequal) => scalar_of_integers(ScalarRow::Unequal, base, at, x, y),
        _ => values_of_integers(alloc, cases, row, base, at, x, y),
    }
}
