// Connectives, orders and equality.

ghost use Rattle.std.specs.Prelude.{◌≡◌};
ghost use Rattle.std.specs.Option.{option_map};
ghost use Rattle.mz_operations.specs.Arguments.{arguments};
ghost use Rattle.mz_operations.specs.Values.{scalar_value};
ghost use Rattle.mz_builtin_values.specs.Scalars.{scalar_content};

use crate::fold::{fold_options, fold_truths};
use crate::number::{connected, ordered};
use crate::option::equality;
use crate::outcome::Scalar;
use mz_builtin_arguments::{bool_at, is_absent, items_at, option_at, pair, text_at};
use mz_operations::{Comparison, Connective, Quantifier, ScalarRow};
use mz_value::Value;

/// A connective of two truth values.
#[tactic(auto, unfolding(mz_operations::specs::Values::scalar_value))]
pub(crate) fn connective(op: Connective, args: &[Option<Value>]) -> Option<Scalar>
    ensures { option_map scalar_content result ≡ scalar_value (ScalarRow.Logic op) (arguments args.now) }
{
    let a = bool_at(args, 0)?;
    let b = bool_at(args, 1)?;
    Some(Scalar::Truth(connected(op, a, b)))
}

/// `not`.
#[tactic(auto, unfolding(mz_operations::specs::Values::scalar_value))]
pub(crate) fn negation(args: &[Option<Value>]) -> Option<Scalar>
    ensures { option_map scalar_content result ≡ scalar_value ScalarRow.Not (arguments args.now) }
{
    let a = bool_at(args, 0)?;
    Some(Scalar::Truth(!a))
}

/// An order of two truth values, integers or cases.
#[tactic(auto, unfolding(mz_operations::specs::Values::scalar_value))]
pub(crate) fn order(op: Comparison, args: &[Option<Value>]) -> Option<Scalar>
    ensures { option_map scalar_content result ≡ scalar_value (ScalarRow.Order op) (arguments args.now) }
{
    let p = pair(args)?;
    Some(Scalar::Truth(ordered(op, p.0, p.1)))
}

/// `=` of truth values, integers, cases, or options of these.
#[tactic(auto, unfolding(mz_operations::specs::Values::scalar_value))]
pub(crate) fn equal(args: &[Option<Value>]) -> Option<Scalar>
    ensures { option_map scalar_content result ≡ scalar_value ScalarRow.Equal (arguments args.now) }
{
    let x = option_at(args, 0)?;
    let y = option_at(args, 1)?;
    let same = equality(x, y)?;
    Some(Scalar::Truth(same))
}

/// `!=` of the same.
#[tactic(auto, unfolding(mz_operations::specs::Values::scalar_value))]
pub(crate) fn unequal(args: &[Option<Value>]) -> Option<Scalar>
    ensures { option_map scalar_content result ≡ scalar_value ScalarRow.Unequal (arguments args.now) }
{
    let x = option_at(args, 0)?;
    let y = option_at(args, 1)?;
    let same = equality(x, y)?;
    Some(Scalar::Truth(!same))
}

/// `forall`, `exists` and `xorall`.
#[tactic(auto, unfolding(mz_operations::specs::Values::scalar_value))]
pub(crate) fn quantifier(op: Quantifier, args: &[Option<Value>]) -> Option<Scalar>
    ensures { option_map scalar_content result ≡ scalar_value (ScalarRow.Quantified op) (arguments args.now) }
{
    let xs = items_at(args, 0)?;
    let b = fold_options(op, xs)?;
    Some(Scalar::Truth(b))
}

/// `clause`.
#[tactic(auto, unfolding(mz_operations::specs::Values::scalar_value))]
pub(crate) fn clause(args: &[Option<Value>]) -> Option<Scalar>
    ensures { option_map scalar_content result ≡ scalar_value ScalarRow.Clause (arguments args.now) }
{
    let xs = items_at(args, 0)?;
    let ys = items_at(args, 1)?;
    let some = fold_truths(Quantifier::Exists, false, xs)?;
    let all = fold_truths(Quantifier::Forall, true, ys)?;
    Some(Scalar::Truth(some || !all))
}

/// `assert` of two arguments.
#[tactic(auto, unfolding(mz_operations::specs::Values::scalar_value))]
pub(crate) fn assertion(args: &[Option<Value>]) -> Option<Scalar>
    ensures { option_map scalar_content result ≡ scalar_value ScalarRow.Assert (arguments args.now) }
{
    let _holds = bool_at(args, 0)?;
    let _message = text_at(args, 1)?;
    Some(Scalar::Truth(true))
}

/// `occurs`.
#[tactic(auto, unfolding(mz_operations::specs::Values::scalar_value))]
pub(crate) fn occurs(args: &[Option<Value>]) -> Option<Scalar>
    ensures { option_map scalar_content result ≡ scalar_value ScalarRow.Occurs (arguments args.now) }
{
    let x = option_at(args, 0)?;
    Some(Scalar::Truth(!is_absent(x)))
}

/// `absent`.
#[tactic(auto, unfolding(mz_operations::specs::Values::scalar_value))]
pub(crate) fn absent(args: &[Option<Value>]) -> Option<Scalar>
    ensures { option_map scalar_content result ≡ scalar_value ScalarRow.Absent (arguments args.now) }
{
    let x = option_at(args, 0)?;
    Some(Scalar::Truth(is_absent(x)))
}
