// Operations on integers, and on arrays of these.

ghost use Rattle.std.specs.Prelude.{◌≡◌};
ghost use Rattle.std.specs.Option.{option_map};
ghost use Rattle.mz_operations.specs.Arguments.{arguments};
ghost use Rattle.mz_operations.specs.Values.{scalar_value};
ghost use Rattle.mz_builtin_values.specs.Scalars.{scalar_content};

use crate::fold::{extreme, fold_count, fold_numbers};
use crate::number::{computed, signed};
use crate::outcome::Scalar;
use crate::powers::power;
use mz_builtin_arguments::{int_at, items_at, ordinal_at};
use mz_operations::{Arith, Fold, ScalarRow, Side, Sign};
use mz_value::Value;

/// An operation on two integers.
#[tactic(auto, unfolding(mz_operations::specs::Values::scalar_value))]
pub(crate) fn arith(op: Arith, args: &[Option<Value>]) -> Option<Scalar>
    ensures { option_map scalar_content result ≡ scalar_value (ScalarRow.Arith op) (arguments args.now) }
{
    let x = int_at(args, 0)?;
    let y = int_at(args, 1)?;
    let n = computed(op, x, y)?;
    Some(Scalar::Number(n))
}

/// An operation on one integer.
#[tactic(auto, unfolding(mz_operations::specs::Values::scalar_value))]
pub(crate) fn sign(op: Sign, args: &[Option<Value>]) -> Option<Scalar>
    ensures { option_map scalar_content result ≡ scalar_value (ScalarRow.Sign op) (arguments args.now) }
{
    let x = int_at(args, 0)?;
    Some(Scalar::Number(signed(op, x)))
}

/// `^` and `pow`.
#[tactic(auto, unfolding(mz_operations::specs::Values::scalar_value))]
pub(crate) fn to_the_power(args: &[Option<Value>]) -> Option<Scalar>
    ensures { option_map scalar_content result ≡ scalar_value ScalarRow.Power (arguments args.now) }
{
    let x = int_at(args, 0)?;
    let k = int_at(args, 1)?;
    let n = power(x, k)?;
    Some(Scalar::Number(n))
}

/// `sum` and `product`.
#[tactic(auto, unfolding(mz_operations::specs::Values::scalar_value))]
pub(crate) fn fold(op: Fold, args: &[Option<Value>]) -> Option<Scalar>
    ensures { option_map scalar_content result ≡ scalar_value (ScalarRow.Fold op) (arguments args.now) }
{
    let xs = items_at(args, 0)?;
    let n = fold_numbers(op, xs)?;
    Some(Scalar::Number(n))
}

/// `min` and `max` of an array.
#[tactic(auto, unfolding(mz_operations::specs::Values::scalar_value))]
pub(crate) fn extreme_of_array(side: Side, args: &[Option<Value>]) -> Option<Scalar>
    ensures { option_map scalar_content result ≡ scalar_value (ScalarRow.Extreme side) (arguments args.now) }
{
    let xs = items_at(args, 0)?;
    let found = extreme(side, xs)?;
    let n = found?;
    Some(Scalar::Number(n as i128))
}

/// `count` of truth values.
#[tactic(auto, unfolding(mz_operations::specs::Values::scalar_value))]
pub(crate) fn count(args: &[Option<Value>]) -> Option<Scalar>
    ensures { option_map scalar_content result ≡ scalar_value ScalarRow.Count (arguments args.now) }
{
    let xs = items_at(args, 0)?;
    let n = fold_count(xs)?;
    Some(Scalar::Number(n as i128))
}

/// `bool2int` and `enum2int`.
#[tactic(auto, unfolding(mz_operations::specs::Values::scalar_value))]
pub(crate) fn ordinal(args: &[Option<Value>]) -> Option<Scalar>
    ensures { option_map scalar_content result ≡ scalar_value ScalarRow.Ordinal (arguments args.now) }
{
    let n = ordinal_at(args, 0)?;
    Some(Scalar::Number(n as i128))
}

/// `length`.
#[tactic(auto, unfolding(mz_operations::specs::Values::scalar_value))]
pub(crate) fn length(args: &[Option<Value>]) -> Option<Scalar>
    ensures { option_map scalar_content result ≡ scalar_value ScalarRow.Length (arguments args.now) }
{
    let xs = items_at(args, 0)?;
    Some(Scalar::Number(xs.len() as i128))
}
