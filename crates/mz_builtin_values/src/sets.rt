// What sets give, and the cases beside a case.

ghost use Rattle.std.specs.Prelude.{◌≡◌};
ghost use Rattle.std.specs.Option.{option_map};
ghost use Rattle.mz_operations.specs.Arguments.{arguments};
ghost use Rattle.mz_operations.specs.Values.{scalar_value};
ghost use Rattle.mz_builtin_values.specs.Scalars.{scalar_content};

use crate::option::beside_in;
use crate::outcome::{Scalar, given};
use mz_builtin_arguments::{case_at, contains, element_at, end_of, enum_at, same_set, set_at};
use mz_operations::{ScalarRow, Side};
use mz_value::Value;

/// `in`.
#[tactic(auto, unfolding(mz_operations::specs::Values::scalar_value))]
pub(crate) fn member(args: &[Option<Value>]) -> Option<Scalar>
    ensures { option_map scalar_content result ≡ scalar_value ScalarRow.In (arguments args.now) }
{
    let x = element_at(args, 0)?;
    let s = set_at(args, 1)?;
    Some(Scalar::Truth(contains(s, x)))
}

/// `=` of sets.
#[tactic(auto, unfolding(mz_operations::specs::Values::scalar_value))]
pub(crate) fn set_equal(args: &[Option<Value>]) -> Option<Scalar>
    ensures { option_map scalar_content result ≡ scalar_value ScalarRow.SetEqual (arguments args.now) }
{
    let a = set_at(args, 0)?;
    let b = set_at(args, 1)?;
    Some(Scalar::Truth(same_set(a, b)))
}

/// `!=` of sets.
#[tactic(auto, unfolding(mz_operations::specs::Values::scalar_value))]
pub(crate) fn set_unequal(args: &[Option<Value>]) -> Option<Scalar>
    ensures { option_map scalar_content result ≡ scalar_value ScalarRow.SetUnequal (arguments args.now) }
{
    let a = set_at(args, 0)?;
    let b = set_at(args, 1)?;
    Some(Scalar::Truth(!same_set(a, b)))
}

/// `min` and `max` of a set.
#[tactic(auto, unfolding(mz_operations::specs::Values::scalar_value))]
pub(crate) fn extreme_of_set(side: Side, args: &[Option<Value>]) -> Option<Scalar>
    ensures { option_map scalar_content result ≡ scalar_value (ScalarRow.SetExtreme side) (arguments args.now) }
{
    let s = set_at(args, 0)?;
    let n = end_of(side, s)?;
    Some(given(enum_at(args, 0), n))
}

/// `card`.
#[tactic(auto, unfolding(mz_operations::specs::Values::scalar_value))]
pub(crate) fn card(args: &[Option<Value>]) -> Option<Scalar>
    ensures { option_map scalar_content result ≡ scalar_value ScalarRow.Card (arguments args.now) }
{
    let s = set_at(args, 0)?;
    Some(Scalar::Number(s.card() as i128))
}

/// `enum_prev` and `enum_next`.
#[tactic(auto, unfolding(mz_operations::specs::Values::scalar_value))]
pub(crate) fn neighbour(side: Side, args: &[Option<Value>]) -> Option<Scalar>
    ensures { option_map scalar_content result ≡ scalar_value (ScalarRow.Beside side) (arguments args.now) }
{
    let s = set_at(args, 0)?;
    let c = case_at(args, 1)?;
    let n = beside_in(side, s, c.1)?;
    Some(Scalar::Case(c.0, n))
}
