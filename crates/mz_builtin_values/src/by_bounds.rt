// Rows that answer by the bounds of their argument, where it is par: then its bounds are its value.

ghost use Rattle.std.specs.Prelude.{◌≡◌, IfOk};
ghost use Rattle.std.specs.Option.{option_map};
ghost use Rattle.mz_value.specs.Contents.{content};
ghost use Rattle.mz_operations.specs.Arguments.{arguments};
ghost use Rattle.mz_operations.specs.Values.{bounding_value};

use crate::building::{bool_value, set_value};
use crate::extreme;
use mz_builtin_arguments::{argument, copied, int_at, is_bounded, is_fixable, items_at, up_to};
use mz_operations::{BoundingRow, Side};
use mz_value::Value;
use std::alloc::{AllocError, Global};

/// `lb` of an integer or a set.
#[tactic(auto, unfolding(mz_operations::specs::Values::bounding_value))]
pub(crate) fn lower_bound(
    alloc: Global,
    args: &[Option<Value>],
) -> Result<Option<Value>, AllocError>
    ensures { IfOk result (λ v. option_map content v ≡ bounding_value BoundingRow.Lb (arguments args.now)) }
{
    let Some(x) = argument(args, 0) else {
        return Ok(None);
    };
    if !is_bounded(x) {
        return Ok(None);
    }
    let value = copied(alloc, x)?;
    Ok(Some(value))
}

/// `ub` of an integer or a set.
#[tactic(auto, unfolding(mz_operations::specs::Values::bounding_value))]
pub(crate) fn upper_bound(
    alloc: Global,
    args: &[Option<Value>],
) -> Result<Option<Value>, AllocError>
    ensures { IfOk result (λ v. option_map content v ≡ bounding_value BoundingRow.Ub (arguments args.now)) }
{
    let Some(x) = argument(args, 0) else {
        return Ok(None);
    };
    if !is_bounded(x) {
        return Ok(None);
    }
    let value = copied(alloc, x)?;
    Ok(Some(value))
}

/// `dom`.
#[tactic(auto, unfolding(mz_operations::specs::Values::bounding_value))]
pub(crate) fn domain(alloc: Global, args: &[Option<Value>]) -> Result<Option<Value>, AllocError>
    ensures { IfOk result (λ v. option_map content v ≡ bounding_value BoundingRow.Dom (arguments args.now)) }
{
    let Some(n) = int_at(args, 0) else {
        return Ok(None);
    };
    let Some(s) = up_to(alloc, n, n)? else {
        return Ok(None);
    };
    Ok(Some(set_value(None, s)))
}

/// `is_fixed`.
#[tactic(auto, unfolding(mz_operations::specs::Values::bounding_value))]
pub(crate) fn is_fixed(_alloc: Global, args: &[Option<Value>]) -> Result<Option<Value>, AllocError>
    ensures { IfOk result (λ v. option_map content v ≡ bounding_value BoundingRow.IsFixed (arguments args.now)) }
{
    let Some(x) = argument(args, 0) else {
        return Ok(None);
    };
    if is_fixable(x) {
        Ok(Some(bool_value(true)))
    } else {
        Ok(None)
    }
}

/// `fix`.
#[tactic(auto, unfolding(mz_operations::specs::Values::bounding_value))]
pub(crate) fn fixed(alloc: Global, args: &[Option<Value>]) -> Result<Option<Value>, AllocError>
    ensures { IfOk result (λ v. option_map content v ≡ bounding_value BoundingRow.Fix (arguments args.now)) }
{
    let Some(x) = argument(args, 0) else {
        return Ok(None);
    };
    if !is_fixable(x) {
        return Ok(None);
    }
    let value = copied(alloc, x)?;
    Ok(Some(value))
}

/// `lb_array`.
#[tactic(auto, unfolding(mz_operations::specs::Values::bounding_value, mz_operations::specs::Values::scalar_value))]
pub(crate) fn lower_bound_of_array(
    _alloc: Global,
    args: &[Option<Value>],
) -> Result<Option<Value>, AllocError>
    ensures { IfOk result (λ v. option_map content v ≡ bounding_value BoundingRow.LbArray (arguments args.now)) }
{
    let Some(xs) = items_at(args, 0) else {
        return Ok(None);
    };
    let Some(found) = extreme(Side::Least, xs) else {
        return Ok(None);
    };
    let Some(n) = found else {
        return Ok(None);
    };
    Ok(Some(Value::Int(n)))
}

/// `ub_array`.
#[tactic(auto, unfolding(mz_operations::specs::Values::bounding_value, mz_operations::specs::Values::scalar_value))]
pub(crate) fn upper_bound_of_array(
    _alloc: Global,
    args: &[Option<Value>],
) -> Result<Option<Value>, AllocError>
    ensures { IfOk result (λ v. option_map content v ≡ bounding_value BoundingRow.UbArray (arguments args.now)) }
{
    let Some(xs) = items_at(args, 0) else {
        return Ok(None);
    };
    let Some(found) = extreme(Side::Greatest, xs) else {
        return Ok(None);
    };
    let Some(n) = found else {
        return Ok(None);
    };
    Ok(Some(Value::Int(n)))
}
