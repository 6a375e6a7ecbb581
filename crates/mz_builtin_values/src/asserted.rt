// Rows that hand an argument on.

ghost use Rattle.std.specs.Prelude.{◌≡◌, IfOk};
ghost use Rattle.std.specs.Option.{option_map};
ghost use Rattle.mz_value.specs.Contents.{content};
ghost use Rattle.mz_operations.specs.Arguments.{arguments};
ghost use Rattle.mz_operations.specs.Values.{made_value};
ghost use Rattle.mz_operations.specs.Arguments.{at};

use mz_builtin_arguments::{argument, bool_at, copied, is_absent, option_at, text_at};
use mz_operations::MadeRow;
use mz_value::Value;
use std::alloc::{AllocError, Global};

fn third(alloc: Global, args: &[Option<Value>]) -> Result<Option<Value>, AllocError>
    ensures { IfOk result (λ v. option_map content v ≡ at (arguments args.now) 2) }
{
    let Some(x) = argument(args, 2) else {
        return Ok(None);
    };
    let value = copied(alloc, x)?;
    Ok(Some(value))
}

/// `deopt`.
#[tactic(auto, unfolding(mz_operations::specs::Values::made_value))]
pub(crate) fn deopt(alloc: Global, args: &[Option<Value>]) -> Result<Option<Value>, AllocError>
    ensures { IfOk result (λ v. option_map content v ≡ made_value MadeRow.Deopt (arguments args.now)) }
{
    let Some(x) = option_at(args, 0) else {
        return Ok(None);
    };
    if is_absent(x) {
        return Ok(None);
    }
    let value = copied(alloc, x)?;
    Ok(Some(value))
}

/// `assert` of three arguments of which the third is no array.
#[tactic(auto, unfolding(mz_operations::specs::Values::made_value))]
pub(crate) fn assert_value(
    alloc: Global,
    args: &[Option<Value>],
) -> Result<Option<Value>, AllocError>
    ensures { IfOk result (λ v. option_map content v ≡ made_value MadeRow.AssertValue (arguments args.now)) }
{
    let Some(_holds) = bool_at(args, 0) else {
        return Ok(None);
    };
    let Some(_message) = text_at(args, 1) else {
        return Ok(None);
    };
    third(alloc, args)
}

/// `assert` of three arguments of which the third is an array.
#[tactic(auto, unfolding(mz_operations::specs::Values::made_value))]
pub(crate) fn assert_array(
    alloc: Global,
    args: &[Option<Value>],
) -> Result<Option<Value>, AllocError>
    ensures { IfOk result (λ v. option_map content v ≡ made_value MadeRow.AssertArray (arguments args.now)) }
{
    let Some(_holds) = bool_at(args, 0) else {
        return Ok(None);
    };
    let Some(_message) = text_at(args, 1) else {
        return Ok(None);
    };
    third(alloc, args)
}
