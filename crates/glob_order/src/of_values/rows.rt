// The globals of order: what each says of its arguments. A truth value is false where an argument is undefined.

ghost use Rattle.std.specs.Prelude.{◌≡◌, IfOk, Some, ℕ, Option};
ghost use Rattle.std.specs.Option.{option_map};
ghost use Rattle.mz_value.specs.Contents.{bool, int};
ghost use Rattle.mz_operations.specs.Arguments.{arguments};
ghost use Rattle.mz_globals.specs.Table.{line_of};

use crate::of_values::lists::{
    all_different, all_equal, comes_before, different_but_zero, is_extreme, is_member, is_ordered,
    precedes, sorts, times,
};
use crate::of_values::reading::numbers_at;
use mz_builtin_arguments::int_at;
use mz_globals::Global;
use mz_operations::{Comparison, Side};
use mz_value::Value;
use std::alloc::{AllocError, Global as Heap};

/// `all_different`, `alldifferent`.
#[tactic(auto, unfolding(mz_globals::specs::Table::line_of))]
pub fn all_different_row(alloc: Heap, args: &[Option<Value>]) -> Result<bool, AllocError>
    ensures { IfOk result (λ b. Some (bool b) ≡ (line_of Global.AllDifferent).value (arguments args.now)) }
{
    let Some(xs) = numbers_at(alloc, args, 0)? else {
        return Ok(false);
    };
    Ok(all_different(&xs))
}

/// `alldifferent_except_0`.
#[tactic(auto, unfolding(mz_globals::specs::Table::line_of))]
pub fn different_but_zero_row(alloc: Heap, args: &[Option<Value>]) -> Result<bool, AllocError>
    ensures { IfOk result (λ b. Some (bool b) ≡ (line_of Global.DifferentButZero).value (arguments args.now)) }
{
    let Some(xs) = numbers_at(alloc, args, 0)? else {
        return Ok(false);
    };
    Ok(different_but_zero(&xs))
}

/// `all_equal`.
#[tactic(auto, unfolding(mz_globals::specs::Table::line_of))]
pub fn all_equal_row(alloc: Heap, args: &[Option<Value>]) -> Result<bool, AllocError>
    ensures { IfOk result (λ b. Some (bool b) ≡ (line_of Global.AllEqual).value (arguments args.now)) }
{
    let Some(xs) = numbers_at(alloc, args, 0)? else {
        return Ok(false);
    };
    Ok(all_equal(&xs))
}

/// `increasing` and its kin.
#[tactic(auto, unfolding(mz_globals::specs::Table::line_of))]
pub fn ordered_row(alloc: Heap, op: Comparison, args: &[Option<Value>]) -> Result<bool, AllocError>
    ensures { IfOk result (λ b. Some (bool b) ≡ (line_of (Global.Ordered op)).value (arguments args.now)) }
{
    let Some(xs) = numbers_at(alloc, args, 0)? else {
        return Ok(false);
    };
    Ok(is_ordered(op, &xs))
}

/// `lex_less`, and `lex_lesseq`, which holds of equal lists too.
#[tactic(auto, unfolding(mz_globals::specs::Table::line_of))]
pub fn lex_row(alloc: Heap, equal: bool, args: &[Option<Value>]) -> Result<bool, AllocError>
    ensures { IfOk result (λ b. Some (bool b) ≡ (line_of (Global.Lex equal)).value (arguments args.now)) }
{
    let Some(xs) = numbers_at(alloc, args, 0)? else {
        return Ok(false);
    };
    let Some(ys) = numbers_at(alloc, args, 1)? else {
        return Ok(false);
    };
    Ok(comes_before(equal, &xs, &ys))
}

/// `sort`.
#[tactic(auto, unfolding(mz_globals::specs::Table::line_of))]
pub fn sort_row(alloc: Heap, args: &[Option<Value>]) -> Result<bool, AllocError>
    ensures { IfOk result (λ b. Some (bool b) ≡ (line_of Global.Sort).value (arguments args.now)) }
{
    let Some(xs) = numbers_at(alloc, args, 0)? else {
        return Ok(false);
    };
    let Some(ys) = numbers_at(alloc, args, 1)? else {
        return Ok(false);
    };
    Ok(sorts(&xs, &ys))
}

/// `value_precede`.
#[tactic(auto, unfolding(mz_globals::specs::Table::line_of))]
pub fn precede_row(alloc: Heap, args: &[Option<Value>]) -> Result<bool, AllocError>
    ensures { IfOk result (λ b. Some (bool b) ≡ (line_of Global.Precede).value (arguments args.now)) }
{
    let Some(s) = int_at(args, 0) else {
        return Ok(false);
    };
    let Some(t) = int_at(args, 1) else {
        return Ok(false);
    };
    let Some(xs) = numbers_at(alloc, args, 2)? else {
        return Ok(false);
    };
    Ok(precedes(s, t, &xs))
}

/// `maximum`, `minimum`.
#[tactic(auto, unfolding(mz_globals::specs::Table::line_of))]
pub fn extreme_row(alloc: Heap, side: Side, args: &[Option<Value>]) -> Result<bool, AllocError>
    ensures { IfOk result (λ b. Some (bool b) ≡ (line_of (Global.Extreme side)).value (arguments args.now)) }
{
    let Some(m) = int_at(args, 0) else {
        return Ok(false);
    };
    let Some(xs) = numbers_at(alloc, args, 1)? else {
        return Ok(false);
    };
    Ok(is_extreme(side, m, &xs))
}

/// `member`.
#[tactic(auto, unfolding(mz_globals::specs::Table::line_of))]
pub fn member_row(alloc: Heap, args: &[Option<Value>]) -> Result<bool, AllocError>
    ensures { IfOk result (λ b. Some (bool b) ≡ (line_of Global.Member).value (arguments args.now)) }
{
    let Some(xs) = numbers_at(alloc, args, 0)? else {
        return Ok(false);
    };
    let Some(y) = int_at(args, 1) else {
        return Ok(false);
    };
    Ok(is_member(&xs, y))
}
