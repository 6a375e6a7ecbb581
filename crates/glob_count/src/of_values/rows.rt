// The globals of counting: what each says of its arguments. A truth value is false where an argument is undefined, and the function `count` is undefined there.

ghost use Rattle.std.specs.Prelude.{◌≡◌, IfOk, Some};
ghost use Rattle.std.specs.Option.{option_map};
ghost use Rattle.mz_value.specs.Contents.{bool, int};
ghost use Rattle.mz_operations.specs.Arguments.{arguments};
ghost use Rattle.mz_globals.specs.Table.{line_of};

use crate::of_values::counts::{are_counts, counts, counts_among, counts_different, relates};
use crate::of_values::sums::slides;
use glob_order::of_values::{numbers_at, pairs_at, times};
use mz_builtin_arguments::{int_at, set_at};
use mz_globals::{Global, Relation};
use mz_value::Value;
use std::alloc::{AllocError, Global as Heap};

/// The function `count`: the number of places, `None` where it is undefined.
#[tactic(auto, unfolding(mz_globals::specs::Table::line_of))]
pub fn count_of_row(alloc: Heap, args: &[Option<Value>]) -> Result<Option<i64>, AllocError>
    ensures { IfOk result (λ n. option_map int n ≡ (line_of Global.CountOf).value (arguments args.now)) }
{
    let Some(xs) = numbers_at(alloc, args, 0)? else {
        return Ok(None);
    };
    let Some(y) = int_at(args, 1) else {
        return Ok(None);
    };
    Ok(Some(times(y, &xs) as i64))
}

/// `count` of three arguments.
#[tactic(auto, unfolding(mz_globals::specs::Table::line_of))]
pub fn count_row(alloc: Heap, args: &[Option<Value>]) -> Result<bool, AllocError>
    ensures { IfOk result (λ b. Some (bool b) ≡ (line_of Global.Count).value (arguments args.now)) }
{
    let Some(y) = int_at(args, 1) else {
        return Ok(false);
    };
    let Some(c) = int_at(args, 2) else {
        return Ok(false);
    };
    let Some(xs) = numbers_at(alloc, args, 0)? else {
        return Ok(false);
    };
    Ok(counts(y, &xs, c))
}

/// `at_least`, `at_most`, `exactly`.
#[tactic(auto, unfolding(mz_globals::specs::Table::line_of))]
pub fn times_row(
    alloc: Heap,
    relation: Relation,
    args: &[Option<Value>],
) -> Result<bool, AllocError>
    ensures { IfOk result (λ b. Some (bool b) ≡ (line_of (Global.Times relation)).value (arguments args.now)) }
{
    let Some(n) = int_at(args, 0) else {
        return Ok(false);
    };
    let Some(v) = int_at(args, 2) else {
        return Ok(false);
    };
    let Some(xs) = numbers_at(alloc, args, 1)? else {
        return Ok(false);
    };
    Ok(relates(relation, n, &xs, v))
}

/// `among`.
#[tactic(auto, unfolding(mz_globals::specs::Table::line_of))]
pub fn among_row(alloc: Heap, args: &[Option<Value>]) -> Result<bool, AllocError>
    ensures { IfOk result (λ b. Some (bool b) ≡ (line_of Global.Among).value (arguments args.now)) }
{
    let Some(n) = int_at(args, 0) else {
        return Ok(false);
    };
    let Some(xs) = numbers_at(alloc, args, 1)? else {
        return Ok(false);
    };
    let Some(v) = set_at(args, 2) else {
        return Ok(false);
    };
    Ok(counts_among(n, &xs, v))
}

/// `nvalue`.
#[tactic(auto, unfolding(mz_globals::specs::Table::line_of))]
pub fn different_values_row(alloc: Heap, args: &[Option<Value>]) -> Result<bool, AllocError>
    ensures { IfOk result (λ b. Some (bool b) ≡ (line_of Global.DifferentValues).value (arguments args.now)) }
{
    let Some(n) = int_at(args, 0) else {
        return Ok(false);
    };
    let Some(xs) = numbers_at(alloc, args, 1)? else {
        return Ok(false);
    };
    Ok(counts_different(n, &xs))
}

/// `global_cardinality`.
#[tactic(auto, unfolding(mz_globals::specs::Table::line_of))]
pub fn cardinality_row(alloc: Heap, args: &[Option<Value>]) -> Result<bool, AllocError>
    ensures { IfOk result (λ b. Some (bool b) ≡ (line_of Global.Cardinality).value (arguments args.now)) }
{
    let Some(xs) = numbers_at(alloc, args, 0)? else {
        return Ok(false);
    };
    let Some(cover) = pairs_at(alloc, args, 1, 2)? else {
        return Ok(false);
    };
    Ok(are_counts(&xs, &cover))
}

/// `sliding_sum`.
#[tactic(auto, unfolding(mz_globals::specs::Table::line_of))]
pub fn sliding_sum_row(alloc: Heap, args: &[Option<Value>]) -> Result<bool, AllocError>
    ensures { IfOk result (λ b. Some (bool b) ≡ (line_of Global.SlidingSum).value (arguments args.now)) }
{
    let Some(low) = int_at(args, 0) else {
        return Ok(false);
    };
    let Some(up) = int_at(args, 1) else {
        return Ok(false);
    };
    let Some(seq) = int_at(args, 2) else {
        return Ok(false);
    };
    let Some(xs) = numbers_at(alloc, args, 3)? else {
        return Ok(false);
    };
    Ok(slides(low, up, seq, &xs))
}
