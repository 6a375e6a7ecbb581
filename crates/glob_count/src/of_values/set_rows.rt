// The globals of sets: what each says of its arguments. It is false where an argument is undefined.

ghost use Rattle.std.specs.Prelude.{◌≡◌, IfOk, Some};
ghost use Rattle.mz_value.specs.Contents.{bool};
ghost use Rattle.mz_operations.specs.Arguments.{arguments};
ghost use Rattle.mz_globals.specs.Table.{line_of};

use crate::of_values::sets::{all_disjoint, channels, links, partitions};
use glob_order::of_values::{placed_booleans_at, placed_numbers_at, placed_sets_at, sets_at};
use mz_builtin_arguments::set_at;
use mz_globals::Global;
use mz_value::Value;
use std::alloc::{AllocError, Global as Heap};

/// `int_set_channel`.
#[tactic(auto, unfolding(mz_globals::specs::Table::line_of))]
pub fn channel_row(alloc: Heap, args: &[Option<Value>]) -> Result<bool, AllocError>
    ensures { IfOk result (λ b. Some (bool b) ≡ (line_of Global.Channel).value (arguments args.now)) }
{
    let Some(x) = placed_numbers_at(alloc, args, 0)? else {
        return Ok(false);
    };
    let Some(y) = placed_sets_at(alloc, args, 1)? else {
        return Ok(false);
    };
    Ok(channels(&x, &y))
}

/// `link_set_to_booleans`.
#[tactic(auto, unfolding(mz_globals::specs::Table::line_of))]
pub fn link_row(alloc: Heap, args: &[Option<Value>]) -> Result<bool, AllocError>
    ensures { IfOk result (λ b. Some (bool b) ≡ (line_of Global.Link).value (arguments args.now)) }
{
    let Some(s) = set_at(args, 0) else {
        return Ok(false);
    };
    let Some(b) = placed_booleans_at(alloc, args, 1)? else {
        return Ok(false);
    };
    Ok(links(s, &b))
}

/// `all_disjoint`.
#[tactic(auto, unfolding(mz_globals::specs::Table::line_of))]
pub fn disjoint_row(alloc: Heap, args: &[Option<Value>]) -> Result<bool, AllocError>
    ensures { IfOk result (λ b. Some (bool b) ≡ (line_of Global.Disjoint).value (arguments args.now)) }
{
    let Some(ss) = sets_at(alloc, args, 0)? else {
        return Ok(false);
    };
    let disjoint = all_disjoint(alloc, &ss)?;
    Ok(disjoint)
}

/// `partition_set`.
#[tactic(auto, unfolding(mz_globals::specs::Table::line_of))]
pub fn partition_row(alloc: Heap, args: &[Option<Value>]) -> Result<bool, AllocError>
    ensures { IfOk result (λ b. Some (bool b) ≡ (line_of Global.Partition).value (arguments args.now)) }
{
    let Some(ss) = sets_at(alloc, args, 0)? else {
        return Ok(false);
    };
    let Some(u) = set_at(args, 1) else {
        return Ok(false);
    };
    let partition = partitions(alloc, &ss, u)?;
    Ok(partition)
}
