// The globals of scheduling: what each says of its arguments. It is false where an argument is undefined.

ghost use Rattle.std.specs.Prelude.{◌≡◌, IfOk, Some};
ghost use Rattle.mz_value.specs.Contents.{bool};
ghost use Rattle.mz_operations.specs.Arguments.{arguments};
ghost use Rattle.mz_globals.specs.Table.{line_of};

use crate::of_values::packing::{are_loads, packs};
use crate::of_values::tasks::{is_cumulative, is_diffn, is_disjunctive, is_strictly_disjunctive};
use glob_order::of_values::{boxes_at, pairs_at, placed_numbers_at, tasks_at};
use mz_builtin_arguments::int_at;
use mz_globals::Global;
use mz_value::Value;
use std::alloc::{AllocError, Global as Heap};

/// `cumulative`.
#[tactic(auto, unfolding(mz_globals::specs::Table::line_of))]
pub fn cumulative_row(alloc: Heap, args: &[Option<Value>]) -> Result<bool, AllocError>
    ensures { IfOk result (λ b. Some (bool b) ≡ (line_of Global.Cumulative).value (arguments args.now)) }
{
    let Some(us) = tasks_at(alloc, args)? else {
        return Ok(false);
    };
    let Some(most) = int_at(args, 3) else {
        return Ok(false);
    };
    Ok(is_cumulative(&us, most))
}

/// `disjunctive`.
#[tactic(auto, unfolding(mz_globals::specs::Table::line_of))]
pub fn disjunctive_row(alloc: Heap, args: &[Option<Value>]) -> Result<bool, AllocError>
    ensures { IfOk result (λ b. Some (bool b) ≡ (line_of Global.Disjunctive).value (arguments args.now)) }
{
    let Some(ks) = pairs_at(alloc, args, 0, 1)? else {
        return Ok(false);
    };
    Ok(is_disjunctive(&ks))
}

/// `disjunctive_strict`.
#[tactic(auto, unfolding(mz_globals::specs::Table::line_of))]
pub fn disjunctive_strict_row(alloc: Heap, args: &[Option<Value>]) -> Result<bool, AllocError>
    ensures { IfOk result (λ b. Some (bool b) ≡ (line_of Global.DisjunctiveStrict).value (arguments args.now)) }
{
    let Some(ks) = pairs_at(alloc, args, 0, 1)? else {
        return Ok(false);
    };
    Ok(is_strictly_disjunctive(&ks))
}

/// `diffn`.
#[tactic(auto, unfolding(mz_globals::specs::Table::line_of))]
pub fn diffn_row(alloc: Heap, args: &[Option<Value>]) -> Result<bool, AllocError>
    ensures { IfOk result (λ b. Some (bool b) ≡ (line_of Global.Diffn).value (arguments args.now)) }
{
    let Some(boxes) = boxes_at(alloc, args)? else {
        return Ok(false);
    };
    Ok(is_diffn(&boxes))
}

/// `bin_packing`.
#[tactic(auto, unfolding(mz_globals::specs::Table::line_of))]
pub fn packing_row(alloc: Heap, args: &[Option<Value>]) -> Result<bool, AllocError>
    ensures { IfOk result (λ b. Some (bool b) ≡ (line_of Global.Packing).value (arguments args.now)) }
{
    let Some(most) = int_at(args, 0) else {
        return Ok(false);
    };
    let Some(things) = pairs_at(alloc, args, 1, 2)? else {
        return Ok(false);
    };
    Ok(packs(most, &things))
}

/// `bin_packing_load`.
#[tactic(auto, unfolding(mz_globals::specs::Table::line_of))]
pub fn packing_load_row(alloc: Heap, args: &[Option<Value>]) -> Result<bool, AllocError>
    ensures { IfOk result (λ b. Some (bool b) ≡ (line_of Global.PackingLoad).value (arguments args.now)) }
{
    let Some(loads) = placed_numbers_at(alloc, args, 0)? else {
        return Ok(false);
    };
    let Some(things) = pairs_at(alloc, args, 1, 2)? else {
        return Ok(false);
    };
    Ok(are_loads(&loads, &things))
}
