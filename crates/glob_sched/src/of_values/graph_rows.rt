// The globals of tables, automata and graphs: what each says of its arguments. It is false where an argument is undefined.

ghost use Rattle.std.specs.Prelude.{◌≡◌, IfOk, Some};
ghost use Rattle.mz_value.specs.Contents.{bool};
ghost use Rattle.mz_operations.specs.Arguments.{arguments};
ghost use Rattle.mz_globals.specs.Table.{line_of};

use crate::of_values::graphs::{are_inverse, is_circuit};
use crate::of_values::tables::{Machine, accepts, is_element, is_row};
use glob_order::of_values::{grid_at, numbers_at, placed_numbers_at};
use mz_builtin_arguments::{int_at, set_at};
use mz_globals::Global;
use mz_value::Value;
use std::alloc::{AllocError, Global as Heap};

/// `element`.
#[tactic(auto, unfolding(mz_globals::specs::Table::line_of))]
pub fn element_row(alloc: Heap, args: &[Option<Value>]) -> Result<bool, AllocError>
    ensures { IfOk result (λ b. Some (bool b) ≡ (line_of Global.Element).value (arguments args.now)) }
{
    let Some(i) = int_at(args, 0) else {
        return Ok(false);
    };
    let Some(x) = placed_numbers_at(alloc, args, 1)? else {
        return Ok(false);
    };
    let Some(y) = int_at(args, 2) else {
        return Ok(false);
    };
    Ok(is_element(i, &x, y))
}

/// `table`.
#[tactic(auto, unfolding(mz_globals::specs::Table::line_of))]
pub fn table_row(alloc: Heap, args: &[Option<Value>]) -> Result<bool, AllocError>
    ensures { IfOk result (λ b. Some (bool b) ≡ (line_of Global.Table).value (arguments args.now)) }
{
    let Some(xs) = numbers_at(alloc, args, 0)? else {
        return Ok(false);
    };
    let Some(table) = grid_at(alloc, args, 1)? else {
        return Ok(false);
    };
    Ok(is_row(&xs, &table))
}

/// `regular`.
#[tactic(auto, unfolding(mz_globals::specs::Table::line_of))]
pub fn regular_row(alloc: Heap, args: &[Option<Value>]) -> Result<bool, AllocError>
    ensures { IfOk result (λ b. Some (bool b) ≡ (line_of Global.Regular).value (arguments args.now)) }
{
    let Some(states) = int_at(args, 1) else {
        return Ok(false);
    };
    let Some(letters) = int_at(args, 2) else {
        return Ok(false);
    };
    let Some(start) = int_at(args, 4) else {
        return Ok(false);
    };
    let Some(last) = set_at(args, 5) else {
        return Ok(false);
    };
    let Some(xs) = numbers_at(alloc, args, 0)? else {
        return Ok(false);
    };
    let Some(grid) = grid_at(alloc, args, 3)? else {
        return Ok(false);
    };
    let steps = grid.cells.as_slice();
    let machine = Machine {
        states,
        letters,
        steps,
        last,
    };
    Ok(accepts(&machine, start, &xs))
}

/// `inverse`.
#[tactic(auto, unfolding(mz_globals::specs::Table::line_of))]
pub fn inverse_row(alloc: Heap, args: &[Option<Value>]) -> Result<bool, AllocError>
    ensures { IfOk result (λ b. Some (bool b) ≡ (line_of Global.Inverse).value (arguments args.now)) }
{
    let Some(f) = placed_numbers_at(alloc, args, 0)? else {
        return Ok(false);
    };
    let Some(g) = placed_numbers_at(alloc, args, 1)? else {
        return Ok(false);
    };
    Ok(are_inverse(&f, &g))
}

/// `circuit`.
#[tactic(auto, unfolding(mz_globals::specs::Table::line_of))]
pub fn circuit_row(alloc: Heap, args: &[Option<Value>]) -> Result<bool, AllocError>
    ensures { IfOk result (λ b. Some (bool b) ≡ (line_of Global.Circuit).value (arguments args.now)) }
{
    let Some(x) = placed_numbers_at(alloc, args, 0)? else {
        return Ok(false);
    };
    let circuit = is_circuit(alloc, &x)?;
    Ok(circuit)
}
