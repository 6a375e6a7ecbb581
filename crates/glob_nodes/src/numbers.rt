// Nodes of integers, by what they are under each reading.

ghost use Rattle.std.specs.Prelude.{◌≡◌, IfOk, Some};
ghost use Rattle.mz_arena.specs.Values.{is_true};
ghost use Rattle.mz_operations.specs.Views.{number_of_bool};
ghost use Rattle.mz_symbol.specs.Makes.{GoesOnBy};
ghost use Rattle.glob_nodes.specs.Says.{num};
ghost use Rattle.glob_nodes.specs.Numbers.{IsNumber, plus, product};

use crate::{add, multiply, number, to_number};
use mz_arena::Id;
use mz_base::Memory;
use mz_symbol::Run;

/// The sum of two integers, undefined where one is. Out of memory too where its bounds leave the
/// limit.
pub fn plus(run: &mut Run, a: Id, b: Id) -> Result<Id, Memory>
    ensures goes { GoesOnBy 4 run.old run.new }
    ensures is { IfOk result (IsNumber run.old run.new (λ r. plus (num r a) (num r b))) }
{
    add(run, a, b)
}

/// The product of two integers, undefined where one is. Out of memory too where its bounds leave
/// the limit.
pub fn product(run: &mut Run, a: Id, b: Id) -> Result<Id, Memory>
    ensures goes { GoesOnBy 4 run.old run.new }
    ensures is { IfOk result (IsNumber run.old run.new (λ r. product (num r a) (num r b))) }
{
    multiply(run, a, b)
}

/// 1 where a truth value is true, else 0.
pub fn one_if(run: &mut Run, a: Id) -> Result<Id, Memory>
    ensures goes { GoesOnBy 4 run.old run.new }
    ensures is { IfOk result (IsNumber run.old run.new (λ r. Some (number_of_bool (is_true (r.term a))))) }
{
    to_number(run, a)
}

/// An integer. Out of memory too where it lies outside the limit.
pub fn constant(run: &mut Run, n: i64) -> Result<Id, Memory>
    ensures goes { GoesOnBy 0 run.old run.new }
    ensures is { IfOk result (IsNumber run.old run.new (λ _. Some n)) }
{
    number(run, n)
}
