// How two integers of one array stand to each other.

ghost use Rattle.std.specs.Prelude.{◌≡◌, ◌||◌, IfOk, Some, pos};
ghost use Rattle.mz_symbol.specs.Makes.{GoesOnBy};
ghost use Rattle.glob_nodes.specs.declared.nodes.Compare.TheVariants as compare;
ghost use Rattle.glob_nodes.specs.Says.{Says, compares, num};
ghost use Rattle.glob_order.specs.Senses.{differ_or_zero, in_order};

use glob_nodes::{Compare, Join, Relation, compared, joined, number};
use mz_arena::Id;
use mz_base::Memory;
use mz_operations::Comparison;
use mz_symbol::Run;

#[tactic(auto, using(mz_symbol_rows::proofs::GoingOn::goes_both))]
fn is_zero(run: &mut Run, x: Id) -> Result<Id, Memory>
    ensures goes { GoesOnBy 6 run.old run.new }
    ensures says { IfOk result (Says run.old run.new (λ r. compares compare.Equal (num r x) (Some (pos 0)))) }
{
    let zero = number(run, 0)?;
    compared(run, Compare::Equal, x, zero)
}

#[tactic(auto, using(mz_symbol_rows::proofs::GoingOn::goes_both, mz_symbol_rows::proofs::GoingOn::goes_most))]
fn differ_or_zero(run: &mut Run, x: Id, y: Id) -> Result<Id, Memory>
    ensures goes { GoesOnBy 18 run.old run.new }
    ensures says { IfOk result (Says run.old run.new (λ r. differ_or_zero (num r x) (num r y))) }
{
    let differ = compared(run, Compare::Differ, x, y)?;
    let none = is_zero(run, x)?;
    let id = joined(run, Join::Either, differ, none)?;
    Ok(id)
}

/// Integers that differ, or are both 0.
#[derive(Clone, Copy)]
pub(crate) struct DifferOrZero {}

impl Relation<Id> for DifferOrZero {
    ghost use Rattle.glob_nodes.specs.Says.{num};
    ghost use Rattle.glob_order.specs.Senses.{differ_or_zero};

    ghost related = { λ c x y r. differ_or_zero (num r x) (num r y) };

    ghost room = { 18 };

    fn relate(&self, run: &mut Run, x: &Id, y: &Id) -> Result<Id, Memory> {
        let id = differ_or_zero(run, *x, *y)?;
        Ok(id)
    }
}

fn in_order(run: &mut Run, op: Comparison, x: Id, y: Id) -> Result<Id, Memory>
    ensures goes { GoesOnBy 6 run.old run.new }
    ensures says { IfOk result (Says run.old run.new (λ r. in_order op (num r x) (num r y))) }
{
    match op {
        Comparison::Less => compared(run, Compare::Less, x, y),
        Comparison::AtMost => compared(run, Compare::AtMost, x, y),
        Comparison::Greater => compared(run, Compare::Less, y, x),
        Comparison::AtLeast => compared(run, Compare::AtMost, y, x),
    }
}

/// Integers in this order.
#[derive(Clone, Copy)]
pub(crate) struct InOrder {
    pub(crate) op: Comparison,
}

impl Relation<Id> for InOrder {
    ghost use Rattle.glob_nodes.specs.Says.{num};
    ghost use Rattle.glob_order.specs.Senses.{in_order};

    ghost related = { λ c x y r. in_order c.op (num r x) (num r y) };

    ghost room = { 6 };

    fn relate(&self, run: &mut Run, x: &Id, y: &Id) -> Result<Id, Memory> {
        let id = in_order(run, self.op, *x, *y)?;
        Ok(id)
    }
}
