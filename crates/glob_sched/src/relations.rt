// How two tasks stand to each other. A task is its start and its duration.

ghost use Rattle.std.specs.Prelude.{◌≡◌, IfOk};
ghost use Rattle.mz_symbol.specs.Makes.{GoesOnBy};
ghost use Rattle.glob_nodes.specs.declared.nodes.Compare.TheVariants as compare;
ghost use Rattle.glob_nodes.specs.Says.{Says, compares, num};
ghost use Rattle.glob_nodes.specs.Numbers.{plus};
ghost use Rattle.glob_sched.specs.Senses.{are_apart, are_apart_or_idle, are_boxes_apart, is_idle};

use glob_nodes::{Compare, Join, Relation, compared, joined, number, plus};
use mz_arena::Id;
use mz_base::Memory;
use mz_symbol::Run;

/// That a task ends at or before another's start.
#[tactic(auto, using(mz_symbol_rows::proofs::GoingOn::goes_both))]
fn ends_before(run: &mut Run, j: &(Id, Id), k: &(Id, Id)) -> Result<Id, Memory>
    ensures goes { GoesOnBy 10 run.old run.new }
    ensures says { IfOk result (Says run.old run.new (λ r. compares compare.AtMost (plus (num r j.now.0) (num r j.now.1)) (num r k.now.0))) }
{
    let end = plus(run, j.0, j.1)?;
    compared(run, Compare::AtMost, end, k.0)
}

#[tactic(auto, using(mz_symbol_rows::proofs::GoingOn::goes_both, mz_symbol_rows::proofs::GoingOn::goes_most))]
fn are_apart(run: &mut Run, j: &(Id, Id), k: &(Id, Id)) -> Result<Id, Memory>
    ensures goes { GoesOnBy 26 run.old run.new }
    ensures says { IfOk result (Says run.old run.new (λ r. are_apart r j.now k.now)) }
{
    let first = ends_before(run, j, k)?;
    let second = ends_before(run, k, j)?;
    let id = joined(run, Join::Either, first, second)?;
    Ok(id)
}

#[tactic(auto, using(mz_symbol_rows::proofs::GoingOn::goes_both))]
fn is_idle(run: &mut Run, d: Id) -> Result<Id, Memory>
    ensures goes { GoesOnBy 6 run.old run.new }
    ensures says { IfOk result (Says run.old run.new (λ r. is_idle (num r d))) }
{
    let zero = number(run, 0)?;
    compared(run, Compare::AtMost, d, zero)
}

#[tactic(auto, using(mz_symbol_rows::proofs::GoingOn::goes_both, mz_symbol_rows::proofs::GoingOn::goes_most))]
fn are_apart_or_idle(run: &mut Run, j: &(Id, Id), k: &(Id, Id)) -> Result<Id, Memory>
    ensures goes { GoesOnBy 50 run.old run.new }
    ensures says { IfOk result (Says run.old run.new (λ r. are_apart_or_idle r j.now k.now)) }
{
    let apart = are_apart(run, j, k)?;
    let second = is_idle(run, k.1)?;
    let rest = joined(run, Join::Either, second, apart)?;
    let first = is_idle(run, j.1)?;
    let id = joined(run, Join::Either, first, rest)?;
    Ok(id)
}

/// Boxes of which one ends at or before the other's start, in x or in y.
#[tactic(auto, using(mz_symbol_rows::proofs::GoingOn::goes_both, mz_symbol_rows::proofs::GoingOn::goes_most))]
fn are_boxes_apart(
    run: &mut Run,
    p: &((Id, Id), (Id, Id)),
    q: &((Id, Id), (Id, Id)),
) -> Result<Id, Memory>
    ensures goes { GoesOnBy 58 run.old run.new }
    ensures says { IfOk result (Says run.old run.new (λ r. are_boxes_apart r p.now q.now)) }
{
    let in_x = are_apart(run, &p.0, &q.0)?;
    let in_y = are_apart(run, &p.1, &q.1)?;
    let id = joined(run, Join::Either, in_x, in_y)?;
    Ok(id)
}

/// Tasks of which one ends at or before the other's start.
#[derive(Clone, Copy)]
pub(crate) struct Apart {}

impl Relation<(Id, Id)> for Apart {
    ghost use Rattle.glob_sched.specs.Senses.{are_apart};

    ghost related = { λ c x y r. are_apart r x y };

    ghost room = { 26 };

    fn relate(&self, run: &mut Run, x: &(Id, Id), y: &(Id, Id)) -> Result<Id, Memory> {
        let id = are_apart(run, x, y)?;
        Ok(id)
    }
}

/// The same, or one is without a duration.
#[derive(Clone, Copy)]
pub(crate) struct ApartOrIdle {}

impl Relation<(Id, Id)> for ApartOrIdle {
    ghost use Rattle.glob_sched.specs.Senses.{are_apart_or_idle};

    ghost related = { λ c x y r. are_apart_or_idle r x y };

    ghost room = { 50 };

    fn relate(&self, run: &mut Run, x: &(Id, Id), y: &(Id, Id)) -> Result<Id, Memory> {
        let id = are_apart_or_idle(run, x, y)?;
        Ok(id)
    }
}

/// Boxes, each by its extents in x and in y, of which one ends at or before the other's start.
#[derive(Clone, Copy)]
pub(crate) struct BoxesApart {}

impl Relation<((Id, Id), (Id, Id))> for BoxesApart {
    ghost use Rattle.glob_sched.specs.Senses.{are_boxes_apart};

    ghost related = { λ c x y r. are_boxes_apart r x y };

    ghost room = { 58 };

    fn relate(
        &self,
        run: &mut Run,
        x: &((Id, Id), (Id, Id)),
        y: &((Id, Id), (Id, Id)),
    ) -> Result<Id, Memory> {
        let id = are_boxes_apart(run, x, y)?;
        Ok(id)
    }
}
