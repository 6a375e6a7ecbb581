// Integers that are indices of an array.

ghost use Rattle.std.specs.Prelude.{◌≡◌, ◌*◌, IfOk, Some, length};
ghost use Rattle.std.specs.List.{list_all};
ghost use Rattle.mz_symbol.specs.Makes.{GoesOnBy};
ghost use Rattle.glob_nodes.specs.declared.nodes.Compare.TheVariants as compare;
ghost use Rattle.glob_nodes.specs.Says.{Says, Tells, compares, num};
ghost use Rattle.glob_nodes.specs.Places.{lies_within};

use crate::numbers::constant;
use crate::passing::{Test, all_pass};
use crate::{Compare, Join, Numbers, compared, joined};
use mz_arena::Id;
use mz_base::Memory;
use mz_symbol::Run;

#[tactic(auto, using(mz_symbol_rows::proofs::GoingOn::goes_both))]
fn is_after(run: &mut Run, xs: &Numbers, x: Id) -> Result<Id, Memory>
    ensures goes { GoesOnBy 6 run.old run.new }
    ensures says { IfOk result (Says run.old run.new (λ r. compares compare.AtMost (Some xs.now.first) (num r x))) }
{
    let first = constant(run, xs.first)?;
    compared(run, Compare::AtMost, first, x)
}

#[tactic(auto, using(mz_symbol_rows::proofs::GoingOn::goes_both))]
fn is_before(run: &mut Run, xs: &Numbers, x: Id) -> Result<Id, Memory>
    ensures goes { GoesOnBy 6 run.old run.new }
    ensures says { IfOk result (Says run.old run.new (λ r. compares compare.AtMost (num r x) (Some xs.now.last))) }
{
    let last = constant(run, xs.last)?;
    compared(run, Compare::AtMost, x, last)
}

/// Whether an integer is an index of an array.
#[tactic(auto, using(mz_symbol_rows::proofs::GoingOn::goes_both, mz_symbol_rows::proofs::GoingOn::goes_most))]
pub fn is_index(run: &mut Run, xs: &Numbers, x: Id) -> Result<Id, Memory>
    ensures goes { GoesOnBy 18 run.old run.new }
    ensures says { IfOk result (Says run.old run.new (λ r. lies_within (xs.now.first, xs.now.last) (num r x))) }
{
    let first = is_after(run, xs, x)?;
    let last = is_before(run, xs, x)?;
    let id = joined(run, Join::Both, first, last)?;
    Ok(id)
}

/// Indices of an array.
#[derive(Clone, Copy)]
struct IsIndex<'a> {
    xs: &'a Numbers,
}

impl<'a> Test<Id> for IsIndex<'a> {
    ghost use Rattle.glob_nodes.specs.Says.{num};
    ghost use Rattle.glob_nodes.specs.Places.{lies_within};

    ghost holds = { λ c x r. lies_within (c.xs.now.first, c.xs.now.last) (num r x) };

    ghost room = { λ c. 18 };

    fn test(&self, run: &mut Run, x: &Id) -> Result<Id, Memory> {
        let id = is_index(run, self.xs, *x)?;
        Ok(id)
    }
}

/// Whether all integers are indices of an array.
pub fn are_indices(run: &mut Run, xs: &Numbers, ids: &[Id]) -> Result<Id, Memory>
    ensures goes { GoesOnBy (24 * length ids.now) run.old run.new }
    ensures tells { IfOk result (Tells run.old run.new (λ r. list_all (λ x. lies_within (xs.now.first, xs.now.last) (num r x)) ids.now)) }
{
    let id = all_pass(run, &IsIndex { xs }, ids)?;
    Ok(id)
}
