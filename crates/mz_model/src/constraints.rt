// The constraints, in source order: each has a cell, and roots, unless it is par and true; a written
// conjunction has a root for each operand.

ghost use Rattle.std.specs.Prelude.{map};
ghost use Rattle.mz_core.specs.TreeViews.{tree};
ghost use Rattle.mz_model.specs.Walks.{AreReadable, ConstraintEnds, names_of};
ghost use Rattle.mz_model.specs.Loops.{ConstraintsEnd};

use crate::conjuncts::operand_count;
use crate::declarations::world_in;
use crate::evaluation::expanded;
use crate::types::{HeldConstraint, Names, Task};
use mz_base::Stop;
use mz_core::Core;
use mz_eval_scopes::Env;
use mz_model_names::constraint_roots;
use mz_model_state::{walks_are_closed, walks_go_on};
use mz_symbol::Run;
use std::alloc::Global;

/// One more constraint: its cell, and its roots. `untold` is for `operand_count` alone.
fn constrain_next(
    alloc: Global,
    task: &Task,
    names: &Names,
    e: &Core,
    untold: &mut Option<Env>,
    run: &mut Run,
) -> Result<HeldConstraint, Stop>
    requires { AreReadable names.now }
    ensures { ConstraintEnds task.now run.old run.new (names_of names.now) (tree e.now) result }
{
    walks_go_on();
    walks_are_closed();
    let world = world_in(&*task, &*names);
    let cell = expanded(alloc, &world, e, run)?;
    let count = operand_count(alloc, &world, names.list.len() as u64, e, &cell, untold);
    let Ok(roots) = constraint_roots(alloc, run, &cell, count) else {
        return Err(Stop::Memory);
    };
    Ok(HeldConstraint { cell, roots })
}

/// The constraints, in source order.
#[tactic(auto, using(crate::proofs::Constrained::one_more_in_hand, crate::proofs::Constrained::all_in_hand, crate::proofs::Constrained::none_in_hand))]
pub(crate) fn constrain_each(
    alloc: Global,
    task: &Task,
    names: &Names,
    all: &[Core],
    run: &mut Run,
) -> Result<Vec<HeldConstraint>, Stop>
    requires { AreReadable names.now }
    ensures { ConstraintsEnd task.now run.old run.new (names_of names.now) (map tree all.now) result }
{
    let mut cs = Vec::new(alloc);
    let mut untold = None;
    for e in all {
        let c = constrain_next(alloc, task, names, e, &mut untold, run)?;
        let Ok(()) = cs.push(c) else {
            return Err(Stop::Memory);
        };
    }
    Ok(cs)
}
