// What is in hand at the end of a walk → an instance.

ghost use Rattle.std.specs.Prelude.{IfOk};
ghost use Rattle.mz_model_names.specs.Closed.{IsClosing};

use crate::HeldName;
use crate::close::names::{taken, with_roots};
use crate::close::places::are_placed;
use crate::close::types::Taken;
use mz_arena::{Id, Instance, InstanceGoal};
use mz_base::Memory;
use mz_model_state::test;
use mz_symbol::Run;
use std::alloc::Global;

/// The instance of a run with these names in hand, the roots of the constraints, and the objective.
/// Places, and the values of par names that no other cell holds, are moved.
///
/// Out of memory too where a node of a variable or of a choice is none of the names' or the run's, in
/// order, where a name's places don't fit its label, where a root is no Boolean, and where the
/// objective is no integer. No walk comes to that.
pub fn closed(
    alloc: Global,
    run: Run,
    names: Vec<HeldName>,
    constraints: &[Id],
    goal: InstanceGoal,
) -> Result<Instance, Memory>
    ensures { IfOk result (IsClosing run names.items constraints.now goal) }
{
    are_placed(&run, &names)?;
    let Taken {
        vars,
        roots: of_names,
        pars,
    } = taken(alloc, names)?;
    let roots = with_roots(of_names, constraints)?;
    test(alloc, &run, &vars, &roots, goal)?;
    Ok(Instance {
        arena: run.into_arena(),
        vars,
        roots,
        goal,
        pars,
    })
}
