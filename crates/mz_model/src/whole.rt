// All declarations, and then all constraints.

ghost use Rattle.std.specs.Prelude.{IfOk};
ghost use Rattle.mz_meaning.specs.Walk.{ordered};
ghost use Rattle.mz_model.specs.Walks.{AreReadable, IsUpTo, names_of, program_of};
ghost use Rattle.mz_model.specs.Loops.{WalkEnds};

use crate::constraints::constrain_each;
use crate::declarations::declare_each;
use crate::types::{HeldConstraint, Names, Task};
use mz_base::Stop;
use mz_model_state::walks_go_on;
use mz_symbol::Run;
use std::alloc::Global;

/// The constraints, after all declarations, of which none is in hand yet.
pub(crate) fn walked(
    alloc: Global,
    task: &Task,
    names: &mut Names,
    run: &mut Run,
) -> Result<Vec<HeldConstraint>, Stop>
    requires readable { AreReadable names.old }
    requires begun { IsUpTo task.now run.old (names_of names.old) (ordered (program_of task.now).decls (program_of task.now).order) }
    ensures ends { WalkEnds task.now run.new (names_of names.new) result }
    ensures readable { IfOk result (λ _. AreReadable names.new) }
{
    walks_go_on();
    declare_each(alloc, task, names, task.program.order.as_slice(), run)?;
    constrain_each(
        alloc,
        task,
        &*names,
        task.program.constraints.as_slice(),
        run,
    )
}
