// The walk over a model: a typed program → its instance.

ghost use Rattle.std.specs.Prelude.{◌≡◌, ◌<◌, ◌^◌, ◌≤ℤ◌, None, pos};
ghost use Rattle.mz_value.specs.Ranges.{greatest};
ghost use Rattle.mz_core.specs.Program.{plain_program};
ghost use Rattle.mz_meaning.specs.Unbounded.{first_unbounded};
ghost use Rattle.mz_model.specs.Walks.{limits_of, program_of};
ghost use Rattle.mz_model.specs.Ending.{EndsFrom, ModelEnds};

use crate::ending::{aim_of, halted, instance_of};
use crate::start::{no_names, unbounded};
use crate::types::{HeldConstraint, Names, Task};
use crate::whole::walked;
use mz_arena::Instance;
use mz_base::Stop;
use mz_core::Program;
use mz_model_state::{walks_are_closed, walks_go_on};
use mz_model_unbounded::first_unbounded;
use mz_symbol::Run;
use std::alloc::Global;

/// What follows the constraints: the objective, and the instance.
fn constrained(
    alloc: Global,
    task: &Task,
    names: Names,
    cs: &[HeldConstraint],
    run: Run,
) -> Result<Instance, Stop>
    requires { EndsFrom task.now run names cs.now }
    ensures { ModelEnds (limits_of task.now) (program_of task.now) result }
{
    walks_are_closed();
    let mut run = run;
    match aim_of(alloc, task, &names, &mut run) {
        Err(s) => Err(halted(task, &run, &names, s)),
        Ok(goal) => match instance_of(alloc, task, names, cs, goal, run) {
            Err(_) => Err(Stop::Memory),
            Ok(inst) => Ok(inst),
        },
    }
}

/// Where each declaration has a value or a bound.
fn bounded(alloc: Global, task: &Task) -> Result<Instance, Stop>
    requires { first_unbounded (program_of task.now) ≡ None }
    ensures { ModelEnds (limits_of task.now) (program_of task.now) result }
{
    walks_go_on();
    let mut run = Run::new(alloc);
    let mut names = no_names(alloc);
    match walked(alloc, task, &mut names, &mut run) {
        Err(s) => Err(halted(task, &run, &names, s)),
        Ok(cs) => constrained(alloc, task, names, &cs, run),
    }
}

/// The instance of a task's program.
fn modeled(alloc: Global, task: &Task) -> Result<Instance, Stop>
    ensures { ModelEnds (limits_of task.now) (program_of task.now) result }
{
    match first_unbounded(task.program) {
        Some(at) => Err(unbounded(alloc, task, at)),
        None => bounded(alloc, task),
    }
}

/// The instance of a typed program, under this budget, where a `var int` without a value and without
/// a set reaches `int_range` to both sides of 0. The program's declarations are evaluated in its
/// order, each sets first and then value; then its constraints in source order, and its objective.
///
/// Refused where each walk over the model stops, whatever values its variables have: at the first
/// declaration, in source order, that has no value and no bound (`UnboundedSet`, at its name), and
/// else where evaluation stops. Out of memory too where a form isn't built, and where what was made
/// doesn't pass the tests at the end; no walk comes to that.
pub fn model(
    alloc: Global,
    program: &Program,
    budget: u64,
    int_range: i64,
) -> Result<Instance, Stop>
    requires small { budget < 2 ^ 63 }
    requires from_zero { pos 0 ≤ℤ int_range }
    requires in_limit { int_range ≤ℤ greatest }
    ensures { ModelEnds (record { budget = budget; int_range = int_range }) (plain_program program.now) result }
{
    let task = Task {
        program: &*program,
        budget,
        int_range,
    };
    modeled(alloc, &task)
}
