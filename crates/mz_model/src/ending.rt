// The walk's end: the objective's node, and what is in hand → an instance; or the refusal.

ghost use Rattle.std.specs.Prelude.{◌≡◌, ◌++◌, IfOk, map, true};
ghost use Rattle.mz_core.specs.Program.{goal};
ghost use Rattle.mz_arena.specs.Instances.{instance};
ghost use Rattle.mz_meaning.specs.Walk.{ordered};
ghost use Rattle.mz_model_meaning.specs.Modeled.{AreVarsOf, HasGoalOf, Modeled};
ghost use Rattle.mz_symbol.specs.Readings.{Reading, Reads, state_of};
ghost use Rattle.mz_model_state.specs.Hands.{AreVars, IsAimed, SlotsFrom, constraint_roots};
ghost use Rattle.mz_model_state.specs.Loops.{ReadBack};
ghost use Rattle.mz_model_names.specs.Named.{held_name, view_if};
ghost use Rattle.mz_model.specs.Walks.{AreReadable, held_constraint, limits_of, names_of, program_of};
ghost use Rattle.mz_model.specs.Ending.{AimEnds, IsAimOf, IsInHand, StopHalts, WalkHalts};

use crate::declarations::world_in;
use crate::matching::are_vars_of;
use crate::objective::objective;
use crate::types::{HeldConstraint, Names, Task};
use mz_arena::{Id, Instance, InstanceGoal};
use mz_base::{Memory, Stop};
use mz_core::CoreGoal;
use mz_eval_cells::Known;
use mz_model_names::close::{are_placed, closed};
use mz_model_names::{HeldName, aim};
use mz_model_state::walks_are_closed;
use mz_symbol::Run;
use std::alloc::Global;

// ---- a refusal

/// Whether the slots of names are their places.
#[tactic(auto, using(crate::proofs::Endings::slots_start, crate::proofs::Endings::slots_step, crate::proofs::Endings::slots_end))]
fn are_numbered(names: &[HeldName]) -> bool
    ensures { result ≡ true → SlotsFrom 0 (map held_name names.now) }
{
    for i in 0..names.len() {
        if names[i].label.slot != i as u64 {
            return false;
        }
    }
    true
}

fn are_in_order(names: &Names) -> bool
    ensures { result ≡ true → SlotsFrom 0 (names_of names.now) }
{
    are_numbered(&names.list)
}

fn have_nodes(run: &Run, names: &Names) -> Result<(), Memory>
    ensures { IfOk result (λ _. AreVars run.now (names_of names.now)) }
{
    are_placed(run, &names.list)?;
    Ok(())
}

/// The same refusal, once what is in hand has passed the test; else out of memory, which no walk comes
/// to.
pub(crate) fn halted(task: &Task, run: &Run, names: &Names, stop: Stop) -> Stop
    requires { WalkHalts task.now run.now (names_of names.now) stop }
    ensures { StopHalts task.now result }
{
    walks_are_closed();
    let _nodes = run.arena();
    if !are_in_order(names) {
        return Stop::Memory;
    }
    let Ok(()) = have_nodes(run, names) else {
        return Stop::Memory;
    };
    stop
}

// ---- the objective

fn node_of(alloc: Global, run: &mut Run, k: &Option<Known>) -> Result<Id, Memory>
    ensures back { ReadBack run.old run.new }
    ensures same { IfOk result (λ _. (r : Reading) → Reads r run.new → state_of r run.old ≡ state_of r run.new) }
    ensures aims { IfOk result (IsAimOf run.new (view_if k.now)) }
{
    let Some(c) = k else {
        return Err(Memory);
    };
    let Ok(id) = aim(alloc, run, c) else {
        return Err(Memory);
    };
    Ok(id)
}

/// What an instance minimizes or maximizes, of the objective's cell.
#[tactic(auto, using(crate::proofs::Endings::aimed_least, crate::proofs::Endings::aimed_greatest))]
fn goal_of(
    alloc: Global,
    run: &mut Run,
    g: &CoreGoal,
    k: &Option<Known>,
) -> Result<InstanceGoal, Memory>
    ensures back { ReadBack run.old run.new }
    ensures same { IfOk result (λ _. (r : Reading) → Reads r run.new → state_of r run.old ≡ state_of r run.new) }
    ensures goal { IfOk result (HasGoalOf (goal g.now)) }
    ensures aimed { IfOk result (IsAimed run.new (view_if k.now)) }
{
    match g {
        CoreGoal::Satisfy => match k {
            None => Ok(InstanceGoal::Satisfy),
            Some(_) => Err(Memory),
        },
        CoreGoal::Minimize(_) => {
            let id = node_of(alloc, run, k)?;
            Ok(InstanceGoal::Minimize(id))
        }
        CoreGoal::Maximize(_) => {
            let id = node_of(alloc, run, k)?;
            Ok(InstanceGoal::Maximize(id))
        }
    }
}

/// The objective after all constraints.
pub(crate) fn aim_of(
    alloc: Global,
    task: &Task,
    names: &Names,
    run: &mut Run,
) -> Result<InstanceGoal, Stop>
    requires { AreReadable names.now }
    ensures { AimEnds task.now run.old run.new (names_of names.now) result }
{
    let world = world_in(&*task, &*names);
    let k = objective(alloc, &world, &task.program.goal, run)?;
    let Ok(goal) = goal_of(alloc, run, &task.program.goal, &k) else {
        return Err(Stop::Memory);
    };
    Ok(goal)
}

// ---- the instance

fn with_roots(all: Vec<Id>, more: &[Id]) -> Result<Vec<Id>, Memory>
    ensures { IfOk result (λ v. v.items ≡ all.items ++ more.now) }
{
    let mut ids = all;
    ids.extend_from_slice(more)?;
    Ok(ids)
}

fn with_constraint(all: Vec<Id>, c: &HeldConstraint) -> Result<Vec<Id>, Memory>
    ensures { IfOk result (λ v. v.items ≡ all.items ++ c.now.roots.items) }
{
    let ids = with_roots(all, c.roots.as_slice())?;
    Ok(ids)
}

#[tactic(auto, using(crate::proofs::Endings::roots_start, crate::proofs::Endings::roots_step, crate::proofs::Endings::roots_end))]
fn roots_of(alloc: Global, cs: &[HeldConstraint]) -> Result<Vec<Id>, Memory>
    ensures { IfOk result (λ v. v.items ≡ constraint_roots (map held_constraint cs.now)) }
{
    let mut all = Vec::new(alloc);
    for c in cs {
        all = with_constraint(all, c)?;
    }
    Ok(all)
}

/// The names; the cells of slots are dropped.
fn list_of(names: Names) -> Vec<HeldName>
    ensures { map held_name result.items ≡ names_of names }
{
    let Names {
        list,
        env: _env,
        parts: _parts,
    } = names;
    list
}

/// Whether an instance's variables are those of the declarations.
fn is_declared(task: &Task, inst: &Instance) -> bool
    ensures { result ≡ true → AreVarsOf (ordered (program_of task.now).decls (program_of task.now).order) (instance inst.now).vars }
{
    are_vars_of(task.program, &inst.vars)
}

/// The instance of what is in hand.
pub(crate) fn instance_of(
    alloc: Global,
    task: &Task,
    names: Names,
    cs: &[HeldConstraint],
    goal: InstanceGoal,
    run: Run,
) -> Result<Instance, Memory>
    requires { IsInHand task.now run (names_of names) cs.now goal }
    ensures { IfOk result (λ inst. Modeled (limits_of task.now) (program_of task.now) (instance inst)) }
{
    walks_are_closed();
    let roots = roots_of(alloc, cs)?;
    let list = list_of(names);
    let inst = closed(alloc, run, list, &roots, goal)?;
    if !is_declared(task, &inst) {
        return Err(Memory);
    }
    Ok(inst)
}
