// The test at the end of the walk.

ghost use Rattle.std.specs.Prelude.{◌≡◌, Some, true, map, IfOk, IsSome};
ghost use Rattle.mz_arena.specs.Extents.{as_truth, as_whole, extent};
ghost use Rattle.mz_arena.specs.Instances.{model_var};
ghost use Rattle.mz_instance.specs.Instance.{AreTruths, IsObjective};
ghost use Rattle.mz_model_state.specs.Tested.{IsTested};
ghost use Rattle.mz_model_state.specs.StepsIds.{IsTruthAt};

use crate::ids::{choice_ids, part_ids};
use crate::nodes::all_numbered;
use mz_arena::{Arena, Id, InstanceGoal, ModelVar, Sort};
use mz_base::Memory;
use mz_symbol::Run;
use std::alloc::Global;

/// Whether a node is a Boolean.
#[tactic(auto, using(crate::proofs::Sorts::is_truth))]
fn is_truth(arena: &Arena, id: Id) -> bool
    ensures { result ≡ true → IsSome (as_truth (extent arena.now id)) }
{
    if id >= arena.len() {
        return false;
    }
    match arena.sort(id) {
        Sort::Boolean => true,
        _ => false,
    }
}

/// Whether a node is an integer.
#[tactic(auto, using(crate::proofs::Sorts::is_integer))]
fn is_integer(arena: &Arena, id: Id) -> bool
    ensures { result ≡ true → IsSome (as_whole (extent arena.now id)) }
{
    if id >= arena.len() {
        return false;
    }
    match arena.sort(id) {
        Sort::Integer => true,
        _ => false,
    }
}

/// Whether the root with this number, from 0, is a Boolean.
fn is_truth_at(arena: &Arena, roots: &[Id], i: usize) -> bool
    ensures { result ≡ true → IsTruthAt arena.now roots.now i }
{
    match roots.get(i) {
        None => false,
        Some(id) => is_truth(arena, *id),
    }
}

fn are_truths(arena: &Arena, roots: &[Id]) -> bool
    ensures { result ≡ true → AreTruths arena.now roots.now }
{
    for i in 0..roots.len() {
        if !is_truth_at(arena, roots, i) {
            return false;
        }
    }
    true
}

fn is_objective(arena: &Arena, goal: InstanceGoal) -> bool
    ensures { result ≡ true → IsObjective arena.now goal }
{
    match goal {
        InstanceGoal::Satisfy => true,
        InstanceGoal::Minimize(id) => is_integer(arena, id),
        InstanceGoal::Maximize(id) => is_integer(arena, id),
    }
}

/// The test at the end, one pass over the run's nodes: each variable is a part of these, in order,
/// each choice is one that was noted, roots are Booleans, and the objective is an integer.
///
/// Out of memory too where it isn't so. No walk comes to that.
pub fn test(
    alloc: Global,
    run: &Run,
    vars: &[ModelVar],
    roots: &[Id],
    goal: InstanceGoal,
) -> Result<(), Memory>
    ensures { IfOk result (λ _. IsTested run.now (map model_var vars.now) roots.now goal) }
{
    let parts = part_ids(alloc, vars)?;
    let choices = choice_ids(alloc, run.choices())?;
    let arena = run.arena();
    if !all_numbered(arena, &parts, &choices) {
        return Err(Memory);
    }
    if !are_truths(arena, roots) {
        return Err(Memory);
    }
    if !is_objective(arena, goal) {
        return Err(Memory);
    }
    Ok(())
}
