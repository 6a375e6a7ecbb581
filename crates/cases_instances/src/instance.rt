// Whether an instance is one that flattening takes.

ghost use Rattle.std.specs.Prelude.{◌≡◌, IfOk, true};
ghost use Rattle.mz_arena.specs.Instances.{instance};
ghost use Rattle.mz_instance.specs.Instance.{IsInstance};

use crate::nodes::{are_kept, are_nodes, are_truths, is_objective};
use crate::part::{ids, parts};
use crate::parts::are_parts;
use crate::variables::are_model_vars;
use mz_arena::Instance;
use mz_base::Memory;
use std::alloc::Global;

/// Whether this is an instance: each part of a variable has a node of its own, and there is no other variable; a
/// choice has some value to take; the roots are Booleans, and the objective is an integer.
///
/// Where it answers `false`, nothing is said.
pub fn is_instance(alloc: Global, inst: &Instance) -> Result<bool, Memory>
    ensures { IfOk result (λ b. b ≡ true → IsInstance (instance inst.now)) }
{
    let _count = inst.arena.len();
    let vars = inst.vars.as_slice();
    let all = given!(parts(alloc, vars));
    let places = given!(ids(alloc, vars));
    let list = all.as_slice();
    let nodes = places.as_slice();
    if !are_model_vars(vars) {
        return Ok(false);
    }
    if !are_parts(list) {
        return Ok(false);
    }
    if !are_nodes(&inst.arena, nodes, list) {
        return Ok(false);
    }
    if !are_kept(&inst.arena, nodes) {
        return Ok(false);
    }
    if !are_truths(&inst.arena, inst.roots.as_slice()) {
        return Ok(false);
    }
    Ok(is_objective(&inst.arena, inst.goal))
}
