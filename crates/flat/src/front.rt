// The front of the program that is made of an instance.

ghost use Rattle.std.specs.Prelude.{IfOk, map};
ghost use Rattle.mz_arena.specs.Instances.{model_var};
ghost use Rattle.flat_reif.specs.States.{state};
ghost use Rattle.flat.specs.Fronts.{IsFronted, MayHaveFront};

use crate::arrays::add_arrays;
use crate::variables::declare_vars;
use flat_reif::Flat;
use mz_arena::ModelVar;
use mz_base::{Memory, Names};
use std::alloc::Global;

/// Declares the variables of the model, each as the argument of its node, and then their arrays.
///
/// The flattening has begun and has no variable yet. Each variable has a name of the table that no other
/// has, an identifier that doesn't begin with `X_`.
pub fn declare_front(
    alloc: Global,
    flat: &mut Flat,
    names: &Names,
    vars: &[ModelVar],
) -> Result<(), Memory>
    requires { MayHaveFront (state flat.old) names.now (map model_var vars.now) }
    ensures { IfOk result (λ _. IsFronted (state flat.old) (state flat.new) names.now (map model_var vars.now)) }
{
    given!(declare_vars(alloc, flat, names, vars));
    given!(add_arrays(alloc, flat, names, vars));
    Ok(())
}
