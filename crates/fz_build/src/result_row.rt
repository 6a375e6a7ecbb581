// The arguments of rows that define a variable.

ghost use Rattle.std.specs.Prelude.{◌≡◌, IfOk, map};
ghost use Rattle.fz_program.specs.Arguments.{argument};
ghost use Rattle.fz_build.specs.Inputs.{is_sum};
ghost use Rattle.fz_build.specs.Build.{args_with, coefficients_with, sum_with};

use crate::{copied_at, elements_at, with_element, with_last};
use fz_program::{Arg, RowName};
use mz_base::Memory;
use std::alloc::Global;

// Whether the result of a row is a term of its sum.
#[tactic(auto, unfolding(crate::specs::Inputs::is_sum))]
pub(crate) fn is_sum(name: RowName) -> bool
    ensures { result ≡ is_sum name }
{
    matches!(name, RowName::IntLinEq)
}

// The coefficients, with -1 for the variable.
fn coefficients_with(alloc: Global, inputs: &[Arg]) -> Result<Arg, Memory>
    ensures { IfOk result (λ a. argument a ≡ coefficients_with (map argument inputs.now)) }
{
    with_element(alloc, elements_at(inputs, 0), Arg::Int(-1))
}

// The coefficients, the integers and the constant, with -1 times the variable.
fn sum_with(alloc: Global, inputs: &[Arg], k: u64) -> Result<Vec<Arg>, Memory>
    ensures { IfOk result (λ all. map argument all.items ≡ sum_with (map argument inputs.now) k) }
{
    let coefficients = given!(coefficients_with(alloc, inputs));
    let integers = given!(with_element(alloc, elements_at(inputs, 1), Arg::Var(k)));
    let constant = given!(copied_at(alloc, inputs, 2));
    Ok(vec![in alloc; coefficients, integers, constant]?)
}

// The arguments of the row that defines the variable by the inputs.
pub(crate) fn args_with(
    alloc: Global,
    name: RowName,
    inputs: &[Arg],
    k: u64,
) -> Result<Vec<Arg>, Memory>
    ensures { IfOk result (λ all. map argument all.items ≡ args_with name (map argument inputs.now) k) }
{
    if is_sum(name) {
        sum_with(alloc, inputs, k)
    } else {
        with_last(alloc, inputs, k)
    }
}
