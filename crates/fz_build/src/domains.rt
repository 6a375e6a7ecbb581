// The domain of a row's result.

ghost use Rattle.std.specs.Prelude.{◌≡◌, IfOk, IfSome, IsSome as IsThere, Some, map, option_map};
ghost use Rattle.std.specs.List.{AllByRecursion};
ghost use Rattle.mz_interval.specs.Interval.{ends};
ghost use Rattle.fz_program.specs.Arguments.{argument};
ghost use Rattle.fz_program.specs.Flat.{IsSome, IsWellFormedVariable, variable};
ghost use Rattle.fz_build.specs.declared.form.Form.TheVariants.{Arithmetic, Combined, Element, Flag, SetElement, Size};
ghost use Rattle.fz_build.specs.Bounds.{AreInputs, HoldsResults, domain_by, result_domain, whole};

use crate::form::{Form, form_of};
use crate::inputs::{elements_at, number_at, upper_at};
use crate::integers::{arithmetic, excess, hull_reached, interval, magnitude, size};
use crate::sets::{combined, union_reached};
use fz_program::{Arg, Domain, FzVar, RowName};
use mz_base::Memory;
use mz_interval::Interval;
use mz_operations::{Arith, SetOp};
use mz_value::RangeSet;
use std::alloc::Global;

// The integers of an interval; `None` where there is none.
fn whole(alloc: Global, i: Option<Interval>) -> Result<Option<Domain>, Memory>
    ensures is { IfOk result (λ d. d ≡ whole (option_map ends i)) }
    ensures some { IfOk result (λ d. IfSome d IsSome) }
{
    match i {
        None => Ok(None),
        Some(i) => Ok(Some(Domain::Ints(RangeSet::range(alloc, i.lo, i.hi)?))),
    }
}

// An integer input as it is.
#[tactic(auto, unfolding(crate::specs::Bounds::domain_by))]
fn flag(alloc: Global, vars: &[FzVar], inputs: &[Arg]) -> Result<Option<Domain>, Memory>
    ensures is { IfOk result (λ d. d ≡ domain_by Flag (map variable vars.now) (map argument inputs.now)) }
    ensures some { IfOk result (λ d. IfSome d IsSome) }
{
    whole(alloc, interval(number_at(vars, inputs, 0)))
}

// An element of an array of integers.
#[tactic(auto, unfolding(crate::specs::Bounds::domain_by))]
fn element(alloc: Global, vars: &[FzVar], inputs: &[Arg]) -> Result<Option<Domain>, Memory>
    ensures is { IfOk result (λ d. d ≡ domain_by Element (map variable vars.now) (map argument inputs.now)) }
    ensures some { IfOk result (λ d. IfSome d IsSome) }
{
    let index = number_at(vars, inputs, 0);
    let e = hull_reached(vars, index, elements_at(inputs, 1));
    whole(alloc, interval(e))
}

// An operation on two integers.
#[tactic(auto, unfolding(crate::specs::Bounds::domain_by))]
fn operated(
    alloc: Global,
    op: Arith,
    vars: &[FzVar],
    inputs: &[Arg],
) -> Result<Option<Domain>, Memory>
    ensures is { IfOk result (λ d. d ≡ domain_by (Arithmetic op) (map variable vars.now) (map argument inputs.now)) }
    ensures some { IfOk result (λ d. IfSome d IsSome) }
{
    let x = interval(number_at(vars, inputs, 0));
    let y = interval(number_at(vars, inputs, 1));
    whole(alloc, arithmetic(op, x, y))
}

// The number of elements of a set.
#[tactic(auto, unfolding(crate::specs::Bounds::domain_by))]
fn counted(alloc: Global, vars: &[FzVar], inputs: &[Arg]) -> Result<Option<Domain>, Memory>
    ensures is { IfOk result (λ d. d ≡ domain_by Size (map variable vars.now) (map argument inputs.now)) }
    ensures some { IfOk result (λ d. IfSome d IsSome) }
{
    let set = given!(upper_at(alloc, vars, inputs, 0));
    whole(alloc, size(&set))
}

// A set that an operation gives.
#[tactic(auto, unfolding(crate::specs::Bounds::domain_by))]
fn set_operated(
    alloc: Global,
    op: SetOp,
    vars: &[FzVar],
    inputs: &[Arg],
) -> Result<Option<Domain>, Memory>
    ensures is { IfOk result (λ d. d ≡ domain_by (Combined op) (map variable vars.now) (map argument inputs.now)) }
    ensures some { IfOk result (λ d. IfSome d IsSome) }
{
    let set = given!(combined(alloc, op, vars, inputs));
    Ok(Some(Domain::SetOf(set)))
}

// An element of an array of sets.
#[tactic(auto, unfolding(crate::specs::Bounds::domain_by))]
fn set_element(alloc: Global, vars: &[FzVar], inputs: &[Arg]) -> Result<Option<Domain>, Memory>
    ensures is { IfOk result (λ d. d ≡ domain_by SetElement (map variable vars.now) (map argument inputs.now)) }
    ensures some { IfOk result (λ d. IfSome d IsSome) }
{
    let index = number_at(vars, inputs, 0);
    let set = given!(union_reached(alloc, vars, index, elements_at(inputs, 1)));
    Ok(Some(Domain::SetOf(set)))
}

#[tactic(auto, unfolding(crate::specs::Bounds::domain_by))]
fn domain_by(
    alloc: Global,
    form: Form,
    vars: &[FzVar],
    inputs: &[Arg],
) -> Result<Option<Domain>, Memory>
    ensures is { IfOk result (λ d. d ≡ domain_by form (map variable vars.now) (map argument inputs.now)) }
    ensures some { IfOk result (λ d. IfSome d IsSome) }
{
    match form {
        Form::Test => Ok(None),
        Form::Truth => Ok(Some(Domain::Bool)),
        Form::TruthElement => Ok(Some(Domain::Bool)),
        Form::Arithmetic(op) => operated(alloc, op, vars, inputs),
        Form::Magnitude => whole(alloc, magnitude(interval(number_at(vars, inputs, 0)))),
        Form::Flag => flag(alloc, vars, inputs),
        Form::Element => element(alloc, vars, inputs),
        Form::Size => counted(alloc, vars, inputs),
        Form::Sum => whole(alloc, excess(vars, inputs)),
        Form::Combined(op) => set_operated(alloc, op, vars, inputs),
        Form::SetElement => set_element(alloc, vars, inputs),
    }
}

// The domain, which is there.
fn found(alloc: Global, name: RowName, vars: &[FzVar], inputs: &[Arg]) -> Result<Domain, Memory>
    requires { IsThere (result_domain (map variable vars.now) name (map argument inputs.now)) }
    ensures is { IfOk result (λ d. result_domain (map variable vars.now) name (map argument inputs.now) ≡ Some d) }
    ensures some { IfOk result IsSome }
{
    match given!(domain_by(alloc, form_of(name), vars, inputs)) {
        Some(d) => Ok(d),
        None => unreachable!(),
    }
}

/// The domain of the result that a row has of these inputs. It isn't empty, and holds the result of
/// all values in the inputs' domains: of an integer it has all from the least to the greatest that
/// their bounds allow, and of a set it is the greatest set. It depends on the name, the inputs and
/// their domains alone.
///
/// The variables are well formed, the row has a result, the inputs are of its kinds, and the bounds
/// of an integer lie in -2^61 to 2^61.
pub fn result_domain(
    alloc: Global,
    name: RowName,
    vars: &[FzVar],
    inputs: &[Arg],
) -> Result<Domain, Memory>
    requires vars { AllByRecursion IsWellFormedVariable (map variable vars.now) }
    requires inputs { AreInputs (map variable vars.now) name (map argument inputs.now) }
    requires limit { IsThere (result_domain (map variable vars.now) name (map argument inputs.now)) }
    ensures is { IfOk result (λ d. result_domain (map variable vars.now) name (map argument inputs.now) ≡ Some d) }
    ensures some { IfOk result IsSome }
    ensures holds { IfOk result (λ d. HoldsResults (map variable vars.now) name (map argument inputs.now) d) }
{
    found(alloc, name, vars, inputs)
}
