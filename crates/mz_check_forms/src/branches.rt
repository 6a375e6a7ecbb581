// `if`.

ghost use Rattle.std.specs.Prelude.{◌≡◌, ◌++◌, Ok, IfOk, map};
ghost use Rattle.std.specs.List.{zip};
ghost use Rattle.std.specs.Option.{option_map};
ghost use Rattle.mz_core.specs.Types.{plain_type};
ghost use Rattle.mz_core.specs.Tree.{node, choice, branches, maybe};
ghost use Rattle.mz_core.specs.TreeViews.{tree, branch};
ghost use Rattle.mz_check_meaning.specs.Tests.{loop, each};
ghost use Rattle.mz_check_meaning.specs.Coerced.{condition};
ghost use Rattle.mz_check_meaning.specs.Arrays.{join_next, each_to};
ghost use Rattle.mz_check_meaning.specs.Branches.{branches_join, else_list, else_to, whole_type, decided};
ghost use Rattle.mz_check_meaning.specs.Passes.{Passes};
ghost use Rattle.mz_check_forms.specs.StepsBranches.{passed, all_pass, join_both, bool_whole};

use crate::coerce::{allowed_at, coerced, condition, each_to};
use crate::joins::{join_next, rest_join};
use crate::kinds::{made_var, mismatch, scalar, typed_as, var_of};
use crate::literals::some_var;
use crate::{make_if, place_of, type_of};
use mz_base::{Memory, Span, Stop};
use mz_core::{Base, Core, TypeInst, below, copy_type};
use std::alloc::Global;

/// Each condition, coerced to a Boolean. TypeMismatch at the first that is none.
fn conditions(alloc: Global, es: Vec<Core>) -> Result<Vec<Core>, Stop>
    ensures { Passes (λ v. map tree v.items) result (each condition (map tree es.items)) }
{
    let mut all = Vec::new(alloc);
    for e in es {
        all.push(condition(alloc, e)?)?;
    }
    Ok(all)
}

/// TypeMismatch at what is no Boolean.
#[tactic(auto, unfolding(mz_check_meaning::specs::Coerced::condition, mz_check_meaning::specs::Coerced::fitted))]
fn is_condition(alloc: Global, e: &Core) -> Result<(), Stop>
    ensures { Passes (λ _. tt) result (passed (condition (tree e.now))) }
{
    if !below(type_of(e), &typed_as(alloc, e, Base::Bool)) {
        return Err(mismatch(place_of(e)));
    }
    Ok(())
}

/// TypeMismatch at the first that is no Boolean.
fn are_conditions(alloc: Global, es: &[Core]) -> Result<(), Stop>
    ensures { Passes (λ _. tt) result (all_pass condition (map tree es.now)) }
{
    for e in es {
        is_condition(alloc, e)?;
    }
    Ok(())
}

/// The join with what stands after the `else`.
fn else_join(alloc: Global, t: TypeInst, other: &Option<Core>) -> Result<TypeInst, Stop>
    ensures { Passes plain_type result (loop join_next (plain_type t) (else_list (option_map tree other.now))) }
{
    match other {
        None => Ok(t),
        Some(e) => join_next(alloc, t, e),
    }
}

/// The type of what stands after the `else`; Bottom where there is none.
#[tactic(auto, unfolding(mz_check_meaning::specs::Branches::branches_join))]
fn else_type(alloc: Global, other: &Option<Core>) -> Result<TypeInst, Memory>
    ensures { IfOk result (λ t. branches_join (else_list (option_map tree other.now)) ≡ Ok (plain_type t)) }
{
    match other {
        None => Ok(scalar(alloc, Base::Bottom)),
        Some(e) => copy_type(alloc, type_of(e)),
    }
}

/// The join of a type with those of more branches, the last of which stands after the `else`.
fn join_above(
    alloc: Global,
    t: &TypeInst,
    thens: &[Core],
    other: &Option<Core>,
) -> Result<TypeInst, Stop>
    ensures { Passes plain_type result (join_both (plain_type t.now) (map tree thens.now) (else_list (option_map tree other.now))) }
{
    let joined = rest_join(alloc, t, thens)?;
    else_join(alloc, joined, other)
}

/// The join of all branches, the last of which stands after the `else`. TypeMismatch at the first that doesn't fit those before it.
#[tactic(auto, unfolding(mz_check_meaning::specs::Branches::branches_join))]
fn all_join(alloc: Global, thens: &[Core], other: &Option<Core>) -> Result<TypeInst, Stop>
    ensures { Passes plain_type result (branches_join (map tree thens.now ++ else_list (option_map tree other.now))) }
{
    match thens {
        [] => Ok(else_type(alloc, other)?),
        [first, rest @ ..] => join_above(alloc, type_of(first), rest, other),
    }
}

/// The type of an `if` without `else`, as the join of its branches is var or not. TypeMismatch at the first branch that is no Boolean.
fn bool_whole(alloc: Global, thens: &[Core], var: bool) -> Result<TypeInst, Stop>
    ensures { Passes plain_type result (bool_whole var (map tree thens.now)) }
{
    are_conditions(alloc, thens)?;
    Ok(made_var(var, scalar(alloc, Base::Bool)))
}

/// The type of the whole, whose branches have this join. TypeMismatch at the first branch that is no Boolean, where there is no `else`.
fn whole_type(
    alloc: Global,
    thens: &[Core],
    other: &Option<Core>,
    t: TypeInst,
) -> Result<TypeInst, Stop>
    ensures { Passes plain_type result (whole_type (map tree thens.now) (option_map tree other.now) (plain_type t)) }
{
    match other {
        Some(_) => Ok(t),
        None => bool_whole(alloc, thens, var_of(&t)),
    }
}

fn else_to(alloc: Global, t: &TypeInst, other: Option<Core>) -> Result<Option<Core>, Memory>
    ensures { IfOk result (λ o. option_map tree o ≡ else_to (plain_type t.now) (option_map tree other)) }
{
    match other {
        None => Ok(None),
        Some(e) => Ok(Some(coerced(alloc, e, t)?)),
    }
}

/// Each condition with its branch.
fn paired(alloc: Global, conds: Vec<Core>, thens: Vec<Core>) -> Result<Vec<(Core, Core)>, Memory>
    ensures { IfOk result (λ v. map branch v.items ≡ zip (map tree conds.items) (map tree thens.items)) }
{
    let mut all = Vec::new(alloc);
    let mut rest = thens.into_iter();
    for c in conds {
        let Some(e) = rest.next() else {
            return Ok(all);
        };
        all.push((c, e))?;
    }
    Ok(all)
}

/// The node of an `if` of this type, whose branches are coerced to it.
fn chosen(
    alloc: Global,
    span: Span,
    ty: TypeInst,
    conds: Vec<Core>,
    thens: Vec<Core>,
    other: Option<Core>,
) -> Result<Core, Memory>
    ensures { IfOk result (λ x. tree x ≡ node span (plain_type ty) (choice (branches (zip (map tree conds.items) (each_to (plain_type ty) (map tree thens.items)))) (maybe (else_to (plain_type ty) (option_map tree other))))) }
{
    let other = else_to(alloc, &ty, other)?;
    let thens = each_to(alloc, &ty, thens)?;
    let cases = paired(alloc, conds, thens)?;
    make_if(alloc, span, ty, cases, other)
}

/// An `if` with its typed conditions, what stands after the `then` of each, and what stands after the `else`. TypeMismatch at the first
/// condition that is no Boolean, at the first branch that doesn't fit those before it, at the first that is no Boolean where there is no
/// `else`, and at the whole, where it would be of no type.
#[inline(never)]
#[tactic(auto, unfolding(mz_check_meaning::specs::Branches::decided))]
pub fn decided(
    alloc: Global,
    span: Span,
    conds: Vec<Core>,
    thens: Vec<Core>,
    other: Option<Core>,
) -> Result<Core, Stop>
    ensures { Passes tree result (decided span (map tree conds.items) (map tree thens.items) (option_map tree other)) }
{
    let conds = conditions(alloc, conds)?;
    let joined = all_join(alloc, &thens, &other)?;
    let whole = whole_type(alloc, &thens, &other, joined)?;
    let ty = allowed_at(span, made_var(some_var(&conds), whole))?;
    Ok(chosen(alloc, span, ty, conds, thens, other)?)
}
