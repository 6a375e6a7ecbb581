// Generators.

ghost use Rattle.std.specs.Prelude.{◌≡◌, IfOk, map};
ghost use Rattle.std.specs.List.{list_any};
ghost use Rattle.std.specs.Option.{option_map};
ghost use Rattle.mz_core.specs.Types.{plain_type};
ghost use Rattle.mz_core.specs.TreeViews.{tree, gen};
ghost use Rattle.mz_check_meaning.specs.Tests.{each, if_there};
ghost use Rattle.mz_check_meaning.specs.Coerced.{condition};
ghost use Rattle.mz_check_meaning.specs.Comprehensions.{member_of, is_list_type, running_type, where_fitted, var_cond, is_var_gen, may_leave_out};
ghost use Rattle.mz_check_meaning.specs.Passes.{Passes};
ghost use Rattle.mz_check_context.specs.Views.{typed_gen};

use mz_base::{Memory, Stop};
use mz_check_forms::{
    base_of, condition, dims_of, element_of, is_set_type, is_var, make_generator, mismatch,
    place_of, scalar, type_of,
};
use mz_core::{Base, Core, CoreGen, Ix, TypeInst};
use std::alloc::Global;

/// A generator with its typed parts: the slots of its names, the set or array that they run over, and its `where`.
#[derive(Drop)]
pub struct TypedGen {
    pub slots: Vec<u64>,
    pub set: Core,
    pub cond: Option<Core>,
}

/// The base of a name that runs over a set of this base.
pub fn member_of(base: Base) -> Base
    ensures { result ≡ member_of base }
{
    match base {
        Base::SetEnum(e) => Base::Enum(e),
        Base::SetBottom => Base::Bottom,
        _ => Base::Int,
    }
}

/// The condition of a `where`, if there is one, coerced to a Boolean.
fn maybe_condition(alloc: Global, cond: Option<Core>) -> Result<Option<Core>, Stop>
    ensures { Passes (option_map tree) result (if_there condition (option_map tree cond)) }
{
    match cond {
        None => Ok(None),
        Some(e) => Ok(Some(condition(alloc, e)?)),
    }
}

/// The generator, with its `where` coerced to a Boolean. TypeMismatch at a `where` that is none.
fn where_fitted(alloc: Global, g: TypedGen) -> Result<TypedGen, Stop>
    ensures { Passes typed_gen result (where_fitted (typed_gen g)) }
{
    let TypedGen { slots, set, cond } = g;
    let cond = maybe_condition(alloc, cond)?;
    Ok(TypedGen { slots, set, cond })
}

/// Each generator, with its `where` coerced to a Boolean. TypeMismatch at the first `where` that is none.
pub fn wheres_fitted(alloc: Global, gs: Vec<TypedGen>) -> Result<Vec<TypedGen>, Stop>
    ensures { Passes (λ v. map typed_gen v.items) result (each where_fitted (map typed_gen gs.items)) }
{
    let mut all = Vec::new(alloc);
    for g in gs {
        all.push(where_fitted(alloc, g)?)?;
    }
    Ok(all)
}

fn is_list(dims: &[Ix]) -> bool
    ensures { result ≡ is_list_type dims.now }
{
    match dims {
        [] => false,
        [_, rest @ ..] => rest.is_empty(),
    }
}

/// The type of a name that runs over the set or array. TypeMismatch at what is neither a set nor an array of one dimension.
#[inline(never)]
#[tactic(auto, unfolding(mz_check_meaning::specs::Comprehensions::running_type))]
pub fn running_type(alloc: Global, e: &Core) -> Result<TypeInst, Stop>
    ensures { Passes plain_type result (running_type (tree e.now)) }
{
    let t = type_of(e);
    if is_set_type(t) {
        return Ok(scalar(alloc, member_of(base_of(t))));
    }
    if is_list(dims_of(t)) {
        return Ok(element_of(alloc, t));
    }
    Err(mismatch(place_of(e)))
}

fn var_cond(cond: &Option<Core>) -> bool
    ensures { result ≡ var_cond (option_map tree cond.now) }
{
    match cond {
        None => false,
        Some(e) => is_var(e),
    }
}

/// Whether the set or array of a generator, or its `where`, is var.
fn is_var_gen(g: &TypedGen) -> bool
    ensures { result ≡ is_var_gen (typed_gen g.now) }
{
    is_var(&g.set) || var_cond(&g.cond)
}

/// Whether the set of a generator, or its `where`, is var.
fn may_leave_out(g: &TypedGen) -> bool
    ensures { result ≡ may_leave_out (typed_gen g.now) }
{
    (is_var(&g.set) && is_set_type(type_of(&g.set))) || var_cond(&g.cond)
}

/// Whether the set or array of some generator, or its `where`, is var.
pub fn some_var_gen(gs: &[TypedGen]) -> bool
    ensures { result ≡ list_any is_var_gen (map typed_gen gs.now) }
{
    for g in gs {
        if is_var_gen(g) {
            return true;
        }
    }
    false
}

/// Whether an element may be absent, as the set of some generator, or its `where`, is var.
pub fn some_left_out(gs: &[TypedGen]) -> bool
    ensures { result ≡ list_any may_leave_out (map typed_gen gs.now) }
{
    for g in gs {
        if may_leave_out(g) {
            return true;
        }
    }
    false
}

/// Generators, as the typed tree keeps them.
pub fn kept_gens(alloc: Global, gs: Vec<TypedGen>) -> Result<Vec<CoreGen>, Memory>
    ensures { IfOk result (λ v. map gen v.items ≡ map typed_gen gs.items) }
{
    let mut all = Vec::new(alloc);
    for g in gs {
        let TypedGen { slots, set, cond } = g;
        all.push(make_generator(slots, set, cond))?;
    }
    Ok(all)
}
