// Comprehensions.

ghost use Rattle.std.specs.Prelude.{◌≡◌, ◌||◌, IfOk, map};
ghost use Rattle.mz_core.specs.Types.{plain_type};
ghost use Rattle.mz_core.specs.TreeViews.{tree};
ghost use Rattle.mz_check_meaning.specs.Comprehensions.{head_type, listed_heads, set_of_heads, comprehended};
ghost use Rattle.mz_check_meaning.specs.Passes.{Passes};
ghost use Rattle.mz_check_context.specs.Views.{typed_gen};

use crate::generator::{TypedGen, kept_gens, some_left_out, some_var_gen, wheres_fitted};
use mz_base::{Kind, Memory, Span, Stop};
use mz_check_forms::{
    base_of, coerced, is_allowed, is_scalar, is_var, list_of, make_comprehension, member_base,
    mismatch, place_of, refusal, scalar, set_base, type_of, typed_as,
};
use mz_core::{Base, Core, TypeInst, below, copy_type};
use std::alloc::Global;

#[tactic(auto, unfolding(mz_core::specs::Types::plain_type))]
fn marked_more(var: bool, opt: bool, t: TypeInst) -> TypeInst
    ensures { plain_type result ≡ record (plain_type t) { var = (plain_type t).var || var; opt = (plain_type t).opt || opt } }
{
    TypeInst {
        var: t.var || var,
        opt: t.opt || opt,
        base: t.base,
        dims: t.dims,
    }
}

/// The type of the elements that a head of this type gives.
fn head_type(alloc: Global, gs: &[TypedGen], t: &TypeInst) -> Result<TypeInst, Memory>
    ensures { IfOk result (λ x. plain_type x ≡ head_type (map typed_gen gs.now) (plain_type t.now)) }
{
    let var = some_var_gen(gs);
    let opt = some_left_out(gs);
    Ok(marked_more(var, opt, copy_type(alloc, t)?))
}

#[tactic(auto, unfolding(mz_check_meaning::specs::Comprehensions::listed_heads))]
fn listed_heads(alloc: Global, span: Span, gs: Vec<TypedGen>, e: Core) -> Result<Core, Stop>
    ensures { Passes tree result (listed_heads span (map typed_gen gs.items) (tree e)) }
{
    let t = head_type(alloc, &gs, type_of(&e))?;
    if !is_scalar(type_of(&e)) || !is_allowed(&t) {
        return Err(mismatch(place_of(&e)));
    }
    let head = coerced(alloc, e, &t)?;
    let ty = list_of(alloc, &t)?;
    let generators = kept_gens(alloc, gs)?;
    Ok(make_comprehension(alloc, span, ty, false, head, generators)?)
}

#[tactic(auto, unfolding(mz_check_meaning::specs::Comprehensions::set_of_heads))]
fn set_of_heads(alloc: Global, span: Span, gs: Vec<TypedGen>, e: Core) -> Result<Core, Stop>
    ensures { Passes tree result (set_of_heads span (map typed_gen gs.items) (tree e)) }
{
    let int = typed_as(alloc, &e, Base::Int);
    if !below(type_of(&e), &int) {
        return Err(mismatch(place_of(&e)));
    }
    if some_var_gen(&gs) || is_var(&e) {
        return Err(refusal(Kind::LeftOut, span));
    }
    let base = base_of(type_of(&e));
    let head = coerced(alloc, e, &scalar(alloc, member_base(base)))?;
    let generators = kept_gens(alloc, gs)?;
    Ok(make_comprehension(
        alloc,
        span,
        scalar(alloc, set_base(base)),
        true,
        head,
        generators,
    )?)
}

/// A comprehension, in braces or not, with its typed generators and head. TypeMismatch at the first `where` that is no Boolean, and at a
/// head that can't be an element; LeftOut at a comprehension in braces, where some part is var.
#[inline(never)]
#[tactic(auto, unfolding(mz_check_meaning::specs::Comprehensions::comprehended))]
pub fn comprehended(
    alloc: Global,
    span: Span,
    braces: bool,
    gs: Vec<TypedGen>,
    e: Core,
) -> Result<Core, Stop>
    ensures { Passes tree result (comprehended span braces (map typed_gen gs.items) (tree e)) }
{
    let fitted = wheres_fitted(alloc, gs)?;
    if braces {
        set_of_heads(alloc, span, fitted, e)
    } else {
        listed_heads(alloc, span, fitted, e)
    }
}
