// Accesses to arrays.

ghost use Rattle.std.specs.Prelude.{◌≡◌, map};
ghost use Rattle.mz_core.specs.TreeViews.{tree};
ghost use Rattle.mz_check_meaning.specs.Arrays.{index_base, index_fitted, indices_fitted, accessed};
ghost use Rattle.mz_check_meaning.specs.Passes.{Passes};

use crate::coerce::{allowed_at, fitted};
use crate::kinds::{
    dims_of, element_of, is_scalar, is_set_type, made_var, mismatch, refusal, typed_as,
};
use crate::literals::some_var;
use crate::{make_access, place_of, type_of};
use mz_base::{Kind, Span, Stop};
use mz_core::{Base, Core, Ix};
use std::alloc::Global;

/// The base of an index of this type.
fn index_base(x: Ix) -> Base
    ensures { result ≡ index_base x }
{
    match x {
        Ix::Int => Base::Int,
        Ix::Enum(e) => Base::Enum(e),
    }
}

/// An index, coerced to its type. LeftOut at the access, where it is a set; TypeMismatch at the index, where it isn't below its type.
fn index_fitted(alloc: Global, span: Span, e: Core, x: Ix) -> Result<Core, Stop>
    ensures { Passes tree result (index_fitted span (tree e) x) }
{
    if is_set_type(type_of(&e)) {
        return Err(refusal(Kind::LeftOut, span));
    }
    let t = typed_as(alloc, &e, index_base(x));
    fitted(alloc, e, &t)
}

/// Each index, coerced to its type, from the left.
#[tactic(auto, unfolding(mz_check_meaning::specs::Arrays::indices_fitted))]
fn indices_fitted(alloc: Global, span: Span, es: Vec<Core>, xs: &[Ix]) -> Result<Vec<Core>, Stop>
    ensures { Passes (λ v. map tree v.items) result (indices_fitted span (map tree es.items) xs.now) }
{
    let mut all = Vec::with_capacity(alloc, es.len())?;
    let mut i = 0usize;
    for e in es {
        if i >= xs.len() {
            return Ok(all);
        }
        all.push(index_fitted(alloc, span, e, xs[i])?)?;
        i += 1;
    }
    Ok(all)
}

/// An access with its typed array and indices. TypeMismatch at what is no array, at the access where it has more or fewer indices than
/// the array has dimensions, or at an index; LeftOut at the access where an index is a set.
#[inline(never)]
#[tactic(auto, unfolding(mz_check_meaning::specs::Arrays::accessed))]
pub fn accessed(alloc: Global, span: Span, e: Core, es: Vec<Core>) -> Result<Core, Stop>
    ensures { Passes tree result (accessed span (tree e) (map tree es.items)) }
{
    if is_scalar(type_of(&e)) {
        return Err(mismatch(place_of(&e)));
    }
    if es.len() != dims_of(type_of(&e)).len() {
        return Err(mismatch(span));
    }
    let var = some_var(&es);
    let indices = indices_fitted(alloc, span, es, dims_of(type_of(&e)))?;
    let ty = allowed_at(span, made_var(var, element_of(alloc, type_of(&e))))?;
    Ok(make_access(alloc, span, ty, e, indices)?)
}
