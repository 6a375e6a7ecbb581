// Coercions round expressions, and the tests that an expression fits.

ghost use Rattle.std.specs.Prelude.{◌≡◌, IfOk, map};
ghost use Rattle.mz_core.specs.Types.{plain_type};
ghost use Rattle.mz_core.specs.Paths.{path_links};
ghost use Rattle.mz_core.specs.TreeViews.{tree};
ghost use Rattle.mz_check_meaning.specs.Coerced.{wrapped, coercions_to, coerced, all_coerced, fitted, condition, allowed_at};
ghost use Rattle.mz_check_meaning.specs.Arrays.{each_to};
ghost use Rattle.mz_check_meaning.specs.Passes.{Passes};

use crate::kinds::{is_allowed, mismatch, typed_as};
use crate::{make_coercion, place_of, type_of};
use mz_base::{Memory, Span, Stop};
use mz_core::{Base, Coercion, Core, TypeInst, below, coercions, copy_type};
use std::alloc::Global;

/// The expression under these coercions, one round the other, each at this place.
#[tactic(auto, unfolding(mz_check_meaning::specs::Coerced::wrapped))]
fn wrapped(
    alloc: Global,
    span: Span,
    e: Core,
    links: &[(Coercion, TypeInst)],
) -> Result<Core, Memory>
    ensures { IfOk result (λ x. tree x ≡ wrapped span (tree e) (path_links links.now)) }
{
    match links {
        [] => Ok(e),
        [l, rest @ ..] => {
            let ty = copy_type(alloc, &l.1)?;
            let outer = make_coercion(alloc, span, ty, l.0, e)?;
            wrapped(alloc, span, outer, rest)
        }
    }
}

/// The coercions that lead from a type to one above it, each with the type that it leads to; none where it isn't above it.
#[tactic(auto, unfolding(mz_check_meaning::specs::Coerced::coercions_to))]
pub fn coercions_to(
    alloc: Global,
    t: &TypeInst,
    u: &TypeInst,
) -> Result<Vec<(Coercion, TypeInst)>, Memory>
    ensures { IfOk result (λ v. path_links v.items ≡ coercions_to (plain_type t.now) (plain_type u.now)) }
{
    if below(t, u) {
        coercions(alloc, t, u)
    } else {
        Ok(Vec::new(alloc))
    }
}

/// The expression, coerced to a type that is above its own.
#[tactic(auto, unfolding(mz_check_meaning::specs::Coerced::coerced))]
pub fn coerced(alloc: Global, e: Core, t: &TypeInst) -> Result<Core, Memory>
    ensures { IfOk result (λ x. tree x ≡ coerced (tree e) (plain_type t.now)) }
{
    let links = coercions_to(alloc, type_of(&e), t)?;
    let span = place_of(&e);
    wrapped(alloc, span, e, &links)
}

/// Each expression, coerced to this type.
pub fn each_to(alloc: Global, t: &TypeInst, es: Vec<Core>) -> Result<Vec<Core>, Memory>
    ensures { IfOk result (λ v. map tree v.items ≡ each_to (plain_type t.now) (map tree es.items)) }
{
    let mut all = Vec::with_capacity(alloc, es.len())?;
    for e in es {
        all.push(coerced(alloc, e, t)?)?;
    }
    Ok(all)
}

/// Each expression, coerced to its own type; those that have none stay as they are.
#[tactic(auto, unfolding(mz_check_meaning::specs::Coerced::all_coerced))]
pub fn all_coerced(alloc: Global, es: Vec<Core>, ts: &[TypeInst]) -> Result<Vec<Core>, Memory>
    ensures { IfOk result (λ v. map tree v.items ≡ all_coerced (map tree es.items) (map plain_type ts.now)) }
{
    let mut all = Vec::with_capacity(alloc, es.len())?;
    let mut i = 0usize;
    for e in es {
        if i < ts.len() {
            all.push(coerced(alloc, e, &ts[i])?)?;
            i += 1;
        } else {
            all.push(e)?;
        }
    }
    Ok(all)
}

/// The expression, coerced to a type that its place needs. TypeMismatch at the expression, where its type isn't below it.
#[inline(never)]
#[tactic(auto, unfolding(mz_check_meaning::specs::Coerced::fitted))]
pub fn fitted(alloc: Global, e: Core, t: &TypeInst) -> Result<Core, Stop>
    ensures { Passes tree result (fitted (tree e) (plain_type t.now)) }
{
    if !below(type_of(&e), t) {
        return Err(mismatch(place_of(&e)));
    }
    Ok(coerced(alloc, e, t)?)
}

/// A condition: the expression, coerced to a Boolean, par or var as it is. TypeMismatch at it, where it is none.
#[tactic(auto, unfolding(mz_check_meaning::specs::Coerced::condition))]
pub fn condition(alloc: Global, e: Core) -> Result<Core, Stop>
    ensures { Passes tree result (condition (tree e)) }
{
    let t = typed_as(alloc, &e, Base::Bool);
    fitted(alloc, e, &t)
}

/// The type, where there is such a type; else TypeMismatch at this place.
#[tactic(auto, unfolding(mz_check_meaning::specs::Coerced::allowed_at))]
pub fn allowed_at(span: Span, t: TypeInst) -> Result<TypeInst, Stop>
    ensures { Passes plain_type result (allowed_at span (plain_type t)) }
{
    if is_allowed(&t) {
        Ok(t)
    } else {
        Err(mismatch(span))
    }
}
