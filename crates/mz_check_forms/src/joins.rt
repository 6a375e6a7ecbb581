// The least type above several expressions.

ghost use Rattle.std.specs.Prelude.{◌≡◌, Some, true, map};
ghost use Rattle.mz_core.specs.Types.{plain_type};
ghost use Rattle.mz_core.specs.Join.{join};
ghost use Rattle.mz_core.specs.TreeViews.{tree};
ghost use Rattle.mz_check_meaning.specs.Tests.{loop};
ghost use Rattle.mz_check_meaning.specs.Coerced.{bottom_type};
ghost use Rattle.mz_check_meaning.specs.Arrays.{join_next, element_next, elements_join, all_in, member_next};
ghost use Rattle.mz_check_meaning.specs.Passes.{Passes};

use crate::kinds::{is_scalar, mismatch, scalar, typed_as};
use crate::{place_of, type_of};
use mz_base::Stop;
use mz_core::{Base, Core, TypeInst, below, copy_type, join_types};
use std::alloc::Global;

/// Whether the first type is the join of the two. Takes no memory.
fn is_above(t: &TypeInst, u: &TypeInst) -> bool
    ensures { result ≡ true → join (plain_type t.now) (plain_type u.now) ≡ Some (plain_type t.now) }
{
    below(u, t)
}

/// The join of a type with an expression's. TypeMismatch at the expression, where there is none. Takes no memory where the type is above
/// the expression's.
#[tactic(auto, unfolding(mz_check_meaning::specs::Arrays::join_next))]
pub fn join_next(alloc: Global, t: TypeInst, e: &Core) -> Result<TypeInst, Stop>
    ensures { Passes plain_type result (join_next (plain_type t) (tree e.now)) }
{
    if is_above(&t, type_of(e)) {
        return Ok(t);
    }
    match join_types(alloc, &t, type_of(e))? {
        None => Err(mismatch(place_of(e))),
        Some(u) => Ok(u),
    }
}

fn element_next(alloc: Global, t: TypeInst, e: &Core) -> Result<TypeInst, Stop>
    ensures { Passes plain_type result (element_next (plain_type t) (tree e.now)) }
{
    if !is_scalar(type_of(e)) {
        return Err(mismatch(place_of(e)));
    }
    join_next(alloc, t, e)
}

/// The join of a type with those of an array's elements. TypeMismatch at the first that is an array or doesn't fit those before it.
fn elements_above(alloc: Global, start: TypeInst, es: &[Core]) -> Result<TypeInst, Stop>
    ensures { Passes plain_type result (loop element_next (plain_type start) (map tree es.now)) }
{
    let mut t = start;
    for e in es {
        t = element_next(alloc, t, e)?;
    }
    Ok(t)
}

/// The join of an array's elements. TypeMismatch at the first that is an array or doesn't fit those before it.
pub fn elements_join(alloc: Global, es: &[Core]) -> Result<TypeInst, Stop>
    ensures { Passes plain_type result (elements_join (map tree es.now)) }
{
    elements_above(alloc, scalar(alloc, Base::Bottom), es)
}

/// The join of the elements of all rows, from the first row on.
fn lines_join(alloc: Global, lines: &[Vec<Core>]) -> Result<TypeInst, Stop>
    ensures { Passes plain_type result (loop (loop element_next) bottom_type (map (λ r. map tree r.items) lines.now)) }
{
    let mut t = scalar(alloc, Base::Bottom);
    for line in lines {
        t = elements_above(alloc, t, line)?;
    }
    Ok(t)
}

/// The join of the elements of all rows. TypeMismatch at the first that is an array or doesn't fit those before it.
pub fn rows_join(alloc: Global, lines: &[Vec<Core>]) -> Result<TypeInst, Stop>
    ensures { Passes plain_type result (elements_join (all_in (map (λ r. map tree r.items) lines.now))) }
{
    lines_join(alloc, lines)
}

fn member_next(alloc: Global, t: TypeInst, e: &Core) -> Result<TypeInst, Stop>
    ensures { Passes plain_type result (member_next (plain_type t) (tree e.now)) }
{
    let int = typed_as(alloc, e, Base::Int);
    if !below(type_of(e), &int) {
        return Err(mismatch(place_of(e)));
    }
    join_next(alloc, t, e)
}

/// The join of a set's elements. TypeMismatch at the first that isn't below int, par or var.
pub fn members_join(alloc: Global, es: &[Core]) -> Result<TypeInst, Stop>
    ensures { Passes plain_type result (loop member_next bottom_type (map tree es.now)) }
{
    let mut t = scalar(alloc, Base::Bottom);
    for e in es {
        t = member_next(alloc, t, e)?;
    }
    Ok(t)
}

/// The join of the first branch's type with those of the others. TypeMismatch at the first that doesn't fit those before it.
pub fn rest_join(alloc: Global, first: &TypeInst, es: &[Core]) -> Result<TypeInst, Stop>
    ensures { Passes plain_type result (loop join_next (plain_type first.now) (map tree es.now)) }
{
    let mut t = copy_type(alloc, first)?;
    for e in es {
        t = join_next(alloc, t, e)?;
    }
    Ok(t)
}
