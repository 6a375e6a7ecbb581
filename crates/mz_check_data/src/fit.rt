// A value of a data file for a declaration of some type.

ghost use Rattle.std.specs.Prelude.{◌≡◌, map, IfOk};
ghost use Rattle.mz_core.specs.Types.{plain_type};
ghost use Rattle.mz_core.specs.Tree.{Tree};
ghost use Rattle.mz_core.specs.TreeViews.{tree};
ghost use Rattle.mz_tree.specs.Data.{value, values, given};
ghost use Rattle.mz_check_meaning.specs.Tests.{Test};
ghost use Rattle.mz_check_meaning.specs.Passes.{Passes};
ghost use Rattle.mz_check_context.specs.Known.{known};
ghost use Rattle.mz_check_data.specs.Datum.{value_tree, wanted, integer, is_empty_range, are_nothing, is_empty_list, type_for, fitted_value, as_data_form, typed_value};
ghost use Rattle.mz_check_data.specs.StepsFit.{list_wanted, rows_wanted};

use crate::arrays::{list_tree, rows_tree, shaped_tree};
use crate::plain::{misfit, plain_tree};
use mz_base::{Memory, Span, Stop};
use mz_check_context::Context;
use mz_check_forms::{fitted, is_scalar, list_of};
use mz_core::{Core, Ix, TypeInst, copy_type, make_type};
use mz_tree::{DataItem, Datum};
use std::alloc::Global;

/// A value for a declaration of this type, before it is coerced.
#[tactic(auto, unfolding(crate::specs::Datum::value_tree, mz_tree::specs::Data::value))]
fn value_tree(
    alloc: Global,
    context: &Context<'_>,
    span: Span,
    t: &TypeInst,
    d: &Datum,
) -> Result<Core, Stop>
    ensures { Passes tree result (value_tree (known context.now).names span (plain_type t.now) (value d.now)) }
{
    match d {
        Datum::Array(es) => list_tree(alloc, context, span, es.as_slice()),
        Datum::Rows(rows) => rows_tree(alloc, context, span, rows.as_slice()),
        Datum::ArrayNd(sets, es) => shaped_tree(
            alloc,
            context,
            span,
            t,
            sets.as_slice(),
            es.as_slice(),
        ),
        Datum::Bool(_) => plain_tree(alloc, context, span, d),
        Datum::Int(_) => plain_tree(alloc, context, span, d),
        Datum::Ident(_) => plain_tree(alloc, context, span, d),
        Datum::Absent => plain_tree(alloc, context, span, d),
        Datum::Range(_, _) => plain_tree(alloc, context, span, d),
        Datum::Set(_) => plain_tree(alloc, context, span, d),
    }
}

/// The type that a list is to be below.
fn list_wanted(alloc: Global, t: &TypeInst) -> Result<TypeInst, Memory>
    ensures { IfOk result (λ x. plain_type x ≡ list_wanted (plain_type t.now)) }
{
    if is_scalar(t) {
        copy_type(alloc, t)
    } else {
        list_of(alloc, t)
    }
}

/// The type that rows are to be below.
#[tactic(auto, unfolding(mz_core::specs::Types::plain_type))]
fn rows_wanted(alloc: Global, t: &TypeInst) -> Result<TypeInst, Memory>
    ensures { IfOk result (λ x. plain_type x ≡ rows_wanted (plain_type t.now)) }
{
    if t.dims.len() == 2 {
        make_type(alloc, t.var, t.opt, t.base, &[Ix::Int, Ix::Int])
    } else {
        copy_type(alloc, t)
    }
}

/// The type that a value is to be below, for a declaration of this type.
#[tactic(auto, unfolding(crate::specs::Datum::wanted, mz_tree::specs::Data::value))]
fn wanted(alloc: Global, t: &TypeInst, d: &Datum) -> Result<TypeInst, Memory>
    ensures { IfOk result (λ x. plain_type x ≡ wanted (plain_type t.now) (value d.now)) }
{
    match d {
        Datum::Array(_) => list_wanted(alloc, t),
        Datum::Rows(_) => rows_wanted(alloc, t),
        Datum::ArrayNd(_, _) => copy_type(alloc, t),
        Datum::Bool(_) => copy_type(alloc, t),
        Datum::Int(_) => copy_type(alloc, t),
        Datum::Ident(_) => copy_type(alloc, t),
        Datum::Absent => copy_type(alloc, t),
        Datum::Range(_, _) => copy_type(alloc, t),
        Datum::Set(_) => copy_type(alloc, t),
    }
}

/// The integer that this is.
#[tactic(auto, unfolding(mz_tree::specs::Data::value))]
fn integer(d: &Datum) -> Option<i64>
    ensures { result ≡ integer (value d.now) }
{
    if let Datum::Int(n) = d {
        Some(*n)
    } else {
        None
    }
}

/// Whether this is a range of integers without a member.
#[tactic(auto, unfolding(mz_tree::specs::Data::value))]
fn is_empty_range(d: &Datum) -> bool
    ensures { result ≡ is_empty_range (value d.now) }
{
    let Datum::Range(low, high) = d else {
        return false;
    };
    match (integer(low), integer(high)) {
        (Some(m), Some(n)) => n < m,
        _ => false,
    }
}

/// Whether these index sets are such a range alone, and there are no elements.
#[tactic(auto, using(crate::proofs::Reading::other_sets, crate::proofs::Reading::some_elements))]
fn are_nothing(sets: &[Datum], es: &[Datum]) -> bool
    ensures { result ≡ are_nothing (values (map value sets.now)) (values (map value es.now)) }
{
    if sets.len() != 1 {
        return false;
    }
    if !es.is_empty() {
        return false;
    }
    is_empty_range(&sets[0])
}

/// Whether this is `array1d(1..0, [])`.
#[tactic(auto, unfolding(mz_tree::specs::Data::value))]
fn is_empty_list(d: &Datum) -> bool
    ensures { result ≡ is_empty_list (value d.now) }
{
    let Datum::ArrayNd(sets, es) = d else {
        return false;
    };
    are_nothing(sets.as_slice(), es.as_slice())
}

/// The declared type, for this value.
#[tactic(auto, unfolding(mz_core::specs::Types::plain_type))]
fn type_for(alloc: Global, t: &TypeInst, d: &Datum) -> Result<TypeInst, Memory>
    ensures { IfOk result (λ x. plain_type x ≡ type_for (plain_type t.now) (value d.now)) }
{
    if is_empty_list(d) && t.dims.len() == 1 {
        list_of(alloc, t)
    } else {
        copy_type(alloc, t)
    }
}

/// A value, coerced to a type, or the fault that stops its typing.
fn fitted_value(
    alloc: Global,
    context: &Context<'_>,
    span: Span,
    t: &TypeInst,
    d: &Datum,
) -> Result<Core, Stop>
    ensures { Passes tree result (fitted_value (known context.now).names span (plain_type t.now) (value d.now)) }
{
    let e = value_tree(alloc, context, span, t, d)?;
    let u = wanted(alloc, t, d)?;
    fitted(alloc, e, &u)
}

/// A typed value; whatever stops its typing is DataForm at this place.
fn as_data_form(span: Span, r: Result<Core, Stop>) -> Result<Core, Stop>
    ensures { (test : Test Tree) → Passes tree r test → Passes tree result (as_data_form span test) }
{
    match r {
        Ok(e) => Ok(e),
        Err(Stop::Refused(_)) => Err(misfit(span)),
        Err(Stop::Memory) => Err(Stop::Memory),
    }
}

/// A value, coerced to the type of its declaration, or the fault that stops its typing.
fn declared_value(
    alloc: Global,
    context: &Context<'_>,
    span: Span,
    t: &TypeInst,
    d: &Datum,
) -> Result<Core, Stop>
    ensures { Passes tree result (fitted_value (known context.now).names span (type_for (plain_type t.now) (value d.now)) (value d.now)) }
{
    let u = type_for(alloc, t, d)?;
    fitted_value(alloc, context, span, &u, d)
}

/// The value that an item of the data gives a declaration of this type: the typed tree of what the data writes, all of whose nodes have
/// the value's place, coerced to the type. DataForm at the value, where it doesn't fit the type. A list fits arrays of every shape, so
/// its own type is one of lists; so is that of `array1d(1..0, [])`, which fits arrays of one dimension.
///
/// The time and the memory are those of the value's length.
#[tactic(auto, unfolding(crate::specs::Datum::typed_value))]
pub fn typed_value(
    alloc: Global,
    context: &Context<'_>,
    t: &TypeInst,
    item: &DataItem,
) -> Result<Core, Stop>
    ensures { Passes tree result (typed_value (known context.now).names (plain_type t.now) (given item.now)) }
{
    let v = declared_value(alloc, context, item.at, t, &item.datum);
    as_data_form(item.at, v)
}
