// Lists, rows, and arrays with index sets.

ghost use Rattle.std.specs.Prelude.{◌≡◌, [], ◌∷◌, ◌++◌, map, IfOk};
ghost use Rattle.std.specs.List.{list_all, zip};
ghost use Rattle.mz_core.specs.Types.{plain_type};
ghost use Rattle.mz_core.specs.TreeViews.{tree};
ghost use Rattle.mz_tree.specs.Data.{value, values, lines};
ghost use Rattle.mz_check_meaning.specs.Tests.{each};
ghost use Rattle.mz_check_meaning.specs.Coerced.{list_of};
ghost use Rattle.mz_check_meaning.specs.Calls.{par, row_node};
ghost use Rattle.mz_check_meaning.specs.Passes.{Passes};
ghost use Rattle.mz_check_context.specs.Known.{known};
ghost use Rattle.mz_check_data.specs.Datum.{plain_tree, list_tree, has_length, are_level, rows_tree, index_set_type, index_set_tree, array_call, shaped_tree};
ghost use Rattle.mz_check_data.specs.StepsArrays.{list_with, rows_of, elements_for, shaped_by};

use crate::plain::{misfit, plain_tree};
use mz_base::{Memory, Span, Stop};
use mz_check_calls::row_node;
use mz_check_context::Context;
use mz_check_forms::{dims_of, fitted, listed, scalar, tabled};
use mz_core::{Base, Core, Ix, TypeInst, make_type};
use mz_tree::Datum;
use std::alloc::Global;

/// Each of these values.
fn plains(alloc: Global, context: &Context<'_>, span: Span, ds: &[Datum]) -> Result<Vec<Core>, Stop>
    ensures { Passes (λ v. map tree v.items) result (each (plain_tree (known context.now).names span) (map value ds.now)) }
{
    let mut all = Vec::new(alloc);
    for d in ds {
        all.push(plain_tree(alloc, context, span, d)?)?;
    }
    Ok(all)
}

/// A list, from its elements.
fn list_with(alloc: Global, context: &Context<'_>, span: Span, ds: &[Datum]) -> Result<Core, Stop>
    ensures { Passes tree result (list_with (known context.now).names span (map value ds.now)) }
{
    let es = plains(alloc, context, span, ds)?;
    listed(alloc, span, es)
}

/// A list. DataForm, where an element isn't typed; TypeMismatch, where the elements have no type in common.
pub(crate) fn list_tree(
    alloc: Global,
    context: &Context<'_>,
    span: Span,
    ds: &[Datum],
) -> Result<Core, Stop>
    ensures { Passes tree result (list_tree (known context.now).names span (values (map value ds.now))) }
{
    list_with(alloc, context, span, ds)
}

/// Whether all these rows have this many values.
fn all_have(n: usize, rows: &[Vec<Datum>]) -> bool
    ensures { result ≡ list_all (has_length n) (map (λ r. map value r.items) rows.now) }
{
    for row in rows {
        if row.len() != n {
            return false;
        }
    }
    true
}

/// Whether all rows are of one length.
fn are_level(rows: &[Vec<Datum>]) -> bool
    ensures { result ≡ are_level (map (λ r. map value r.items) rows.now) }
{
    match rows {
        [] => true,
        [row, rows @ ..] => all_have(row.len(), rows),
    }
}

/// The values of each row.
fn each_row(
    alloc: Global,
    context: &Context<'_>,
    span: Span,
    rows: &[Vec<Datum>],
) -> Result<Vec<Vec<Core>>, Stop>
    ensures { Passes (λ v. map (λ r. map tree r.items) v.items) result (each (each (plain_tree (known context.now).names span)) (map (λ r. map value r.items) rows.now)) }
{
    let mut all = Vec::new(alloc);
    for row in rows {
        all.push(plains(alloc, context, span, row.as_slice())?)?;
    }
    Ok(all)
}

/// Rows, from the lists of their values.
fn rows_of(
    alloc: Global,
    context: &Context<'_>,
    span: Span,
    rows: &[Vec<Datum>],
) -> Result<Core, Stop>
    ensures { Passes tree result (rows_of (known context.now).names span (map (λ r. map value r.items) rows.now)) }
{
    if !are_level(rows) {
        return Err(misfit(span));
    }
    let es = each_row(alloc, context, span, rows)?;
    tabled(alloc, span, es)
}

/// Rows. DataForm, where they aren't of one length.
pub(crate) fn rows_tree(
    alloc: Global,
    context: &Context<'_>,
    span: Span,
    rows: &[Vec<Datum>],
) -> Result<Core, Stop>
    ensures { Passes tree result (rows_tree (known context.now).names span (lines (map (λ r. map value r.items) rows.now))) }
{
    rows_of(alloc, context, span, rows)
}

/// The type of the sets that an index of this type may run over.
fn index_set_type(alloc: Global, x: Ix) -> TypeInst
    ensures { plain_type result ≡ index_set_type x }
{
    match x {
        Ix::Int => scalar(alloc, Base::SetInt),
        Ix::Enum(e) => scalar(alloc, Base::SetEnum(e)),
    }
}

/// A set for an index of this type.
#[tactic(auto, unfolding(crate::specs::Datum::index_set_tree))]
fn index_set_tree(
    alloc: Global,
    context: &Context<'_>,
    span: Span,
    d: &Datum,
    x: Ix,
) -> Result<Core, Stop>
    ensures { Passes tree result (index_set_tree (known context.now).names span (value d.now, x)) }
{
    let e = plain_tree(alloc, context, span, d)?;
    fitted(alloc, e, &index_set_type(alloc, x))
}

/// Each of these sets, for its index.
fn index_sets(
    alloc: Global,
    context: &Context<'_>,
    span: Span,
    ds: &[Datum],
    xs: &[Ix],
) -> Result<Vec<Core>, Stop>
    ensures { Passes (λ v. map tree v.items) result (each (index_set_tree (known context.now).names span) (zip (map value ds.now) xs.now)) }
{
    let mut all = Vec::new(alloc);
    let mut i = 0usize;
    for d in ds {
        if i >= xs.len() {
            return Ok(all);
        }
        all.push(index_set_tree(alloc, context, span, d, xs[i])?)?;
        i += 1;
    }
    Ok(all)
}

/// The name of the call that makes an array of this many dimensions.
fn array_call(n: usize) -> &'static str
    ensures { result.now ≡ array_call n }
{
    if n == 1 {
        "array1d"
    } else if n == 2 {
        "array2d"
    } else if n == 3 {
        "array3d"
    } else if n == 4 {
        "array4d"
    } else if n == 5 {
        "array5d"
    } else {
        "array6d"
    }
}

/// The type of par lists with the elements of an array.
#[tactic(auto, unfolding(mz_core::specs::Types::plain_type))]
fn par_list(alloc: Global, t: &TypeInst) -> Result<TypeInst, Memory>
    ensures { IfOk result (λ x. plain_type x ≡ list_of (par (plain_type t.now))) }
{
    make_type(alloc, false, t.opt, t.base, &[Ix::Int])
}

/// The list of an array with index sets, whose elements fit those of the declared type.
fn elements(
    alloc: Global,
    context: &Context<'_>,
    span: Span,
    t: &TypeInst,
    ds: &[Datum],
) -> Result<Core, Stop>
    ensures { Passes tree result (elements_for (known context.now).names span (plain_type t.now) (values (map value ds.now))) }
{
    let e = list_tree(alloc, context, span, ds)?;
    let u = par_list(alloc, t)?;
    fitted(alloc, e, &u)
}

/// An array with these index sets and elements.
fn called(alloc: Global, span: Span, n: usize, sets: Vec<Core>, list: Core) -> Result<Core, Stop>
    ensures { Passes tree result (row_node span (array_call n) (map tree sets.items ++ tree list ∷ [])) }
{
    let mut args = sets;
    args.push(list)?;
    row_node(alloc, span, array_call(n), args)
}

/// An array with index sets, from their list.
fn shaped_by(
    alloc: Global,
    context: &Context<'_>,
    span: Span,
    t: &TypeInst,
    sets: &[Datum],
    ds: &[Datum],
) -> Result<Core, Stop>
    ensures { Passes tree result (shaped_by (known context.now).names span (plain_type t.now) (map value sets.now) (values (map value ds.now))) }
{
    if sets.len() != dims_of(t).len() {
        return Err(misfit(span));
    }
    let indices = index_sets(alloc, context, span, sets, dims_of(t))?;
    let list = elements(alloc, context, span, t, ds)?;
    called(alloc, span, dims_of(t).len(), indices, list)
}

/// An array with index sets, for a declaration of this type. DataForm, where it has more or fewer of them than the type.
pub(crate) fn shaped_tree(
    alloc: Global,
    context: &Context<'_>,
    span: Span,
    t: &TypeInst,
    sets: &[Datum],
    ds: &[Datum],
) -> Result<Core, Stop>
    ensures { Passes tree result (shaped_tree (known context.now).names span (plain_type t.now) (values (map value sets.now)) (values (map value ds.now))) }
{
    shaped_by(alloc, context, span, t, sets, ds)
}
