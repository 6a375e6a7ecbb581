// Values that may be elements of an array: truth values, integers, identifiers, sets, and what is absent.

ghost use Rattle.std.specs.Prelude.{◌≡◌, map};
ghost use Rattle.mz_base.specs.Faults.{fault_at};
ghost use Rattle.mz_base.specs.declared.stop.Stop.TheVariants as stop;
ghost use Rattle.mz_base.specs.declared.kind.Kind.TheVariants as kind;
ghost use Rattle.mz_core.specs.Types.{plain_type};
ghost use Rattle.mz_core.specs.TreeViews.{tree};
ghost use Rattle.mz_tree.specs.Data.{value, values};
ghost use Rattle.mz_check_meaning.specs.Tests.{each};
ghost use Rattle.mz_check_meaning.specs.Coerced.{absent_type};
ghost use Rattle.mz_check_meaning.specs.Passes.{Passes};
ghost use Rattle.mz_check_context.specs.Known.{known};
ghost use Rattle.mz_check_data.specs.Datum.{name_tree, one_tree, range_tree, set_tree, plain_tree};
ghost use Rattle.mz_check_data.specs.StepsArrays.{set_of};

use mz_base::{Kind, Span, Stop};
use mz_check_calls::row_node;
use mz_check_context::Context;
use mz_check_forms::{
    make_absent, make_bool, make_case, make_enum_set, make_int, refusal, scalar, set_literal,
};
use mz_check_meaning::Meaning;
use mz_core::{Base, Core, TypeInst};
use mz_tree::Datum;
use std::alloc::Global;

/// The refusal of a value that doesn't fit.
pub(crate) fn misfit(span: Span) -> Stop
    ensures { result ≡ stop.Refused (fault_at kind.DataForm span) }
{
    refusal(Kind::DataForm, span)
}

/// What an identifier stands for in data: a case, or the set of all cases of an enum. DataForm, where it stands for something else or
/// for nothing.
#[tactic(auto, unfolding(crate::specs::Datum::name_tree))]
fn name_tree(alloc: Global, span: Span, meaning: Option<Meaning>) -> Result<Core, Stop>
    ensures { Passes tree result (name_tree span meaning) }
{
    match meaning {
        Some(Meaning::Case(e, k)) => Ok(make_case(span, scalar(alloc, Base::Enum(e)), e, k)),
        Some(Meaning::Enum(e)) => Ok(make_enum_set(span, scalar(alloc, Base::SetEnum(e)), e)),
        _ => Err(misfit(span)),
    }
}

/// A truth value, an integer or an identifier. DataForm, where it is none.
#[tactic(auto, unfolding(crate::specs::Datum::one_tree, mz_tree::specs::Data::value))]
fn one_tree(alloc: Global, context: &Context<'_>, span: Span, d: &Datum) -> Result<Core, Stop>
    ensures { Passes tree result (one_tree (known context.now).names span (value d.now)) }
{
    match d {
        Datum::Bool(b) => Ok(make_bool(span, scalar(alloc, Base::Bool), *b)),
        Datum::Int(n) => Ok(make_int(span, scalar(alloc, Base::Int), *n)),
        Datum::Ident(name) => name_tree(alloc, span, context.meaning(*name)),
        _ => Err(misfit(span)),
    }
}

/// Each of these.
fn ones(alloc: Global, context: &Context<'_>, span: Span, ds: &[Datum]) -> Result<Vec<Core>, Stop>
    ensures { Passes (λ v. map tree v.items) result (each (one_tree (known context.now).names span) (map value ds.now)) }
{
    let mut all = Vec::new(alloc);
    for d in ds {
        all.push(one_tree(alloc, context, span, d)?)?;
    }
    Ok(all)
}

/// A range.
#[tactic(auto, unfolding(crate::specs::Datum::range_tree))]
fn range_tree(
    alloc: Global,
    context: &Context<'_>,
    span: Span,
    low: &Datum,
    high: &Datum,
) -> Result<Core, Stop>
    ensures { Passes tree result (range_tree (known context.now).names span (value low.now) (value high.now)) }
{
    let from = one_tree(alloc, context, span, low)?;
    let to = one_tree(alloc, context, span, high)?;
    let ends = vec![in alloc; from, to]?;
    row_node(alloc, span, "..", ends)
}

/// A set, from the list of its elements.
fn set_of(alloc: Global, context: &Context<'_>, span: Span, ds: &[Datum]) -> Result<Core, Stop>
    ensures { Passes tree result (set_of (known context.now).names span (map value ds.now)) }
{
    let es = ones(alloc, context, span, ds)?;
    set_literal(alloc, span, es)
}

/// A set.
fn set_tree(alloc: Global, context: &Context<'_>, span: Span, ds: &[Datum]) -> Result<Core, Stop>
    ensures { Passes tree result (set_tree (known context.now).names span (values (map value ds.now))) }
{
    set_of(alloc, context, span, ds)
}

/// The type of `<>`.
#[tactic(auto, unfolding(mz_core::specs::Types::plain_type))]
fn absent_type(alloc: Global) -> TypeInst
    ensures { plain_type result ≡ absent_type }
{
    TypeInst {
        var: false,
        opt: true,
        base: Base::Bottom,
        dims: Vec::new(alloc),
    }
}

/// A value that may be an element of an array. DataForm, where it is an array itself, and where a name in it fits nothing.
#[tactic(auto, unfolding(crate::specs::Datum::plain_tree, crate::specs::Datum::one_tree, mz_tree::specs::Data::value))]
pub(crate) fn plain_tree(
    alloc: Global,
    context: &Context<'_>,
    span: Span,
    d: &Datum,
) -> Result<Core, Stop>
    ensures { Passes tree result (plain_tree (known context.now).names span (value d.now)) }
{
    match d {
        Datum::Absent => Ok(make_absent(span, absent_type(alloc))),
        Datum::Range(low, high) => range_tree(alloc, context, span, low, high),
        Datum::Set(es) => set_tree(alloc, context, span, es.as_slice()),
        Datum::Bool(_) => one_tree(alloc, context, span, d),
        Datum::Int(_) => one_tree(alloc, context, span, d),
        Datum::Ident(_) => one_tree(alloc, context, span, d),
        Datum::Array(_) => Err(misfit(span)),
        Datum::Rows(_) => Err(misfit(span)),
        Datum::ArrayNd(_, _) => Err(misfit(span)),
    }
}
