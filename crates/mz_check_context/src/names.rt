// What a name that stands alone is typed to.

ghost use Rattle.std.specs.Prelude.{◌≡◌, IfOk};
ghost use Rattle.mz_core.specs.Types.{plain_type};
ghost use Rattle.mz_core.specs.declared.types.Base.TheVariants as base;
ghost use Rattle.mz_core.specs.Tree.{node, enum_set, case};
ghost use Rattle.mz_core.specs.TreeViews.{tree};
ghost use Rattle.mz_check_meaning.specs.Coerced.{scalar};
ghost use Rattle.mz_check_meaning.specs.Names.{seen_type, meant, named, function_meant, bare_call};
ghost use Rattle.mz_check_meaning.specs.Passes.{Passes};
ghost use Rattle.mz_check_context.specs.Known.{known};
ghost use Rattle.mz_check_context.specs.Nodes.{declared_node, function_node};

use crate::context::Context;
use crate::heading::type_in;
use crate::scope::Scope;
use mz_base::{Fault, Kind, Memory, Name, Span, Stop};
use mz_check_forms::{make_call, make_case, make_enum_set, make_slot};
use mz_check_meaning::Meaning;
use mz_core::{Base, Core, TypeInst, copy_type, make_type};
use std::alloc::Global;

/// A declared type, par where values of declarations are known.
#[tactic(auto, unfolding(mz_core::specs::Types::plain_type))]
fn seen_type(alloc: Global, output: bool, t: &TypeInst) -> Result<TypeInst, Memory>
    ensures { IfOk result (λ u. plain_type u ≡ seen_type output (plain_type t.now)) }
{
    if output {
        make_type(alloc, false, t.opt, t.base, &t.dims)
    } else {
        copy_type(alloc, t)
    }
}

/// A declaration's name.
fn declared_node(
    alloc: Global,
    context: &Context<'_>,
    output: bool,
    span: Span,
    decl: u64,
) -> Result<Core, Stop>
    ensures { Passes tree result (declared_node (known context.now) output span decl) }
{
    let declared = context.type_of_decl(span, decl)?;
    let ty = seen_type(alloc, output, type_in(declared))?;
    Ok(make_slot(span, ty, decl))
}

/// The call of a function without parameters.
fn function_node(
    alloc: Global,
    context: &Context<'_>,
    span: Span,
    function: u64,
) -> Result<Core, Stop>
    ensures { Passes tree result (function_node (known context.now) span function) }
{
    let heading = context.heading_of(span, function)?;
    let ty = copy_type(alloc, type_in(&heading.result))?;
    Ok(make_call(span, ty, function, Vec::new(alloc)))
}

/// The set of all cases of an enum.
fn enum_node(alloc: Global, span: Span, of: u64) -> Result<Core, Memory>
    ensures { IfOk result (λ e. tree e ≡ node span (scalar (base.SetEnum of)) (enum_set of)) }
{
    let ty = make_type(alloc, false, false, Base::SetEnum(of), &[])?;
    Ok(make_enum_set(span, ty, of))
}

/// A case of an enum.
fn case_node(alloc: Global, span: Span, of: u64, number: i64) -> Result<Core, Memory>
    ensures { IfOk result (λ e. tree e ≡ node span (scalar (base.Enum of)) (case of number)) }
{
    let ty = make_type(alloc, false, false, Base::Enum(of), &[])?;
    Ok(make_case(span, ty, of, number))
}

/// What a top-level name is, by what it stands for. UnknownName, where it stands for nothing.
#[tactic(auto, unfolding(mz_check_meaning::specs::Names::meant))]
fn meant(
    alloc: Global,
    context: &Context<'_>,
    output: bool,
    span: Span,
    meaning: Option<Meaning>,
) -> Result<Core, Stop>
    ensures { Passes tree result (meant (known context.now) output span meaning) }
{
    match meaning {
        None => Err(Stop::Refused(Fault::at(Kind::UnknownName, span))),
        Some(Meaning::Decl(d)) => declared_node(alloc, context, output, span, d),
        Some(Meaning::Function(f)) => function_node(alloc, context, span, f),
        Some(Meaning::Enum(e)) => Ok(enum_node(alloc, span, e)?),
        Some(Meaning::Case(e, k)) => Ok(case_node(alloc, span, e, k)?),
    }
}

/// A name as an expression. UnknownName at it, where it is neither a local name nor one of the shared space; or the fault of the
/// type of what it means.
#[inline(never)]
#[tactic(auto, unfolding(mz_check_meaning::specs::Names::named))]
pub fn named(
    alloc: Global,
    context: &Context<'_>,
    scope: &Scope,
    span: Span,
    name: Name,
) -> Result<Core, Stop>
    ensures { Passes tree result (named (known context.now) scope.now span name) }
{
    match scope.local_in(name) {
        Some(l) => {
            let ty = copy_type(alloc, &l.ty)?;
            Ok(make_slot(span, ty, l.slot))
        }
        None => meant(alloc, context, scope.output(), span, context.meaning(name)),
    }
}

fn function_meant(
    alloc: Global,
    context: &Context<'_>,
    span: Span,
    meaning: Option<Meaning>,
) -> Result<Core, Stop>
    ensures { Passes tree result (function_meant (known context.now) span meaning) }
{
    match meaning {
        Some(Meaning::Function(f)) => function_node(alloc, context, span, f),
        _ => Err(Stop::Refused(Fault::at(Kind::NoOverload, span))),
    }
}

/// `f()`. NoOverload at it, where the name doesn't mean a function without parameters.
#[inline(never)]
#[tactic(auto, unfolding(mz_check_meaning::specs::Names::bare_call))]
pub fn bare_call(
    alloc: Global,
    context: &Context<'_>,
    scope: &Scope,
    span: Span,
    name: Name,
) -> Result<Core, Stop>
    ensures { Passes tree result (bare_call (known context.now) scope.now span name) }
{
    match scope.local_in(name) {
        Some(_) => Err(Stop::Refused(Fault::at(Kind::NoOverload, span))),
        None => function_meant(alloc, context, span, context.meaning(name)),
    }
}
