// Calls as nodes.

ghost use Rattle.std.specs.Prelude.{◌≡◌, ◌<◌, length, map, IfOk};
ghost use Rattle.mz_core.specs.Types.{plain_type};
ghost use Rattle.mz_core.specs.Tree.{type_of};
ghost use Rattle.mz_core.specs.TreeViews.{tree};
ghost use Rattle.mz_check_meaning.specs.Calls.{called_node, call_node, applied, row_of, row_node};
ghost use Rattle.mz_check_meaning.specs.Passes.{Passes};
ghost use Rattle.mz_check_context.specs.Known.{known};
ghost use Rattle.mz_check_calls.specs.Views.{candidate};
ghost use Rattle.mz_check_calls.specs.Rows.{IsRow};

use crate::best::best;
use crate::candidates::candidates;
use crate::pairs::{Candidate, Candidates};
use crate::rows::with_rows;
use mz_base::{Memory, Name, Span, Stop};
use mz_builtin::fitting;
use mz_check_context::Context;
use mz_check_forms::{all_coerced, make_builtin, make_call, type_of};
use mz_check_meaning::Callee;
use mz_core::{Core, Signature, TypeInst, copy_type};
use std::alloc::Global;

fn called_node(span: Span, ty: TypeInst, callee: Callee, args: Vec<Core>) -> Core
    ensures { tree result ≡ called_node span (plain_type ty) callee (map tree args.items) }
{
    match callee {
        Callee::Function(function) => make_call(span, ty, function, args),
        Callee::Row(row) => make_builtin(span, ty, row, args),
    }
}

/// The call of a candidate, with its arguments coerced to its parameters.
#[tactic(auto, unfolding(mz_check_meaning::specs::Calls::call_node, mz_core::specs::Types::plain_signature))]
fn call_node(alloc: Global, span: Span, es: Vec<Core>, c: Candidate) -> Result<Core, Memory>
    ensures { IfOk result (λ e. tree e ≡ call_node span (map tree es.items) (candidate c)) }
{
    let Candidate { callee, signature } = c;
    let Signature { params, result } = signature;
    let args = all_coerced(alloc, es, params.as_slice())?;
    Ok(called_node(span, result, callee, args))
}

/// The types of expressions.
fn types_of(alloc: Global, es: &[Core]) -> Result<Vec<TypeInst>, Memory>
    ensures { IfOk result (λ v. map plain_type v.items ≡ map type_of (map tree es.now)) }
{
    let mut types = Vec::with_capacity(alloc, es.len())?;
    for e in es {
        types.push(copy_type(alloc, type_of(e))?)?;
    }
    Ok(types)
}

/// The call of a name with these arguments. NoOverload, Ambiguous or LeftOut at the call, where there is no best candidate; or the
/// fault of the first function of the name whose types are refused.
#[inline(never)]
#[tactic(auto, unfolding(mz_check_meaning::specs::Calls::applied))]
pub fn applied(
    alloc: Global,
    context: &Context<'_>,
    span: Span,
    name: Name,
    es: Vec<Core>,
) -> Result<Core, Stop>
    requires { name < length (known context.now).texts }
    ensures { Passes tree result (applied (known context.now) span name (map tree es.items)) }
{
    let types = types_of(alloc, es.as_slice())?;
    let args = types.as_slice();
    let all = candidates(alloc, context, span, name, args)?;
    let c = best(alloc, span, context.text(name), args, all)?;
    Ok(call_node(alloc, span, es, c)?)
}

/// The row of an operator, or of a call that the language makes, by its name in the table.
#[tactic(auto, unfolding(mz_check_meaning::specs::Calls::row_of))]
fn row_found(alloc: Global, span: Span, name: &str, args: &[TypeInst]) -> Result<Candidate, Stop>
    ensures { Passes candidate result (row_of span name.now (map plain_type args.now)) }
{
    let rows = fitting(alloc, name, args)?;
    let all = with_rows(Candidates::new(alloc), rows)?;
    best(alloc, span, name, args, all)
}

/// The same, and that it is one of the rows.
pub(crate) fn row_of(
    alloc: Global,
    span: Span,
    name: &str,
    args: &[TypeInst],
) -> Result<Candidate, Stop>
    ensures row { IfOk result (λ c. IsRow c.callee) }
    ensures passes { Passes candidate result (row_of span name.now (map plain_type args.now)) }
{
    row_found(alloc, span, name, args)
}

/// The call of a row with these arguments, by its name in the table. NoOverload, Ambiguous or LeftOut at the call, where there is no
/// best row.
#[tactic(auto, unfolding(mz_check_meaning::specs::Calls::row_node))]
pub fn row_node(alloc: Global, span: Span, name: &str, es: Vec<Core>) -> Result<Core, Stop>
    ensures { Passes tree result (row_node span name.now (map tree es.items)) }
{
    let types = types_of(alloc, es.as_slice())?;
    let c = row_found(alloc, span, name, types.as_slice())?;
    Ok(call_node(alloc, span, es, c)?)
}
