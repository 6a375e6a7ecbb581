// The candidates of a call by its name.

ghost use Rattle.std.specs.Prelude.{◌<◌, length, map};
ghost use Rattle.mz_core.specs.Types.{plain_type};
ghost use Rattle.mz_check_meaning.specs.Tests.{one_more, each};
ghost use Rattle.mz_check_meaning.specs.Calls.{function_candidate, candidates};
ghost use Rattle.mz_check_meaning.specs.Passes.{Passes};
ghost use Rattle.mz_check_context.specs.Known.{known};

use crate::pairs::Candidates;
use crate::rows::{rows_for, with_rows};
use mz_base::{Name, Span, Stop};
use mz_check_context::{Context, signature_of};
use mz_check_meaning::Callee;
use mz_core::TypeInst;
use std::alloc::Global;

/// One more function as a candidate.
fn with_function(
    alloc: Global,
    context: &Context<'_>,
    span: Span,
    before: Candidates,
    function: u64,
) -> Result<Candidates, Stop>
    ensures { Passes (λ all. all) result (one_more (function_candidate (known context.now) span) before function) }
{
    let heading = context.heading_of(span, function)?;
    let signature = signature_of(alloc, heading)?;
    Ok(before.with(Callee::Function(function), signature)?)
}

/// These functions as candidates. The fault of the first whose types are refused.
fn functions_with(
    alloc: Global,
    context: &Context<'_>,
    span: Span,
    numbers: &[u64],
) -> Result<Candidates, Stop>
    ensures { Passes (λ all. all) result (each (function_candidate (known context.now) span) numbers.now) }
{
    let mut all = Candidates::new(alloc);
    for function in numbers {
        all = with_function(alloc, context, span, all, *function)?;
    }
    Ok(all)
}

/// The functions of the model that have parameters and this name, and the rows of the library that accept arguments of these types.
#[tactic(auto, unfolding(mz_check_meaning::specs::Calls::candidates))]
pub(crate) fn candidates(
    alloc: Global,
    context: &Context<'_>,
    span: Span,
    name: Name,
    args: &[TypeInst],
) -> Result<Candidates, Stop>
    requires { name < length (known context.now).texts }
    ensures { Passes (λ all. all) result (candidates (known context.now) span name (map plain_type args.now)) }
{
    let functions = functions_with(alloc, context, span, context.numbers(name))?;
    let rows = rows_for(alloc, context.has_function(name), context.text(name), args)?;
    Ok(with_rows(functions, rows)?)
}
