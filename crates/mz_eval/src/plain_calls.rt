// Calls of functions whose parameters have no declared sets: each argument is bound as it is
// evaluated, and no list of cells or of names is made.

ghost use Rattle.std.specs.Prelude.{◌≡◌, ◌∷◌, [], map, true, IfSome};
ghost use Rattle.mz_core.specs.Program.{function};
ghost use Rattle.mz_core.specs.TreeViews.{tree, decl};
ghost use Rattle.mz_eval_cells.specs.Views.{seen};
ghost use Rattle.mz_symbol.specs.Makes.{GoesOn, Means};
ghost use Rattle.mz_eval.specs.Levels.{in_scope};
ghost use Rattle.mz_eval.specs.PlainCalls.{IsPlain, ArePlain, IsPlainAt, called_on_all, call_ends, call_goes_on};

use crate::calls::{eval_called, function_at};
use crate::forms::{eval_expression, eval_parts};
use crate::types::{Call, CallScope, Level};
use crate::weights::{lengths_of, more_length, weighed};
use mz_base::{Span, Stop};
use mz_core::{Core, CoreDecl, CoreFunction, Program};
use mz_eval_cells::Known;
use mz_eval_guards::surely;
use mz_eval_names::{both_hold, plain_suits};
use mz_eval_scopes::Scope;
use mz_symbol::Run;

// whether a parameter has no declared set
fn is_plain(d: &CoreDecl) -> bool
    ensures { result ≡ true → IsPlain (decl d.now) }
{
    d.ty.index.is_empty() && d.ty.set.is_none()
}

fn are_plain(all: &[CoreDecl]) -> bool
    ensures { result ≡ true → ArePlain (map decl all.now) }
{
    match all {
        [] => true,
        [first, others @ ..] => if is_plain(first) {
            are_plain(others)
        } else {
            false
        },
    }
}

// the function with this number, where its parameters have no declared sets
pub(crate) fn plain_function(program: &Program, f: u64) -> Option<&CoreFunction>
    ensures { IfSome result (λ x. IsPlainAt (map function program.now.functions.items) f (function x.now)) }
{
    let x = function_at(program, f)?;
    if are_plain(&x.params) { Some(x) } else { None }
}

// A call of such a function.
#[cycle(forms)]
pub(crate) fn eval_plain_call(
    level: &Level,
    f: &CoreFunction,
    all: &[Core],
    at: Span,
    scope: &Scope,
    run: &mut Run,
) -> Result<Known, Stop>
    ensures goes { GoesOn run.old run.new }
    ensures means { Means seen result run.old run.new (λ r. in_scope r level.now scope.now (λ w go ctx env. called_on_all w go ctx (function f.now) at (map tree all.now) env)) }
{
    let call = Call {
        function: &*f,
        at,
        scope: &*scope,
    };
    let top = Scope::Top;
    let bound = CallScope {
        scope: &top,
        elements: 0,
        holds: surely(),
    };
    eval_bound(level, &call, &f.params, all, &bound, run)
}

// The arguments that are left; the parameters so far are bound.
#[cycle(forms)]
#[tactic(auto, using(crate::proofs::PlainCalls::called_last, crate::proofs::PlainCalls::no_decls, crate::proofs::PlainCalls::decls_apart, crate::proofs::PlainCalls::trees_apart))]
fn eval_bound(
    level: &Level,
    call: &Call,
    params: &[CoreDecl],
    all: &[Core],
    bound: &CallScope,
    run: &mut Run,
) -> Result<Known, Stop>
    ensures goes { GoesOn run.old run.new }
    ensures means { Means seen result run.old run.new (λ r. call_goes_on r level.now call.now (map decl params.now) (map tree all.now) bound.now) }
{
    let count = all.len();
    if count == 0 {
        return eval_weighed(level, call, bound, run);
    }
    let declared = params.len();
    if declared == 0 {
        return eval_unbound(level, call, all, bound, run);
    }
    eval_first(
        level,
        call,
        &params[0],
        &params[1..],
        &all[0],
        &all[1..],
        bound,
        run,
    )
}

// More arguments than parameters: no typed program has such a call.
#[cycle(forms)]
fn eval_unbound(
    level: &Level,
    call: &Call,
    all: &[Core],
    bound: &CallScope,
    run: &mut Run,
) -> Result<Known, Stop>
    ensures goes { GoesOn run.old run.new }
    ensures means { Means seen result run.old run.new (λ r. call_goes_on r level.now call.now [] (map tree all.now) bound.now) }
{
    let cells = eval_parts(level, all, call.scope, run)?;
    let elements = lengths_of(bound.elements, cells)?;
    weighed(run, elements)?;
    eval_called(level, call.function, call.at, bound, run)
}

// All arguments are bound.
#[cycle(forms)]
fn eval_weighed(level: &Level, call: &Call, bound: &CallScope, run: &mut Run) -> Result<Known, Stop>
    ensures goes { GoesOn run.old run.new }
    ensures means { Means seen result run.old run.new (λ r. call_ends r level.now call.now bound.now) }
{
    weighed(run, bound.elements)?;
    eval_called(level, call.function, call.at, bound, run)
}

// An argument, and then those after it.
#[cycle(forms)]
#[tactic(auto, using(crate::proofs::PlainCalls::called_next))]
fn eval_first(
    level: &Level,
    call: &Call,
    d: &CoreDecl,
    params: &[CoreDecl],
    e: &Core,
    all: &[Core],
    bound: &CallScope,
    run: &mut Run,
) -> Result<Known, Stop>
    ensures goes { GoesOn run.old run.new }
    ensures means { Means seen result run.old run.new (λ r. call_goes_on r level.now call.now (decl d.now ∷ map decl params.now) (tree e.now ∷ map tree all.now) bound.now) }
{
    let cell = eval_expression(level, e, call.scope, run)?;
    let elements = more_length(bound.elements, &cell)?;
    let suits = plain_suits(run, call.function.result.ty.var, d.ty.ty.var, &cell)?;
    let holds = both_hold(run, bound.holds, suits)?;
    let more = Scope::Bound(d.slot, &cell, bound.scope);
    let inner = CallScope {
        scope: &more,
        elements,
        holds,
    };
    eval_bound(level, call, params, all, &inner, run)
}
