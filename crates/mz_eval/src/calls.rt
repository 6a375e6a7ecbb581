// Calls of a program's functions.

ghost use Rattle.std.specs.Prelude.{◌≡◌, [], map, true, MatchOption, slice_get, None, Some};
ghost use Rattle.mz_core.specs.Types.{plain_type};
ghost use Rattle.mz_core.specs.Program.{function};
ghost use Rattle.mz_core.specs.TreeViews.{tree, decl};
ghost use Rattle.mz_meaning.specs.Runs.{loop};
ghost use Rattle.mz_meaning.specs.Lets.{names_in};
ghost use Rattle.mz_meaning.specs.Calls.{parameter, call_of, call};
ghost use Rattle.mz_eval_cells.specs.Views.{seen, all_seen};
ghost use Rattle.mz_eval_guards.specs.Guards.{guard_seen};
ghost use Rattle.mz_eval_declared.specs.Locals.{local_in};
ghost use Rattle.mz_eval_names.specs.Names.{names_seen};
ghost use Rattle.mz_meaning.specs.Cells.{sure};
ghost use Rattle.mz_symbol.specs.Makes.{GoesOn, Means};
ghost use Rattle.mz_symbol.specs.Readings.{Reading};
ghost use Rattle.mz_eval_declared.specs.Wants.{wanted, wants_of};
ghost use Rattle.mz_eval.specs.Levels.{world_in, at_level, in_scope};
ghost use Rattle.mz_eval.specs.Calls.{HasOwnCell, argument, arguments_seen, called_in, ended_call, result_in};
ghost use Rattle.mz_meaning.specs.Lets as lets;

use crate::forms::{eval_expression, eval_parts};
use crate::locals::{eval_indices, eval_want};
use crate::plain_calls::{eval_plain_call, plain_function};
use crate::types::{CallScope, Level};
use crate::weights::{lengths_on, weighed};
use mz_base::{Span, Stop};
use mz_core::{Core, CoreDecl, CoreFunction, Program};
use mz_eval_cells::{Known, share, undefined};
use mz_eval_chains::place_of;
use mz_eval_declared::{Want, fitted};
use mz_eval_guards::Guard;
use mz_eval_names::{Names, handed, nothing_bound, resulting, suited, with_local};
use mz_eval_scopes::{Scope, done};
use mz_symbol::Run;

// A call of a function of the program.
#[cycle(forms)]
pub(crate) fn eval_call(
    level: &Level,
    f: u64,
    all: &[Core],
    at: Span,
    scope: &Scope,
    run: &mut Run,
) -> Result<Known, Stop>
    ensures goes { GoesOn run.old run.new }
    ensures means { Means seen result run.old run.new (λ r. in_scope r level.now scope.now (λ w go ctx env. call w go ctx f (map tree all.now) at env)) }
{
    match plain_function(level.world.program, f) {
        Some(function) => eval_plain_call(level, function, all, at, scope, run),
        None => eval_declared_call(level, f, all, at, scope, run),
    }
}

// A call whose parameters may have declared sets.
#[cycle(forms)]
fn eval_declared_call(
    level: &Level,
    f: u64,
    all: &[Core],
    at: Span,
    scope: &Scope,
    run: &mut Run,
) -> Result<Known, Stop>
    ensures goes { GoesOn run.old run.new }
    ensures means { Means seen result run.old run.new (λ r. in_scope r level.now scope.now (λ w go ctx env. call w go ctx f (map tree all.now) at env)) }
{
    let cells = eval_parts(level, all, scope, run)?;
    eval_call_of(level, f, all, &cells, at, run)
}

fn function_in(functions: &[CoreFunction], f: u64) -> Option<&CoreFunction>
    ensures { MatchOption result (slice_get functions.now f ≡ None) (λ x. slice_get functions.now f ≡ Some x.now) }
{
    functions.get(f as usize)
}

// the function with this number, if there is one
#[tactic(auto, using(crate::proofs::Parts::no_function, crate::proofs::Parts::function_found))]
pub(crate) fn function_at(program: &Program, f: u64) -> Option<&CoreFunction>
    ensures { MatchOption result (slice_get (map function program.now.functions.items) f ≡ None) (λ x. slice_get (map function program.now.functions.items) f ≡ Some (function x.now)) }
{
    match function_in(&program.functions, f) {
        None => None,
        Some(x) => Some(x),
    }
}

#[cycle(forms)]
fn eval_call_of(
    level: &Level,
    f: u64,
    all: &[Core],
    cells: &[Known],
    at: Span,
    run: &mut Run,
) -> Result<Known, Stop>
    ensures goes { GoesOn run.old run.new }
    ensures means { Means seen result run.old run.new (λ r. at_level r level.now (λ w go ctx. call_of w go ctx (slice_get w.functions f) (map tree all.now) (all_seen r cells.now) at)) }
{
    match function_at(level.world.program, f) {
        None => done(level.world, at, undefined(), run),
        Some(function) => eval_function(level, function, all, cells, at, run),
    }
}

#[cycle(forms)]
#[tactic(auto, unfolding(mz_core::specs::Types::plain_type))]
fn eval_function(
    level: &Level,
    f: &CoreFunction,
    all: &[Core],
    cells: &[Known],
    at: Span,
    run: &mut Run,
) -> Result<Known, Stop>
    ensures goes { GoesOn run.old run.new }
    ensures means { Means seen result run.old run.new (λ r. at_level r level.now (λ w go ctx. call_of w go ctx (Some (function f.now)) (map tree all.now) (all_seen r cells.now) at)) }
{
    let elements = lengths_on(0, cells)?;
    weighed(run, elements)?;
    let b = eval_parameters(level, f.result.ty.var, &f.params, all, cells, run)?;
    let top = Scope::Top;
    let frame = Scope::Frame(&b.slots, &b.cells, &top);
    let bound = CallScope {
        scope: &frame,
        elements,
        holds: b.holds,
    };
    eval_called(level, f, at, &bound, run)
}

// The parameters, whose sets may name those before.
#[cycle(forms)]
#[tactic(auto, using(crate::proofs::Arguments::arguments_next, crate::proofs::Arguments::arguments_end))]
fn eval_parameters(
    level: &Level,
    var: bool,
    params: &[CoreDecl],
    all: &[Core],
    cells: &[Known],
    run: &mut Run,
) -> Result<Names, Stop>
    ensures goes { GoesOn run.old run.new }
    ensures means { Means names_seen result run.old run.new
        (λ r. at_level r level.now (λ w go ctx. loop (parameter go ctx var w.top) lets.nothing_bound (arguments_seen r params.now all.now cells.now))) }
{
    let mut b = nothing_bound(level.alloc);
    let count = params.len().min(all.len()).min(cells.len());
    for i in 0..count {
        b = eval_parameter(level, var, &params[i], &all[i], &cells[i], b, run)?;
    }
    Ok(b)
}

#[cycle(forms)]
#[tactic(auto, using(crate::proofs::OneLevel::parameter_is))]
fn eval_parameter(
    level: &Level,
    var: bool,
    d: &CoreDecl,
    e: &Core,
    k: &Known,
    b: Names,
    run: &mut Run,
) -> Result<Names, Stop>
    ensures goes { GoesOn run.old run.new }
    ensures means { Means names_seen result run.old run.new (λ r. at_level r level.now (λ w go ctx. parameter go ctx var w.top (names_seen r b) (decl d.now, tree e.now, seen r k.now))) }
{
    let x = eval_suited(level, var, d, e, k, &b, run)?;
    with_local(run, b, d.slot, x)
}

#[cycle(forms)]
fn eval_suited(
    level: &Level,
    var: bool,
    d: &CoreDecl,
    e: &Core,
    k: &Known,
    b: &Names,
    run: &mut Run,
) -> Result<(Known, Guard), Stop>
    ensures goes { GoesOn run.old run.new }
    ensures means { Means local_in result run.old run.new
        (λ r. at_level r level.now (λ w go ctx. argument go ctx var (names_in (names_seen r b.now) w.top) (decl d.now) (tree e.now) (seen r k.now))) }
{
    let top = Scope::Top;
    let frame = Scope::Frame(&b.slots, &b.cells, &top);
    eval_argument(level, var, d, e, k, &frame, run)
}

// An argument under its parameter's sets.
#[cycle(forms)]
#[tactic(auto, unfolding(mz_core::specs::Types::plain_type))]
fn eval_argument(
    level: &Level,
    var: bool,
    d: &CoreDecl,
    e: &Core,
    k: &Known,
    scope: &Scope,
    run: &mut Run,
) -> Result<(Known, Guard), Stop>
    ensures goes { GoesOn run.old run.new }
    ensures means { Means local_in result run.old run.new (λ r. in_scope r level.now scope.now (λ w go ctx env. argument go ctx var env (decl d.now) (tree e.now) (seen r k.now))) }
{
    let index = eval_indices(level, &d.ty.index, scope, run)?;
    let set = eval_want(level, &d.ty.set, scope, run)?;
    let same = share(k)?;
    suited(
        level.alloc,
        run,
        var,
        d.ty.ty.var,
        place_of(e),
        &index,
        &set,
        same,
    )
}

// The body in the scope of its parameters, and then the result's sets.
#[cycle(forms)]
pub(crate) fn eval_called(
    level: &Level,
    f: &CoreFunction,
    at: Span,
    bound: &CallScope,
    run: &mut Run,
) -> Result<Known, Stop>
    ensures goes { GoesOn run.old run.new }
    ensures means { Means seen result run.old run.new (λ r. in_scope r level.now bound.now.scope.now (λ w go ctx env. called_in w go ctx (function f.now) at (guard_seen r bound.now.holds) env)) }
{
    let c = eval_expression(level, &f.body, bound.scope, run)?;
    eval_result(level, f, at, bound, c, run)
}

// whether a result has no declared set
fn is_undeclared(f: &CoreFunction) -> bool
    ensures index { result ≡ true → (function f.now).result.index ≡ [] }
    ensures set { result ≡ true → (function f.now).result.set ≡ None }
{
    f.result.index.is_empty() && f.result.set.is_none()
}

// whether par cells tell that all arguments suit
fn is_sure(holds: Guard) -> bool
    ensures { result ≡ true → (r : Reading) → guard_seen r holds ≡ sure }
{
    match holds {
        Guard::Par(is) => is,
        Guard::Open(_) => false,
    }
}

// whether a call surely has its body's cell as it is
#[tactic(auto, using(crate::proofs::Results::own_result))]
fn has_own_cell(f: &CoreFunction, holds: Guard, c: &Known) -> bool
    ensures { result ≡ true → HasOwnCell (function f.now) holds c.now }
{
    match c {
        Known::One(_) => is_sure(holds) && is_undeclared(f),
        _ => false,
    }
}

// What the body gives, under the result's sets. It stands apart from the call, so that a call that waits
// for its body takes little of the stack.
#[inline(never)]
#[cycle(forms)]
fn eval_result(
    level: &Level,
    f: &CoreFunction,
    at: Span,
    bound: &CallScope,
    c: Known,
    run: &mut Run,
) -> Result<Known, Stop>
    ensures goes { GoesOn run.old run.new }
    ensures means { Means seen result run.old run.new
        (λ r. in_scope r level.now bound.now.scope.now (λ w go ctx env. result_in w go ctx (function f.now) at (guard_seen r bound.now.holds) env (seen r c))) }
{
    if has_own_cell(f, bound.holds, &c) {
        return done(level.world, at, c, run);
    }
    let index = eval_indices(level, &f.result.index, bound.scope, run)?;
    let set = eval_want(level, &f.result.set, bound.scope, run)?;
    let r = fitted(level.alloc, place_of(&f.body), &index, c)?;
    result_of(level, f, at, bound.holds, (index, set), r, run)
}

// the result under its index sets, which it takes, and its set
#[tactic(auto, unfolding(mz_core::specs::Types::plain_type))]
fn result_of(
    level: &Level,
    f: &CoreFunction,
    at: Span,
    holds: Guard,
    sets: (Vec<Want>, Want),
    c: Known,
    run: &mut Run,
) -> Result<Known, Stop>
    ensures goes { GoesOn run.old run.new }
    ensures means { Means seen result run.old run.new
        (λ r. ended_call (world_in r level.now) (function f.now) at (guard_seen r holds) (wants_of sets.0.items) (wanted sets.1) (seen r c)) }
{
    handed(run, &c)?;
    let cell = resulting(level.alloc, run, &f.result.ty, &sets.0, &sets.1, holds, c)?;
    done(level.world, at, cell, run)
}
