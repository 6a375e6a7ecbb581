// Lets, local declarations and declared sets.

ghost use Rattle.std.specs.Prelude.{◌≡◌, IfOk, map, Some};
ghost use Rattle.std.specs.Option.{option_map};
ghost use Rattle.mz_core.specs.Tree.{constrains, declares};
ghost use Rattle.mz_core.specs.TreeViews.{tree, item, decl};
ghost use Rattle.mz_meaning.specs.Arrays as arrays;
ghost use Rattle.mz_meaning.specs.Runs.{loop};
ghost use Rattle.mz_core.specs.Types.{plain_type};
ghost use Rattle.mz_meaning.specs.Cells.{guarded, set_in};
ghost use Rattle.mz_meaning.specs.Forms.{done};
ghost use Rattle.mz_eval_guards.specs.Guards.{guard_seen};
ghost use Rattle.mz_meaning.specs.Lets.{want, index_want, index_wants, contiguous, names_in, declared, let_item, let_of};
ghost use Rattle.mz_symbol.specs.Readings.{Reading};
ghost use Rattle.mz_eval_cells.specs.Meets.{Tells};
ghost use Rattle.mz_eval_declared.specs.Wants.{wanted, wants_of};
ghost use Rattle.mz_eval_declared.specs.Locals.{local_in};
ghost use Rattle.mz_eval_names.specs.Names.{names_seen};
ghost use Rattle.mz_symbol.specs.Makes.{GoesOn, Means};
ghost use Rattle.mz_eval_cells.specs.Views.{seen};
ghost use Rattle.mz_eval_scopes.specs.Seen.{ctx_of};
ghost use Rattle.mz_eval.specs.Locals.{free_value, local_value};
ghost use Rattle.mz_eval.specs.Levels.{world_in, go_of, scope_of, in_scope, at_node};
ghost use Rattle.mz_meaning.specs.Lets as lets;

use crate::forms::eval_expression;
use crate::types::Level;
use mz_base::{Fault, Kind, Span, Stop};
use mz_core::{Core, CoreDecl, CoreItem};
use mz_eval_cells::{Known, undefined};
use mz_eval_chains::place_of;
use mz_eval_declared::{Want, index_want, want_of};
use mz_eval_guards::Guard;
use mz_eval_names::{
    Names, chosen_in, constrained, counted, declared_weight, guarded_in, kept_by, nothing_bound,
    with_local,
};
use mz_eval_scopes::{Context, Scope, done};
use mz_symbol::Run;
use std::alloc::{AllocError, Global};

// A let.
#[cycle(forms)]
pub(crate) fn eval_let(
    level: &Level,
    node: &Core,
    items: &[CoreItem],
    body: &Core,
    scope: &Scope,
    run: &mut Run,
) -> Result<Known, Stop>
    ensures goes { GoesOn run.old run.new }
    ensures means { Means seen result run.old run.new (λ r. at_node r level.now scope.now node.now (λ w go ctx at t env. let_of w go ctx (map item items.now) (tree body.now) at t env)) }
{
    let b = eval_items(level, items, scope, run)?;
    let c = eval_under(level, body, &b, scope, run)?;
    ended(level, node, b.holds, c, run)
}

// the body's cell, undefined where what is declared doesn't hold, with the node's work
fn ended(level: &Level, node: &Core, holds: Guard, c: Known, run: &mut Run) -> Result<Known, Stop>
    ensures goes { GoesOn run.old run.new }
    ensures means { Means seen result run.old run.new (λ r. done (world_in r level.now) node.now.span (guarded r.mode (plain_type node.now.ty) (guard_seen r holds) (seen r c))) }
{
    let cell = guarded_in(level.alloc, run, &node.ty, holds, c)?;
    done(level.world, node.span, cell, run)
}

#[cycle(forms)]
fn eval_items(
    level: &Level,
    items: &[CoreItem],
    scope: &Scope,
    run: &mut Run,
) -> Result<Names, Stop>
    ensures goes { GoesOn run.old run.new }
    ensures means { Means names_seen result run.old run.new (λ r. in_scope r level.now scope.now (λ w go ctx env. loop (let_item w go ctx env) lets.nothing_bound (map item items.now))) }
{
    let mut b = nothing_bound(level.alloc);
    for i in items {
        b = eval_item(level, i, b, scope, run)?;
    }
    Ok(b)
}

// An expression in the scope of more names.
#[cycle(forms)]
pub(crate) fn eval_under(
    level: &Level,
    e: &Core,
    b: &Names,
    scope: &Scope,
    run: &mut Run,
) -> Result<Known, Stop>
    ensures goes { GoesOn run.old run.new }
    ensures means { Means seen result run.old run.new (λ r. go_of r level.now (ctx_of level.now.ctx) (tree e.now) (names_in (names_seen r b.now) (scope_of r level.now scope.now))) }
{
    let frame = Scope::Frame(&b.slots, &b.cells, &*scope);
    eval_expression(level, e, &frame, run)
}

#[cycle(forms)]
fn eval_item(
    level: &Level,
    i: &CoreItem,
    b: Names,
    scope: &Scope,
    run: &mut Run,
) -> Result<Names, Stop>
    ensures goes { GoesOn run.old run.new }
    ensures means { Means names_seen result run.old run.new (λ r. in_scope r level.now scope.now (λ w go ctx env. let_item w go ctx env (names_seen r b) (item i.now))) }
{
    match i {
        CoreItem::Constraint(e) => eval_constraint(level, e, b, scope, run),
        CoreItem::Decl(d) => eval_local(level, d, b, scope, run),
    }
}

#[cycle(forms)]
fn eval_constraint(
    level: &Level,
    e: &Core,
    b: Names,
    scope: &Scope,
    run: &mut Run,
) -> Result<Names, Stop>
    ensures goes { GoesOn run.old run.new }
    ensures means { Means names_seen result run.old run.new (λ r. in_scope r level.now scope.now (λ w go ctx env. let_item w go ctx env (names_seen r b) (constrains (tree e.now)))) }
{
    let c = eval_under(level, e, &b, scope, run)?;
    constrained(run, b, &c)
}

#[cycle(forms)]
fn eval_local(
    level: &Level,
    d: &CoreDecl,
    b: Names,
    scope: &Scope,
    run: &mut Run,
) -> Result<Names, Stop>
    ensures goes { GoesOn run.old run.new }
    ensures means { Means names_seen result run.old run.new (λ r. in_scope r level.now scope.now (λ w go ctx env. let_item w go ctx env (names_seen r b) (declares (decl d.now)))) }
{
    let x = eval_framed(level, d, &b, scope, run)?;
    with_local(run, b, d.slot, x)
}

#[cycle(forms)]
fn eval_framed(
    level: &Level,
    d: &CoreDecl,
    b: &Names,
    scope: &Scope,
    run: &mut Run,
) -> Result<(Known, Guard), Stop>
    ensures goes { GoesOn run.old run.new }
    ensures means { Means local_in result run.old run.new (λ r. in_scope r level.now scope.now (λ w go ctx env. declared w go ctx (decl d.now) (names_in (names_seen r b.now) env))) }
{
    let frame = Scope::Frame(&b.slots, &b.cells, &*scope);
    eval_declared(level, d, &frame, run)
}

// A local declaration: its index sets, its set and its value.
#[cycle(forms)]
fn eval_declared(
    level: &Level,
    d: &CoreDecl,
    scope: &Scope,
    run: &mut Run,
) -> Result<(Known, Guard), Stop>
    ensures goes { GoesOn run.old run.new }
    ensures means { Means local_in result run.old run.new (λ r. in_scope r level.now scope.now (λ w go ctx env. declared w go ctx (decl d.now) env)) }
{
    declared_weight(run)?;
    let index = eval_indices(level, &d.ty.index, scope, run)?;
    let set = eval_want(level, &d.ty.set, scope, run)?;
    match &d.value {
        None => free_value(level, d, &index, &set, run),
        Some(e) => eval_given(level, d, &index, &set, e, scope, run),
    }
}

// a free local where it may be evaluated
fn freely_chosen(
    level: &Level,
    d: &CoreDecl,
    index: &[Want],
    set: &Want,
    run: &mut Run,
) -> Result<(Known, Guard), Stop>
    ensures goes { GoesOn run.old run.new }
    ensures means { Means local_in result run.old run.new
        (λ r. lets.chosen r.mode (world_in r level.now).int_range (decl d.now).ty.ty (wants_of index.now) (wanted set.now)) }
{
    chosen_in(
        level.alloc,
        run,
        &level.world.int_range,
        &d.ty.ty,
        index,
        set,
    )
}

// a local declaration without a value
fn free_value(
    level: &Level,
    d: &CoreDecl,
    index: &[Want],
    set: &Want,
    run: &mut Run,
) -> Result<(Known, Guard), Stop>
    ensures goes { GoesOn run.old run.new }
    ensures means { Means local_in result run.old run.new (λ r. free_value (world_in r level.now) (ctx_of level.now.ctx) (decl d.now) (wants_of index.now) (wanted set.now)) }
{
    counted(level.alloc, level.world, d.span, index, &undefined(), run)?;
    match level.ctx {
        Context::Untested => freely_chosen(level, d, index, set, run),
        Context::Positive => freely_chosen(level, d, index, set, run),
        Context::Other => Err(Stop::Refused(Fault::at(Kind::FreeInContext, d.ty.span))),
    }
}

#[cycle(forms)]
fn eval_given(
    level: &Level,
    d: &CoreDecl,
    index: &[Want],
    set: &Want,
    e: &Core,
    scope: &Scope,
    run: &mut Run,
) -> Result<(Known, Guard), Stop>
    ensures goes { GoesOn run.old run.new }
    ensures means { Means local_in result run.old run.new (λ r. local_value r level.now scope.now d.now index.now set.now (Some (tree e.now))) }
{
    let c = eval_expression(level, e, scope, run)?;
    counted(level.alloc, level.world, d.span, index, &c, run)?;
    kept_by(level.alloc, run, place_of(e), index, set, c)
}

// what a declared set's cell says
#[tactic(auto, using(crate::proofs::Wanting::want_seen))]
fn wanted_by(alloc: Global, k: &Known) -> Result<Want, AllocError>
    ensures { IfOk result (λ w. (r : Reading) → wanted w ≡ arrays.want_of (set_in (seen r k.now))) }
{
    let w = want_of(alloc, k)?;
    Ok(w)
}

// the same of an index set, which is tested
#[tactic(auto, using(crate::proofs::Wanting::index_seen))]
fn index_by(alloc: Global, at: Span, k: &Known) -> Result<Want, Stop>
    ensures { (r : Reading) → Tells wanted result (contiguous at (set_in (seen r k.now))) }
{
    index_want(alloc, at, k)
}

// A declared set, if there is one.
#[cycle(forms)]
pub(crate) fn eval_want(
    level: &Level,
    set: &Option<Core>,
    scope: &Scope,
    run: &mut Run,
) -> Result<Want, Stop>
    ensures goes { GoesOn run.old run.new }
    ensures means { Means (λ _. wanted) result run.old run.new (λ r. in_scope r level.now scope.now (λ w go ctx env. want go ctx (option_map tree set.now) env)) }
{
    match set {
        None => Ok(Want::Anything),
        Some(e) => {
            let c = eval_expression(level, e, scope, run)?;
            Ok(wanted_by(level.alloc, &c)?)
        }
    }
}

// A declared index set, if there is one.
#[cycle(forms)]
fn eval_index(level: &Level, set: &Option<Core>, scope: &Scope, run: &mut Run) -> Result<Want, Stop>
    ensures goes { GoesOn run.old run.new }
    ensures means { Means (λ _. wanted) result run.old run.new (λ r. in_scope r level.now scope.now (λ w go ctx env. index_want go ctx (option_map tree set.now) env)) }
{
    match set {
        None => Ok(Want::Anything),
        Some(e) => {
            let c = eval_expression(level, e, scope, run)?;
            index_by(level.alloc, place_of(e), &c)
        }
    }
}

// The declared index sets.
#[cycle(forms)]
pub(crate) fn eval_indices(
    level: &Level,
    all: &[Option<Core>],
    scope: &Scope,
    run: &mut Run,
) -> Result<Vec<Want>, Stop>
    ensures goes { GoesOn run.old run.new }
    ensures means { Means (λ _ v. wants_of v.items) result run.old run.new (λ r. in_scope r level.now scope.now (λ w go ctx env. index_wants go ctx (map (option_map tree) all.now) env)) }
{
    let mut wants = Vec::new(level.alloc);
    for e in all {
        let x = eval_index(level, e, scope, run)?;
        wants.push(x)?;
    }
    Ok(wants)
}
