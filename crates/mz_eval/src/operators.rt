// Chains of operators of one level.

ghost use Rattle.std.specs.Prelude.{◌≡◌, is_some, length, map, true, false};
ghost use Rattle.mz_core.specs.Tree.{place_of};
ghost use Rattle.mz_core.specs.TreeViews.{tree, step};
ghost use Rattle.mz_meaning.specs.Chains as chains;
ghost use Rattle.mz_meaning.specs.Chains.{chain_level, chained};
ghost use Rattle.mz_meaning.specs.Forms.{chain, chain_by, operators, append_operand};
ghost use Rattle.mz_symbol.specs.Makes.{GoesOn, Means};
ghost use Rattle.mz_eval_cells.specs.Views.{seen};
ghost use Rattle.mz_eval_scopes.specs.Seen.{ctx_of};
ghost use Rattle.mz_eval.specs.Chains.{one_operator, own_operators, operands};
ghost use Rattle.mz_eval.specs.Levels.{in_scope};
ghost use Rattle.mz_eval_chains.specs.Innermosts.{operator_of, innermost_of};
ghost use Rattle.mz_eval_nodes.specs.Contexts.{later, settled};
ghost use Rattle.mz_eval_nodes.specs.Operators.{operator_step, appended_seen};

use crate::forms::eval_expression;
use crate::types::Level;
use mz_base::{Span, Stop};
use mz_core::{Base, Core, CoreStep};
use mz_eval_cells::Known;
use mz_eval_chains::{Innermost, Operator, all_operators, has_innermost, is_appended, place_of};
use mz_eval_nodes::{
    Appended, append_operand, appended_nodes, contexts_before, first_within, is_settled, kind_of,
    left_within, nothing_appended, operand_within, operated_on, prepared, right_within,
};
use mz_eval_scopes::{Context, Scope};
use mz_symbol::Run;

// The operators of a chain.
#[cycle(forms)]
pub(crate) fn eval_chain(
    level: &Level,
    first: &Core,
    all: &[CoreStep],
    at: Span,
    scope: &Scope,
    run: &mut Run,
) -> Result<Known, Stop>
    ensures goes { GoesOn run.old run.new }
    ensures means { Means seen result run.old run.new (λ r. in_scope r level.now scope.now (λ w go ctx env. chain w go ctx (tree first.now) (map step all.now) at env)) }
{
    if is_appended(all) {
        return eval_appended(level, first, all, at, scope, run);
    }
    if is_plain(level.ctx, first, all) {
        return eval_plain(level, first, all, at, scope, run);
    }
    if is_single(first, all) {
        return eval_single(level, first, &all[0], at, scope, run);
    }
    eval_with_innermost(level, first, all, at, scope, run)
}

// whether there is one operator, and none of the first operand belongs to the chain
fn is_single(first: &Core, all: &[CoreStep]) -> bool
    ensures one { result ≡ true → length all.now ≡ 1 }
    ensures own { result ≡ true → is_some (chains.innermost_of (chain_level (map step all.now)) (tree first.now)) ≡ false }
{
    if all.len() == 1 {
        !has_innermost(first, all)
    } else {
        false
    }
}

// One operator over an operand that none of its chain belongs to.
#[cycle(forms)]
fn eval_single(
    level: &Level,
    first: &Core,
    s: &CoreStep,
    at: Span,
    scope: &Scope,
    run: &mut Run,
) -> Result<Known, Stop>
    ensures goes { GoesOn run.old run.new }
    ensures means { Means seen result run.old run.new (λ r. in_scope r level.now scope.now (λ w go ctx env. one_operator w go ctx env at (tree first.now) (step s.now))) }
{
    let o = Operator {
        at,
        step: &*s,
        before: None,
        operand: &s.operand,
        after: None,
    };
    let before = Level {
        alloc: level.alloc,
        world: level.world,
        left: level.left,
        ctx: left_within(level.ctx, &o),
    };
    let cell = eval_expression(&before, first, scope, run)?;
    let inside = Level {
        alloc: level.alloc,
        world: level.world,
        left: level.left,
        ctx: right_within(level.ctx, &o),
    };
    eval_operator(
        &inside,
        place_of(first),
        kind_of(&first.ty),
        cell,
        &o,
        scope,
        run,
    )
}

// whether no operator of the first operand belongs to a chain, and all operands have its context
fn is_plain(ctx: Context, first: &Core, all: &[CoreStep]) -> bool
    ensures settled { result ≡ true → settled (ctx_of ctx) ≡ true }
    ensures plain { result ≡ true → is_some (chains.innermost_of (chain_level (map step all.now)) (tree first.now)) ≡ false }
{
    is_settled(ctx) && !has_innermost(first, all)
}

// Where no operator of the first operand belongs to the chain, and all operands have its context.
#[cycle(forms)]
#[tactic(auto, using(crate::proofs::Chains::chain_settled, crate::proofs::Chains::operators_settled))]
fn eval_plain(
    level: &Level,
    first: &Core,
    all: &[CoreStep],
    at: Span,
    scope: &Scope,
    run: &mut Run,
) -> Result<Known, Stop>
    requires { settled (ctx_of level.now.ctx) ≡ true }
    ensures goes { GoesOn run.old run.new }
    ensures means { Means seen result run.old run.new (λ r. in_scope r level.now scope.now (λ w go ctx env. chain_by w go ctx env false (own_operators at first.now all.now))) }
{
    let mut cell = eval_expression(level, first, scope, run)?;
    let mut place = place_of(first);
    let mut kind = kind_of(&first.ty);
    for s in all {
        cell = eval_step(level, place, kind, cell, at, s, scope, run)?;
        place = at;
        kind = kind_of(&s.ty);
    }
    Ok(cell)
}

#[cycle(forms)]
fn eval_step(
    level: &Level,
    place: Span,
    kind: (Base, bool),
    cell: Known,
    at: Span,
    s: &CoreStep,
    scope: &Scope,
    run: &mut Run,
) -> Result<Known, Stop>
    ensures goes { GoesOn run.old run.new }
    ensures means { Means seen result run.old run.new
        (λ r. in_scope r level.now scope.now (λ w go ctx env. operator_step w go ctx env place (seen r cell) (record { at = at; step = step s.now }))) }
{
    let o = Operator {
        at,
        step: &*s,
        before: None,
        operand: &s.operand,
        after: None,
    };
    eval_operator(level, place, kind, cell, &o, scope, run)
}

// An operator over its left operand, of which `kind` says what its node's type is, and its right one.
#[cycle(forms)]
fn eval_operator(
    level: &Level,
    place: Span,
    kind: (Base, bool),
    cell: Known,
    o: &Operator,
    scope: &Scope,
    run: &mut Run,
) -> Result<Known, Stop>
    ensures goes { GoesOn run.old run.new }
    ensures means { Means seen result run.old run.new (λ r. in_scope r level.now scope.now (λ w go ctx env. operator_step w go ctx env place (seen r cell) (operator_of o.now))) }
{
    let a = prepared(level.alloc, level.world, place, o, cell, run)?;
    let c = eval_expression(level, o.operand, scope, run)?;
    operated_on(level.alloc, level.world, o, kind, a, c, run)
}

// With the operators of the first operand.
#[cycle(forms)]
fn eval_with_innermost(
    level: &Level,
    first: &Core,
    all: &[CoreStep],
    at: Span,
    scope: &Scope,
    run: &mut Run,
) -> Result<Known, Stop>
    ensures goes { GoesOn run.old run.new }
    ensures means { Means seen result run.old run.new (λ r. in_scope r level.now scope.now (λ w go ctx env. chain_by w go ctx env false (chained at (tree first.now) (map step all.now)))) }
{
    let f = all_operators(level.alloc, at, &*first, &*all)?;
    eval_innermost(level, &f, scope, run)
}

#[cycle(forms)]
fn eval_innermost(level: &Level, f: &Innermost, scope: &Scope, run: &mut Run) -> Result<Known, Stop>
    ensures goes { GoesOn run.old run.new }
    ensures means { Means seen result run.old run.new (λ r. in_scope r level.now scope.now (λ w go ctx env. chain_by w go ctx env false (innermost_of f.now))) }
{
    let (ctx, contexts) = contexts_before(level.alloc, level.ctx, &f.operators)?;
    let first = Level {
        alloc: level.alloc,
        world: level.world,
        left: level.left,
        ctx,
    };
    let cell = eval_expression(&first, f.first, scope, run)?;
    eval_operators(level, f.first, cell, &f.operators, contexts, scope, run)
}

#[cycle(forms)]
#[tactic(auto, using(crate::proofs::Chains::operators_next))]
fn eval_operators(
    level: &Level,
    first: &Core,
    left_cell: Known,
    all: &[Operator],
    contexts: Vec<Context>,
    scope: &Scope,
    run: &mut Run,
) -> Result<Known, Stop>
    requires { map ctx_of contexts.items ≡ later (ctx_of level.now.ctx) (map operator_of all.now) }
    ensures goes { GoesOn run.old run.new }
    ensures means { Means seen result run.old run.new
        (λ r. in_scope r level.now scope.now (λ w go ctx env. operators w go ctx env (place_of (tree first.now)) (seen r left_cell) (map operator_of all.now))) }
{
    let mut cell = left_cell;
    let mut place = place_of(first);
    let mut kind = kind_of(&first.ty);
    let mut stack = contexts;
    for i in 0..all.len() {
        let o = &all[i];
        let ctx = operand_within(level.ctx, &mut stack, o, &all[i + 1..]);
        let inside = Level {
            alloc: level.alloc,
            world: level.world,
            left: level.left,
            ctx,
        };
        cell = eval_operator(&inside, place, kind, cell, o, scope, run)?;
        place = o.at;
        kind = kind_of(&o.step.ty);
    }
    Ok(cell)
}

// The operators of `++`: first all operands, then the nodes from the last on.
#[cycle(forms)]
fn eval_appended(
    level: &Level,
    first: &Core,
    all: &[CoreStep],
    at: Span,
    scope: &Scope,
    run: &mut Run,
) -> Result<Known, Stop>
    ensures goes { GoesOn run.old run.new }
    ensures means { Means seen result run.old run.new (λ r. in_scope r level.now scope.now (λ w go ctx env. chain_by w go ctx env true (chained at (tree first.now) (map step all.now)))) }
{
    let f = all_operators(level.alloc, at, &*first, &*all)?;
    eval_back(level, &f, scope, run)
}

#[cycle(forms)]
fn eval_back(level: &Level, f: &Innermost, scope: &Scope, run: &mut Run) -> Result<Known, Stop>
    ensures goes { GoesOn run.old run.new }
    ensures means { Means seen result run.old run.new (λ r. in_scope r level.now scope.now (λ w go ctx env. chain_by w go ctx env true (innermost_of f.now))) }
{
    let ctx = first_within(level.ctx, &f.operators);
    let first = Level {
        alloc: level.alloc,
        world: level.world,
        left: level.left,
        ctx,
    };
    let cell = eval_expression(&first, f.first, scope, run)?;
    let place = place_of(f.first);
    let x = eval_operands(level, place, cell, &f.operators, scope, run)?;
    appended_nodes(level.alloc, level.world, x, run)
}

#[cycle(forms)]
fn eval_operands<'a>(
    level: &Level,
    first: Span,
    cell: Known,
    all: &[Operator<'a>],
    scope: &Scope,
    run: &mut Run,
) -> Result<Appended<'a>, Stop>
    ensures goes { GoesOn run.old run.new }
    ensures means { Means appended_seen result run.old run.new (λ r. in_scope r level.now scope.now (λ w go ctx env. operands w go ctx env first (seen r cell) (map operator_of all.now))) }
{
    let mut x = nothing_appended(level.alloc, first, cell);
    let mut ctx = level.ctx;
    for i in 0..all.len() {
        let o = all[i];
        ctx = right_within(ctx, &o);
        let place = first_within(ctx, &all[i + 1..]);
        let inside = Level {
            alloc: level.alloc,
            world: level.world,
            left: level.left,
            ctx: place,
        };
        x = eval_operand(&inside, x, o, scope, run)?;
    }
    Ok(x)
}

#[cycle(forms)]
fn eval_operand<'a>(
    level: &Level,
    x: Appended<'a>,
    o: Operator<'a>,
    scope: &Scope,
    run: &mut Run,
) -> Result<Appended<'a>, Stop>
    ensures goes { GoesOn run.old run.new }
    ensures means { Means appended_seen result run.old run.new (λ r. in_scope r level.now scope.now (λ w go ctx env. append_operand w go ctx env (appended_seen r x.entry) (operator_of o.entry))) }
{
    let Appended { lefts, place, last } = x;
    let a = prepared(level.alloc, level.world, place, &o, last, run)?;
    let c = eval_expression(level, o.operand, scope, run)?;
    Ok(append_operand(lefts, o, a, place_of(o.operand), c)?)
}
