// `if`: a par condition that is true makes its branch the last.

ghost use Rattle.std.specs.Prelude.{◌≡◌, [], map};
ghost use Rattle.mz_core.specs.Types.{plain_type};
ghost use Rattle.mz_core.specs.TreeViews.{tree, branch};
ghost use Rattle.mz_meaning.specs.Cells as cells;
ghost use Rattle.mz_meaning.specs.Cells.{Open};
ghost use Rattle.mz_meaning.specs.Forms.{is_met, last_branch, otherwise, branches};
ghost use Rattle.mz_eval_cells.specs.Views.{test_if, seen};
ghost use Rattle.mz_symbol.specs.Makes.{GoesOn, Means};
ghost use Rattle.mz_symbol.specs.Readings.{Reading};
ghost use Rattle.mz_eval_nodes.specs.Views.{pairs_seen};
ghost use Rattle.mz_eval.specs.Choices.{else_tree, branch_cell, open_branch};
ghost use Rattle.mz_eval.specs.Levels.{world_in, at_node};

use crate::forms::eval_expression;
use crate::types::Level;
use mz_base::Stop;
use mz_core::Core;
use mz_eval_branches::chosen_branch;
use mz_eval_cells::{Item, Known, one, test_of};
use mz_eval_names::handed;
use mz_eval_nodes::{elsewhere, with_branch};
use mz_eval_scopes::Scope;
use mz_symbol::Run;

// Branches with their conditions.
#[cycle(forms)]
pub(crate) fn eval_if(
    level: &Level,
    node: &Core,
    all: &[(Core, Core)],
    last: &Option<Box<Core>>,
    scope: &Scope,
    run: &mut Run,
) -> Result<Known, Stop>
    ensures goes { GoesOn run.old run.new }
    ensures means { Means seen result run.old run.new (λ r. at_node r level.now scope.now node.now (λ w go ctx at t env. branches w go ctx (map branch all.now) (else_tree last.now) at t env [])) }
{
    let ctx = elsewhere(level.ctx);
    let outside = Level {
        alloc: level.alloc,
        world: level.world,
        left: level.left,
        ctx,
    };
    let mut others = Vec::new(level.alloc);
    for b in all {
        let cond = eval_expression(&outside, &b.0, scope, run)?;
        let test = settled(&cond);
        if is_met(test) {
            return eval_last(level, node, &b.1, others, scope, run);
        }
        others = eval_open(level, &b.1, others, cond, test, scope, run)?;
    }
    eval_otherwise(level, node, last, others, scope, run)
}

/// What a par condition says; nothing of a var one.
#[tactic(auto, using(crate::proofs::Wanting::test_seen))]
pub(crate) fn settled(k: &Known) -> Option<bool>
    ensures { (r : Reading) → cells.test_of (seen r k.now) ≡ test_if result }
{
    test_of(k)
}

// whether a branch is the last: a par condition that is true
fn is_met(test: Option<bool>) -> bool
    ensures { result ≡ is_met (test_if test) }
{
    match test {
        None => false,
        Some(b) => b,
    }
}

// the node, once all its branches are evaluated
fn ended(
    level: &Level,
    node: &Core,
    others: Vec<(Known, Known)>,
    cell: Known,
    run: &mut Run,
) -> Result<Known, Stop>
    ensures goes { GoesOn run.old run.new }
    ensures means { Means seen result run.old run.new (λ r. branch_cell (world_in r level.now) node.now.span (plain_type node.now.ty) (pairs_seen r others.items) (seen r cell)) }
{
    run.spend(level.world.budget, node.span, 1)?;
    chosen_branch(level.alloc, run, &node.ty, node.span, &others, cell)
}

// The last branch.
#[cycle(forms)]
fn eval_last(
    level: &Level,
    node: &Core,
    e: &Core,
    others: Vec<(Known, Known)>,
    scope: &Scope,
    run: &mut Run,
) -> Result<Known, Stop>
    ensures goes { GoesOn run.old run.new }
    ensures means { Means seen result run.old run.new (λ r. at_node r level.now scope.now node.now (λ w go ctx at t env. last_branch w go ctx (tree e.now) at t env (pairs_seen r others.items))) }
{
    let cell = eval_expression(level, e, scope, run)?;
    handed(run, &cell)?;
    ended(level, node, others, cell, run)
}

// What follows `else`; without it, true.
#[cycle(forms)]
fn eval_otherwise(
    level: &Level,
    node: &Core,
    last: &Option<Box<Core>>,
    others: Vec<(Known, Known)>,
    scope: &Scope,
    run: &mut Run,
) -> Result<Known, Stop>
    ensures goes { GoesOn run.old run.new }
    ensures means { Means seen result run.old run.new
        (λ r. at_node r level.now scope.now node.now (λ w go ctx at t env. otherwise w go ctx (else_tree last.now) at t env (pairs_seen r others.items))) }
{
    match last {
        None => ended(level, node, others, one(Item::Bool(true)), run),
        Some(e) => eval_last(level, node, e, others, scope, run),
    }
}

// A branch that isn't the last: below a par condition it isn't evaluated.
#[cycle(forms)]
fn eval_open(
    level: &Level,
    e: &Core,
    others: Vec<(Known, Known)>,
    cond: Known,
    test: Option<bool>,
    scope: &Scope,
    run: &mut Run,
) -> Result<Vec<(Known, Known)>, Stop>
    ensures goes { GoesOn run.old run.new }
    ensures means { Means (λ r v. pairs_seen r v.items) result run.old run.new (λ r. open_branch r level.now scope.now e.now others.items cond (test_if test)) }
{
    match test {
        Some(_) => Ok(others),
        None => eval_branch(level, e, others, cond, scope, run),
    }
}

#[cycle(forms)]
fn eval_branch(
    level: &Level,
    e: &Core,
    others: Vec<(Known, Known)>,
    cond: Known,
    scope: &Scope,
    run: &mut Run,
) -> Result<Vec<(Known, Known)>, Stop>
    ensures goes { GoesOn run.old run.new }
    ensures means { Means (λ r v. pairs_seen r v.items) result run.old run.new (λ r. open_branch r level.now scope.now e.now others.items cond Open) }
{
    let cell = eval_expression(level, e, scope, run)?;
    handed(run, &cell)?;
    Ok(with_branch(others, cond, cell)?)
}
