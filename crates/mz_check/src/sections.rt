// All values, bodies and items of a model, and the fault that is met first among them.

ghost use Rattle.std.specs.Prelude.{◌≡◌, All, length, map, IfOk};
ghost use Rattle.std.specs.Option.{option_map};
ghost use Rattle.mz_core.specs.TreeViews.{tree};
ghost use Rattle.mz_core.specs.Program.{goal as typed_goal};
ghost use Rattle.mz_tree.specs.Items.{goal as goal_of};
ghost use Rattle.mz_scope_order.specs.Scoped.{scoped_decl, lent_function, lent_tree, asked, scoped_tree};
ghost use Rattle.mz_check_meaning.specs.Items.{constraint, goal, output};
ghost use Rattle.mz_check_meaning.specs.Checks.{numbered, tree_place, goal_place, none_met, items_met};
ghost use Rattle.mz_check_meaning.specs.Passes.{Passes};
ghost use Rattle.mz_check_context.specs.Known.{known};
ghost use Rattle.mz_check_exprs.specs.Naming.{IsNamed};
ghost use Rattle.mz_check_exprs.specs.NamedModels.{IsNamedDeclaration, IsNamedFunction, IsNamedGoal, AreNamed};
ghost use Rattle.mz_check.specs.StepsMeeting.{met_of, places, AreTested, IsGoalKept, IsGoalTested};
ghost use Rattle.mz_check.specs.StepsParts.{value_of_each, body_of_each, value_at, body_at, parts, AreParts, AreAllTested};

use crate::faults::{Met, note, passed};
use crate::items::{body, constraint, expr_place, goal, output, value, value_place};
use crate::kept::{keep_tree, keep_value};
use crate::parts::TypedItems;
use mz_base::{Memory, Span, Stop};
use mz_check_context::Context;
use mz_core::{Core, CoreGoal};
use mz_scope_order::{Scoped, ScopedDecl};
use mz_tree::{Expr, Function, Goal};
use std::alloc::Global;

/// The values of declarations; those that are refused are noted.
fn values(
    alloc: Global,
    context: &Context<'_>,
    decls: &[ScopedDecl<'_>],
    first: &mut Option<Met>,
) -> Result<Vec<Option<Core>>, Memory>
    requires { All (IsNamedDeclaration (length (known context.now).texts)) (map scoped_decl decls.now) }
    ensures { IfOk result (λ v. AreTested value_at (value_of_each (known context.now)) (numbered (map scoped_decl decls.now)) (option_map met_of first.old) (option_map met_of first.new) (map (option_map tree) v.items)) }
{
    let mut all = Vec::new(alloc);
    for (k, d) in decls.iter().enumerate() {
        let v = value(alloc, context, k as u64, d);
        keep_value(&mut all, first, value_place(d), v)?;
    }
    Ok(all)
}

/// The bodies of functions; those that are refused are noted.
fn bodies(
    alloc: Global,
    context: &Context<'_>,
    functions: &[&Function],
    first: &mut Option<Met>,
) -> Result<Vec<Core>, Memory>
    requires { All (IsNamedFunction (length (known context.now).texts)) (map lent_function functions.now) }
    ensures { IfOk result (λ v. AreTested body_at (body_of_each (known context.now)) (numbered (map lent_function functions.now)) (option_map met_of first.old) (option_map met_of first.new) (map tree v.items)) }
{
    let mut all = Vec::new(alloc);
    for (k, f) in functions.iter().enumerate() {
        let b = body(alloc, context, k as u64, f);
        keep_tree(&mut all, first, expr_place(&f.body), b)?;
    }
    Ok(all)
}

/// Constraints; those that are refused are noted.
fn constraints(
    alloc: Global,
    context: &Context<'_>,
    es: &[&Expr],
    first: &mut Option<Met>,
) -> Result<Vec<Core>, Memory>
    requires { All (IsNamed (length (known context.now).texts)) (map lent_tree es.now) }
    ensures { IfOk result (λ v. AreTested tree_place (constraint (known context.now)) (map lent_tree es.now) (option_map met_of first.old) (option_map met_of first.new) (map tree v.items)) }
{
    let mut all = Vec::new(alloc);
    for e in es {
        let c = constraint(alloc, context, e);
        keep_tree(&mut all, first, expr_place(e), c)?;
    }
    Ok(all)
}

/// Output items; those that are refused are noted.
fn outputs(
    alloc: Global,
    context: &Context<'_>,
    es: &[&Expr],
    first: &mut Option<Met>,
) -> Result<Vec<Core>, Memory>
    requires { All (IsNamed (length (known context.now).texts)) (map lent_tree es.now) }
    ensures { IfOk result (λ v. AreTested tree_place (output (known context.now)) (map lent_tree es.now) (option_map met_of first.old) (option_map met_of first.new) (map tree v.items)) }
{
    let mut all = Vec::new(alloc);
    for e in es {
        let o = output(alloc, context, e);
        keep_tree(&mut all, first, expr_place(e), o)?;
    }
    Ok(all)
}

/// The place of the objective.
fn goal_place(g: &Goal) -> Option<Span>
    ensures { places result ≡ goal_place (goal_of g.now) }
{
    match g {
        Goal::Satisfy => None,
        Goal::Minimize(e) => Some(expr_place(e)),
        Goal::Maximize(e) => Some(expr_place(e)),
    }
}

/// What is asked for; where it is refused at this place, that is noted, and `Satisfy` is given.
fn kept_goal(
    goal: Result<CoreGoal, Stop>,
    at: Span,
    first: &mut Option<Met>,
) -> Result<CoreGoal, Memory>
    ensures { IfOk result (λ v. IsGoalKept goal at v (option_map met_of first.old) (option_map met_of first.new)) }
{
    match goal {
        Ok(g) => Ok(g),
        Err(stop) => {
            note(first, at, stop)?;
            Ok(CoreGoal::Satisfy)
        }
    }
}

/// What a solve item asks for; where it is refused, that is noted.
fn asked_goal(
    alloc: Global,
    context: &Context<'_>,
    g: &Goal,
    first: &mut Option<Met>,
) -> Result<CoreGoal, Memory>
    requires { IsNamedGoal (length (known context.now).texts) (goal_of g.now) }
    ensures { IfOk result (λ v. IsGoalTested (known context.now) (goal_of g.now) (option_map met_of first.old) (option_map met_of first.new) (typed_goal v)) }
{
    match goal_place(g) {
        None => Ok(CoreGoal::Satisfy),
        Some(at) => {
            let o = goal(alloc, context, g);
            let kept = kept_goal(o, at, first)?;
            Ok(kept)
        }
    }
}

/// What is asked for; where it is refused, that is noted. Without a solve item, to satisfy.
fn objective(
    alloc: Global,
    context: &Context<'_>,
    g: Option<&Goal>,
    first: &mut Option<Met>,
) -> Result<CoreGoal, Memory>
    requires { IsNamedGoal (length (known context.now).texts) (asked g) }
    ensures { IfOk result (λ v. IsGoalTested (known context.now) (asked g.entry) (option_map met_of first.old) (option_map met_of first.new) (typed_goal v)) }
{
    match g {
        None => Ok(CoreGoal::Satisfy),
        Some(g) => asked_goal(alloc, context, g, first),
    }
}

/// All values, bodies and items, typed each for itself; those that are refused are noted.
fn all_items(
    alloc: Global,
    scoped: &Scoped<'_>,
    context: &Context<'_>,
    first: &mut Option<Met>,
) -> Result<TypedItems, Memory>
    requires { AreNamed (length (known context.now).texts) (scoped_tree scoped.now) }
    ensures { IfOk result (λ p. AreAllTested (scoped_tree scoped.now) (known context.now) (option_map met_of first.old) (option_map met_of first.new) (parts p)) }
{
    let values = values(alloc, context, scoped.decls.as_slice(), first)?;
    let bodies = bodies(alloc, context, scoped.functions.as_slice(), first)?;
    let constraints = constraints(alloc, context, scoped.constraints.as_slice(), first)?;
    let goal = objective(alloc, context, scoped.goal, first)?;
    let outputs = outputs(alloc, context, scoped.outputs.as_slice(), first)?;
    Ok(TypedItems {
        values,
        bodies,
        constraints,
        goal,
        outputs,
    })
}

/// All values, bodies and items. The fault that is met first is the answer, if there is one.
pub(crate) fn typed_items(
    alloc: Global,
    scoped: &Scoped<'_>,
    context: &Context<'_>,
) -> Result<TypedItems, Stop>
    requires { AreNamed (length (known context.now).texts) (scoped_tree scoped.now) }
    ensures met { Passes (λ _. tt) result (none_met (items_met (scoped_tree scoped.now) (known context.now))) }
    ensures typed { IfOk result (λ p. AreParts (scoped_tree scoped.now) (known context.now) (parts p)) }
{
    let mut first = None;
    let items = all_items(alloc, scoped, context, &mut first)?;
    passed(first)?;
    Ok(items)
}
