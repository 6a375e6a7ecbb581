// Values, bodies, constraints, the objective and output items, each for itself.

ghost use Rattle.std.specs.Prelude.{◌≡◌, length, map, IfOk, OnOk};
ghost use Rattle.std.specs.Option.{option_map};
ghost use Rattle.mz_core.specs.Types.{plain_type};
ghost use Rattle.mz_core.specs.TreeViews.{tree, decl};
ghost use Rattle.mz_core.specs.Program.{goal as typed_goal};
ghost use Rattle.mz_tree.specs.Views.{tree as source};
ghost use Rattle.mz_tree.specs.Tree.{just};
ghost use Rattle.mz_tree.specs.Items.{function_of, goal as goal_of};
ghost use Rattle.mz_scope_order.specs.Scoped.{scoped_decl, lent_tree};
ghost use Rattle.mz_check_meaning.specs.Checks.{tree_place, value_place};
ghost use Rattle.mz_check_meaning.specs.Models.{bind};
ghost use Rattle.mz_check_meaning.specs.Items.{value_of, constraint, objective, goal, output, with_params, texts_like, texts_fitted};
ghost use Rattle.mz_check_meaning.specs.Passes.{Passes};
ghost use Rattle.mz_check_context.specs.Known.{known};
ghost use Rattle.mz_check_exprs.specs.Naming.{IsNamed};
ghost use Rattle.mz_check_exprs.specs.NamedModels.{IsNamedDeclaration, IsNamedFunction, IsNamedGoal};
ghost use Rattle.mz_check.specs.StepsParts.{IsNamedValue, value_by, value_in, body_in, place_or};

use mz_base::{Memory, Span, Stop};
use mz_check_context::{Context, Scope, param_type, type_in};
use mz_check_exprs::check as check_expression;
use mz_check_forms::{
    condition, dims_of, fitted, is_scalar, mismatch, place_of, type_of, typed_as,
};
use mz_core::{Base, Core, CoreDecl, CoreGoal, TypeInst, copy_type, make_type};
use mz_scope_order::ScopedDecl;
use mz_tree::{Expr, Function, Goal};
use std::alloc::Global;

/// An expression as the value of a declaration of this type.
fn value_below(
    alloc: Global,
    context: &Context<'_>,
    t: &TypeInst,
    e: &Expr,
) -> Result<Option<Core>, Stop>
    requires { IsNamed (length (known context.now).texts) (source e.now) }
    ensures { Passes (option_map tree) result (value_of (known context.now) (plain_type t.now) (just (source e.now))) }
{
    let mut scope = context.outermost(alloc);
    let v = check_expression(alloc, context, &mut scope, e)?;
    let w = fitted(alloc, v, t)?;
    Ok(Some(w))
}

/// The value of a declaration at this place, which is below its type.
fn value_by(
    alloc: Global,
    context: &Context<'_>,
    number: u64,
    span: Span,
    e: Option<&Expr>,
) -> Result<Option<Core>, Stop>
    requires { IsNamedValue (length (known context.now).texts) (option_map lent_tree e) }
    ensures { Passes (option_map tree) result (value_by (known context.now) number span (option_map lent_tree e.entry)) }
{
    let t = context.type_of_decl(span, number)?;
    match e {
        None => Ok(None),
        Some(e) => value_below(alloc, context, type_in(t), e),
    }
}

/// The value of a declaration, which is below its type.
pub(crate) fn value(
    alloc: Global,
    context: &Context<'_>,
    number: u64,
    d: &ScopedDecl<'_>,
) -> Result<Option<Core>, Stop>
    requires { IsNamedDeclaration (length (known context.now).texts) (scoped_decl d.now) }
    ensures { Passes (option_map tree) result (value_in (known context.now) number (scoped_decl d.now)) }
{
    value_by(alloc, context, number, d.decl.span, d.value)
}

/// A parameter comes into scope.
fn bind_param(alloc: Global, scope: &mut Scope, d: &CoreDecl) -> Result<(), Memory>
    ensures { OnOk result (scope.new ≡ bind (decl d.now).name (decl d.now).ty.ty scope.old) }
{
    let ty = copy_type(alloc, param_type(d))?;
    scope.bind(d.name, ty)
}

/// The parameters come into scope.
#[tactic(auto, unfolding(mz_check_meaning::specs::Items::with_params))]
fn bind_params(alloc: Global, scope: &mut Scope, params: &[CoreDecl]) -> Result<(), Memory>
    ensures { OnOk result (scope.new ≡ with_params (map decl params.now) scope.old) }
{
    for d in params {
        bind_param(alloc, scope, d)?;
    }
    Ok(())
}

/// The body of a function, which is below its result.
pub(crate) fn body(
    alloc: Global,
    context: &Context<'_>,
    number: u64,
    f: &Function,
) -> Result<Core, Stop>
    requires { IsNamedFunction (length (known context.now).texts) (function_of f.now) }
    ensures { Passes tree result (body_in (known context.now) number (function_of f.now)) }
{
    let h = context.heading_of(f.span, number)?;
    let mut scope = context.outermost(alloc);
    bind_params(alloc, &mut scope, h.params.as_slice())?;
    let e = check_expression(alloc, context, &mut scope, &f.body)?;
    fitted(alloc, e, type_in(&h.result))
}

/// A constraint: a Boolean.
#[tactic(auto, unfolding(mz_check_meaning::specs::Items::constraint))]
pub(crate) fn constraint(alloc: Global, context: &Context<'_>, e: &Expr) -> Result<Core, Stop>
    requires { IsNamed (length (known context.now).texts) (source e.now) }
    ensures { Passes tree result (constraint (known context.now) (source e.now)) }
{
    let mut scope = context.outermost(alloc);
    let c = check_expression(alloc, context, &mut scope, e)?;
    condition(alloc, c)
}

/// The objective: an integer.
fn objective(alloc: Global, context: &Context<'_>, e: &Expr) -> Result<Core, Stop>
    requires { IsNamed (length (known context.now).texts) (source e.now) }
    ensures { Passes tree result (objective (known context.now) (source e.now)) }
{
    let mut scope = context.outermost(alloc);
    let o = check_expression(alloc, context, &mut scope, e)?;
    let t = typed_as(alloc, &o, Base::Int);
    fitted(alloc, o, &t)
}

/// What is asked for.
#[tactic(auto, unfolding(mz_check_meaning::specs::Items::goal))]
pub(crate) fn goal(alloc: Global, context: &Context<'_>, g: &Goal) -> Result<CoreGoal, Stop>
    requires { IsNamedGoal (length (known context.now).texts) (goal_of g.now) }
    ensures { Passes typed_goal result (goal (known context.now) (goal_of g.now)) }
{
    match g {
        Goal::Satisfy => Ok(CoreGoal::Satisfy),
        Goal::Minimize(e) => {
            let o = objective(alloc, context, e)?;
            Ok(CoreGoal::Minimize(o))
        }
        Goal::Maximize(e) => {
            let o = objective(alloc, context, e)?;
            Ok(CoreGoal::Maximize(o))
        }
    }
}

/// The type of texts in an array with the dimensions of this expression.
fn texts_like(alloc: Global, e: &Core) -> Result<TypeInst, Memory>
    ensures { IfOk result (λ u. plain_type u ≡ texts_like (tree e.now)) }
{
    make_type(alloc, false, false, Base::Text, dims_of(type_of(e)))
}

/// An array of texts, of any number of dimensions. TypeMismatch at what is none.
fn texts_fitted(alloc: Global, e: Core) -> Result<Core, Stop>
    ensures { Passes tree result (texts_fitted (tree e)) }
{
    if is_scalar(type_of(&e)) {
        return Err(mismatch(place_of(&e)));
    }
    let t = texts_like(alloc, &e)?;
    fitted(alloc, e, &t)
}

/// An output item, in which the values of declarations are known.
#[tactic(auto, unfolding(mz_check_meaning::specs::Items::output))]
pub(crate) fn output(alloc: Global, context: &Context<'_>, e: &Expr) -> Result<Core, Stop>
    requires { IsNamed (length (known context.now).texts) (source e.now) }
    ensures { Passes tree result (output (known context.now) (source e.now)) }
{
    let mut scope = context.in_output(alloc);
    let o = check_expression(alloc, context, &mut scope, e)?;
    texts_fitted(alloc, o)
}

/// The place of an expression.
pub(crate) fn expr_place(e: &Expr) -> Span
    ensures { result ≡ tree_place (source e.now) }
{
    e.span
}

/// The place of a value; where there is none, the other place.
fn place_or(at: Span, e: Option<&Expr>) -> Span
    ensures { result ≡ place_or at (option_map lent_tree e.entry) }
{
    match e {
        Some(e) => expr_place(e),
        None => at,
    }
}

/// Where the value of a declaration is met: at the value, which for an assigned one is at the assignment; where it has none, at its name.
pub(crate) fn value_place(d: &ScopedDecl<'_>) -> Span
    ensures { result ≡ value_place (scoped_decl d.now) }
{
    place_or(d.decl.span, d.value)
}
