// The types of functions: of the parameters, each visible from its own end on, and of the result.

ghost use Rattle.std.specs.Prelude.{◌≡◌, ◌<◌, ◌++◌, ◌∷◌, [], None, All, OnOk, length, map};
ghost use Rattle.mz_core.specs.TreeViews.{decl, declared_type};
ghost use Rattle.mz_tree.specs.declared.expr.Form.TheViews.{out-Decl};
ghost use Rattle.mz_tree.specs.Views.{declaration, written};
ghost use Rattle.mz_tree.specs.Items.{function_of};
ghost use Rattle.mz_check_meaning.specs.Tests.{loop};
ghost use Rattle.mz_check_meaning.specs.Models.{bind};
ghost use Rattle.mz_check_meaning.specs.Lets.{new_name, decl_of};
ghost use Rattle.mz_check_meaning.specs.Headings.{heading, param_next};
ghost use Rattle.mz_check_meaning.specs.Passes.{Passes};
ghost use Rattle.mz_check_context.specs.Headings.{heading as seen_heading};
ghost use Rattle.mz_check_context.specs.Known.{known};
ghost use Rattle.mz_check_exprs.specs.Naming.{IsNamedType};
ghost use Rattle.mz_check_exprs.specs.NamedModels.{IsNamedDeclaration, IsNamedFunction};
ghost use Rattle.mz_check_exprs.specs.StepsHeadings.{parameters, param_by};

use crate::check_written;
use mz_base::{Kind, Memory, Name, Span, Stop};
use mz_check_context::{Context, Heading, Scope};
use mz_check_forms::{make_declaration, refusal};
use mz_core::{CoreDecl, CoreType, copy_type};
use mz_tree::{Decl, Function};
use std::alloc::Global;

/// Tests that a name is new since a slot was the next. DuplicateName at it, where it isn't.
fn new_name(scope: &Scope, start: u64, name: Name, span: Span) -> Result<(), Stop>
    ensures { Passes (λ _. tt) result (new_name start name span scope.now) }
{
    if scope.is_bound_since(start, name) {
        return Err(refusal(Kind::DuplicateName, span));
    }
    Ok(())
}

/// Adds a parameter with the next slot, and binds its name.
fn add_param(
    alloc: Global,
    name: Name,
    span: Span,
    ty: CoreType,
    all: &mut Vec<CoreDecl>,
    scope: &mut Scope,
) -> Result<(), Memory>
    ensures { OnOk result (parameters all.new.items scope.new ≡ record { params = map decl all.old.items ++ decl_of scope.old name span (declared_type ty) None ∷ []; env = bind name (declared_type ty).ty scope.old }) }
{
    let slot = scope.next();
    let bound_type = copy_type(alloc, &ty.ty)?;
    all.push(make_declaration(slot, name, span, ty, None))?;
    scope.bind(name, bound_type)
}

/// Adds a parameter of this type, name and place, which is in scope from then on.
fn param_by(
    alloc: Global,
    context: &Context<'_>,
    start: u64,
    p: &Decl,
    all: &mut Vec<CoreDecl>,
    scope: &mut Scope,
) -> Result<(), Stop>
    requires { IsNamedType (length (known context.now).texts) (written (out-Decl p.now).ty) }
    ensures { Passes (λ _. parameters all.new.items scope.new) result (param_by (known context.now) start (parameters all.old.items scope.old) (written (out-Decl p.now).ty) (out-Decl p.now).name (out-Decl p.now).span) }
{
    let ty = check_written(alloc, context, scope, &p.ty)?;
    new_name(scope, start, p.name, p.span)?;
    Ok(add_param(alloc, p.name, p.span, ty, all, scope)?)
}

/// Adds a parameter, which is in scope from then on.
fn next_param(
    alloc: Global,
    context: &Context<'_>,
    start: u64,
    p: &Decl,
    all: &mut Vec<CoreDecl>,
    scope: &mut Scope,
) -> Result<(), Stop>
    requires { IsNamedDeclaration (length (known context.now).texts) (declaration p.now) }
    ensures { Passes (λ _. parameters all.new.items scope.new) result (param_next (known context.now) start (parameters all.old.items scope.old) (declaration p.now)) }
{
    param_by(alloc, context, start, p, all, scope)
}

/// The parameters of a function, which are in scope from then on.
fn all_params(
    alloc: Global,
    context: &Context<'_>,
    ps: &[Decl],
    scope: &mut Scope,
) -> Result<Vec<CoreDecl>, Stop>
    requires { All (IsNamedDeclaration (length (known context.now).texts)) (map declaration ps.now) }
    ensures { Passes (λ v. parameters v.items scope.new) result (loop (param_next (known context.now) scope.old.next) (parameters [] scope.old) (map declaration ps.now)) }
{
    let start = scope.next();
    let mut all = Vec::new(alloc);
    for p in ps {
        next_param(alloc, context, start, p, &mut all, scope)?;
    }
    Ok(all)
}

/// The types of a function.
#[tactic(auto, unfolding(mz_check_meaning::specs::Headings::heading))]
pub(crate) fn heading(alloc: Global, context: &Context<'_>, f: &Function) -> Result<Heading, Stop>
    requires { IsNamedFunction (length (known context.now).texts) (function_of f.now) }
    ensures { Passes seen_heading result (heading (known context.now) (function_of f.now)) }
{
    let mut scope = context.outermost(alloc);
    let params = all_params(alloc, context, f.params.as_slice(), &mut scope)?;
    let result = check_written(alloc, context, &mut scope, &f.result)?;
    Ok(Heading { params, result })
}
