// Names that generators and lets bind.

ghost use Rattle.std.specs.Prelude.{◌≡◌, ◌∷◌, [], ◌++◌, Ok, OnOk, map};
ghost use Rattle.std.specs.Option.{option_map};
ghost use Rattle.mz_core.specs.Types.{plain_type};
ghost use Rattle.mz_core.specs.Tree.{declares};
ghost use Rattle.mz_core.specs.TreeViews.{tree, declared_type};
ghost use Rattle.mz_check_meaning.specs.Models.{bind};
ghost use Rattle.mz_check_meaning.specs.Comprehensions.{bind_next, bind_names};
ghost use Rattle.mz_check_meaning.specs.Lets.{new_name, decl_of};
ghost use Rattle.mz_check_meaning.specs.Passes.{Passes};
ghost use Rattle.mz_check_context.specs.Extending.{Extends};
ghost use Rattle.mz_check_context.specs.Views.{typed_item};
ghost use Rattle.mz_check_exprs.specs.Views.{bound, declared_in};

use mz_base::{Kind, Memory, Name, Span, Stop};
use mz_check_context::{Scope, TypedItem};
use mz_check_forms::{make_declaration, refusal};
use mz_core::{Core, CoreType, TypeInst, copy_type};
use std::alloc::Global;

/// Tests that a name is new since a slot was the next. DuplicateName at it, where it isn't.
#[inline(never)]
pub(crate) fn new_name(scope: &Scope, start: u64, name: Name, span: Span) -> Result<(), Stop>
    ensures { Passes (λ _. tt) result (new_name start name span scope.now) }
{
    if scope.is_bound_since(start, name) {
        return Err(refusal(Kind::DuplicateName, span));
    }
    Ok(())
}

/// One more name of a generator, and its slot.
fn bind_next(
    alloc: Global,
    start: u64,
    ty: &TypeInst,
    n: (Name, Span),
    slots: &mut Vec<u64>,
    scope: &mut Scope,
) -> Result<(), Stop>
    ensures passes { Passes (λ _. bound slots.new.items scope.new) result (bind_next start (plain_type ty.now) (bound slots.old.items scope.old) n) }
    ensures binds { OnOk result (scope.new ≡ bind n.0 (plain_type ty.now) scope.old) }
{
    new_name(scope, start, n.0, n.1)?;
    slots.push(scope.next())?;
    scope.bind(n.0, copy_type(alloc, ty)?)?;
    Ok(())
}

/// Binds the names of a generator to this type, and gives their slots. DuplicateName at a name that was bound since `start` was the
/// next slot.
#[inline(never)]
#[tactic(auto, unfolding(mz_check_meaning::specs::Comprehensions::bind_names))]
pub(crate) fn bind_names(
    alloc: Global,
    start: u64,
    ty: &TypeInst,
    names: &[(Name, Span)],
    scope: &mut Scope,
) -> Result<Vec<u64>, Stop>
    ensures passes { Passes (λ v. bound v.items scope.new) result (bind_names start (plain_type ty.now) names.now scope.old) }
    ensures extends { OnOk result (Extends scope.old scope.new) }
{
    let mut slots = Vec::new(alloc);
    for n in names {
        bind_next(alloc, start, ty, *n, &mut slots, scope)?;
    }
    Ok(slots)
}

/// Adds a declaration with the next slot, and binds its name.
#[inline(never)]
pub(crate) fn add_declaration(
    alloc: Global,
    name: Name,
    span: Span,
    ty: CoreType,
    value: Option<Core>,
    all: &mut Vec<TypedItem>,
    scope: &mut Scope,
) -> Result<(), Memory>
    ensures adds { OnOk result (declared_in all.new.items scope.new ≡ record { items = map typed_item all.old.items ++ declares (decl_of scope.old name span (declared_type ty) (option_map tree value)) ∷ []; env = bind name (declared_type ty).ty scope.old }) }
    ensures binds { OnOk result (scope.new ≡ bind name (declared_type ty).ty scope.old) }
{
    let slot = scope.next();
    let bound_type = copy_type(alloc, &ty.ty)?;
    all.push(TypedItem::Decl(make_declaration(slot, name, span, ty, value)))?;
    scope.bind(name, bound_type)
}
