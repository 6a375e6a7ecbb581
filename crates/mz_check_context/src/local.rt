// Lets.

ghost use Rattle.std.specs.Prelude.{◌≡◌, IfOk, map};
ghost use Rattle.std.specs.List.{list_any};
ghost use Rattle.mz_core.specs.TreeViews.{tree, item, decl};
ghost use Rattle.mz_check_meaning.specs.Tests.{each};
ghost use Rattle.mz_check_meaning.specs.Lets.{is_var_item, item_fitted, let_node};
ghost use Rattle.mz_check_meaning.specs.Passes.{Passes};
ghost use Rattle.mz_check_context.specs.Views.{typed_item};

use mz_base::{Memory, Span, Stop};
use mz_check_forms::{
    allowed_at, coerced, condition, is_var, made_var, make_constraint, make_let, make_local,
    type_of, var_of,
};
use mz_core::{Core, CoreDecl, CoreItem, copy_type};
use std::alloc::Global;

/// An item of a `let` with its typed parts: a declaration, or a constraint that isn't tested yet.
#[derive(Drop)]
pub enum TypedItem {
    Decl(CoreDecl),
    Constraint(Core),
}

/// Whether a declaration's type is var.
fn is_var_decl(d: &CoreDecl) -> bool
    ensures { result ≡ (decl d.now).ty.ty.var }
{
    var_of(&d.ty.ty)
}

fn is_var_item(i: &TypedItem) -> bool
    ensures { result ≡ is_var_item (typed_item i.now) }
{
    match i {
        TypedItem::Decl(d) => is_var_decl(d),
        TypedItem::Constraint(e) => is_var(e),
    }
}

fn some_var_item(is: &[TypedItem]) -> bool
    ensures { result ≡ list_any is_var_item (map typed_item is.now) }
{
    for i in is {
        if is_var_item(i) {
            return true;
        }
    }
    false
}

/// The item; a constraint is coerced to a Boolean. TypeMismatch at a constraint that is none.
fn item_fitted(alloc: Global, i: TypedItem) -> Result<TypedItem, Stop>
    ensures { Passes typed_item result (item_fitted (typed_item i)) }
{
    match i {
        TypedItem::Decl(d) => Ok(TypedItem::Decl(d)),
        TypedItem::Constraint(e) => Ok(TypedItem::Constraint(condition(alloc, e)?)),
    }
}

/// Each item; constraints are coerced to Booleans. TypeMismatch at the first constraint that is none.
fn items_fitted(alloc: Global, is: Vec<TypedItem>) -> Result<Vec<TypedItem>, Stop>
    ensures { Passes (λ v. map typed_item v.items) result (each item_fitted (map typed_item is.items)) }
{
    let mut all = Vec::new(alloc);
    for i in is {
        all.push(item_fitted(alloc, i)?)?;
    }
    Ok(all)
}

/// The item, as the typed tree keeps it.
fn kept_item(i: TypedItem) -> CoreItem
    ensures { item result ≡ typed_item i }
{
    match i {
        TypedItem::Decl(d) => make_local(d),
        TypedItem::Constraint(e) => make_constraint(e),
    }
}

fn kept_items(alloc: Global, is: Vec<TypedItem>) -> Result<Vec<CoreItem>, Memory>
    ensures { IfOk result (λ v. map item v.items ≡ map typed_item is.items) }
{
    let mut all = Vec::new(alloc);
    for i in is {
        all.push(kept_item(i))?;
    }
    Ok(all)
}

/// A `let` with its typed items and body. TypeMismatch at the first constraint that is no Boolean, and at the `let` where it would be of no
/// type.
#[inline(never)]
#[tactic(auto, unfolding(mz_check_meaning::specs::Lets::let_node))]
pub fn let_node(alloc: Global, span: Span, is: Vec<TypedItem>, e: Core) -> Result<Core, Stop>
    ensures { Passes tree result (let_node span (map typed_item is.items) (tree e)) }
{
    let var = some_var_item(&is);
    let fitted = items_fitted(alloc, is)?;
    let ty = allowed_at(span, made_var(var, copy_type(alloc, type_of(&e))?))?;
    let items = kept_items(alloc, fitted)?;
    let body = coerced(alloc, e, &ty)?;
    Ok(make_let(alloc, span, ty, items, body)?)
}
