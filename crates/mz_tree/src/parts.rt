// Declarations, types, generators and pieces of texts, made from parts that are there.

ghost use Rattle.std.specs.Prelude.{◌≡◌, IfOk};
ghost use Rattle.std.specs.Option.{option_map};
ghost use Rattle.mz_tree.specs.Tree as pure;
ghost use Rattle.mz_tree.specs.Views.{tree, part, generator, let_of, declaration, written, based};

use crate::expr::{Decl, Expr, Gen, LetItem, TextPart, TypeBase, TypeText};
use mz_base::{Name, Span};
use std::alloc::{AllocError, Global};

/// A generator.
pub fn make_generator(names: Vec<(Name, Span)>, set: Expr, cond: Option<Expr>) -> Gen
    ensures { generator result ≡ pure.generator names.items (tree set) (pure.maybe (option_map tree cond)) }
{
    Gen { names, set, cond }
}

/// A piece of a text.
pub fn make_plain(content: Name) -> TextPart
    ensures { part result ≡ pure.plain content }
{
    TextPart::Plain(content)
}

/// An expression that is shown in a text.
pub fn make_shown(e: Expr) -> TextPart
    ensures { part result ≡ pure.shown (tree e) }
{
    TextPart::Shown(e)
}

/// A declaration of a `let`.
pub fn make_let_declaration(d: Decl) -> LetItem
    ensures { let_of result ≡ pure.declared (declaration d) }
{
    LetItem::Decl(d)
}

/// A constraint of a `let`.
pub fn make_let_constraint(e: Expr) -> LetItem
    ensures { let_of result ≡ pure.constrained (tree e) }
{
    LetItem::Constraint(e)
}

/// A declaration, with the place of its name.
pub fn make_declaration(ty: TypeText, name: Name, span: Span, value: Option<Expr>) -> Decl
    ensures { declaration result ≡ pure.declaration (written ty) name span (pure.maybe (option_map tree value)) }
{
    Decl {
        ty,
        name,
        span,
        value,
    }
}

/// A type that is no array.
pub fn make_scalar(span: Span, var: bool, opt: bool, set: bool, base: TypeBase) -> TypeText
    ensures { written result ≡ pure.written span pure.no_array var opt set (based base) }
{
    TypeText {
        span,
        dims: None,
        var,
        opt,
        set,
        base,
    }
}

/// `bool`
pub fn make_bool_base() -> TypeBase
    ensures { based result ≡ pure.base_bool }
{
    TypeBase::Bool
}

/// `int`
pub fn make_int_base() -> TypeBase
    ensures { based result ≡ pure.base_int }
{
    TypeBase::Int
}

/// A set, given by an expression.
pub fn make_set_base(alloc: Global, e: Expr) -> Result<TypeBase, AllocError>
    ensures { IfOk result (λ b. based b ≡ pure.base_of (tree e)) }
{
    let e = Box::new(alloc, e)?;
    Ok(TypeBase::Of(e))
}
