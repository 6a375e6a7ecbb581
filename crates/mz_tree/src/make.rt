// Expressions and their parts, made from parts that are there.

ghost use Rattle.std.specs.Prelude.{◌≡◌, IfOk, map};
ghost use Rattle.std.specs.Option.{option_map};
ghost use Rattle.mz_tree.specs.Tree.{node, int, bool, absent, text, ident, interp, unary, chain, call, gen_call, access, array, rows, set, array_comp, set_comp, choice, let_in, trees, links, rows_of, branches, parts, gens, lets, maybe};
ghost use Rattle.mz_tree.specs.Views.{tree, part, generator, let_of, link, branch, tree_row};

use crate::expr::{Expr, Form, Gen, LetItem, PlacedOp, TextPart, UnOp};
use mz_base::{Name, Span};
use std::alloc::{AllocError, Global};

pub fn make_int(span: Span, n: i64) -> Expr
    ensures { tree result ≡ node span (int n) }
{
    Expr {
        span,
        form: Form::Int(n),
    }
}

pub fn make_bool(span: Span, b: bool) -> Expr
    ensures { tree result ≡ node span (bool b) }
{
    Expr {
        span,
        form: Form::Bool(b),
    }
}

/// `<>`
pub fn make_absent(span: Span) -> Expr
    ensures { tree result ≡ node span absent }
{
    Expr {
        span,
        form: Form::Absent,
    }
}

pub fn make_text(span: Span, content: Name) -> Expr
    ensures { tree result ≡ node span (text content) }
{
    Expr {
        span,
        form: Form::Text(content),
    }
}

pub fn make_ident(span: Span, name: Name) -> Expr
    ensures { tree result ≡ node span (ident name) }
{
    Expr {
        span,
        form: Form::Ident(name),
    }
}

/// A text with interpolation.
pub fn make_interp(span: Span, pieces: Vec<TextPart>) -> Expr
    ensures { tree result ≡ node span (interp (parts (map part pieces.items))) }
{
    Expr {
        span,
        form: Form::Interp(pieces),
    }
}

pub fn make_unary(alloc: Global, span: Span, op: UnOp, operand: Expr) -> Result<Expr, AllocError>
    ensures { IfOk result (λ e. tree e ≡ node span (unary op (tree operand))) }
{
    let operand = Box::new(alloc, operand)?;
    Ok(Expr {
        span,
        form: Form::Unary(op, operand),
    })
}

/// Operators of one level in a row, each with the operand after it.
pub fn make_chain(
    alloc: Global,
    span: Span,
    first: Expr,
    steps: Vec<(PlacedOp, Expr)>,
) -> Result<Expr, AllocError>
    ensures { IfOk result (λ e. tree e ≡ node span (chain (tree first) (links (map link steps.items)))) }
{
    let first = Box::new(alloc, first)?;
    Ok(Expr {
        span,
        form: Form::Chain(first, steps),
    })
}

pub fn make_call(span: Span, name: Name, args: Vec<Expr>) -> Expr
    ensures { tree result ≡ node span (call name (trees (map tree args.items))) }
{
    Expr {
        span,
        form: Form::Call(name, args),
    }
}

/// `name(generators)(body)`
pub fn make_gen_call(
    alloc: Global,
    span: Span,
    name: Name,
    generators: Vec<Gen>,
    body: Expr,
) -> Result<Expr, AllocError>
    ensures { IfOk result (λ e. tree e ≡ node span (gen_call name (gens (map generator generators.items)) (tree body))) }
{
    let body = Box::new(alloc, body)?;
    Ok(Expr {
        span,
        form: Form::GenCall(name, generators, body),
    })
}

pub fn make_access(
    alloc: Global,
    span: Span,
    of: Expr,
    indices: Vec<Expr>,
) -> Result<Expr, AllocError>
    ensures { IfOk result (λ e. tree e ≡ node span (access (tree of) (trees (map tree indices.items)))) }
{
    let of = Box::new(alloc, of)?;
    Ok(Expr {
        span,
        form: Form::Access(of, indices),
    })
}

pub fn make_array(span: Span, elements: Vec<Expr>) -> Expr
    ensures { tree result ≡ node span (array (trees (map tree elements.items))) }
{
    Expr {
        span,
        form: Form::Array(elements),
    }
}

/// An array literal of two dimensions.
pub fn make_rows(span: Span, lines: Vec<Vec<Expr>>) -> Expr
    ensures { tree result ≡ node span (rows (rows_of (map tree_row lines.items))) }
{
    Expr {
        span,
        form: Form::Rows(lines),
    }
}

pub fn make_set(span: Span, elements: Vec<Expr>) -> Expr
    ensures { tree result ≡ node span (set (trees (map tree elements.items))) }
{
    Expr {
        span,
        form: Form::Set(elements),
    }
}

pub fn make_array_comp(
    alloc: Global,
    span: Span,
    head: Expr,
    generators: Vec<Gen>,
) -> Result<Expr, AllocError>
    ensures { IfOk result (λ e. tree e ≡ node span (array_comp (tree head) (gens (map generator generators.items)))) }
{
    let head = Box::new(alloc, head)?;
    Ok(Expr {
        span,
        form: Form::ArrayComp(head, generators),
    })
}

pub fn make_set_comp(
    alloc: Global,
    span: Span,
    head: Expr,
    generators: Vec<Gen>,
) -> Result<Expr, AllocError>
    ensures { IfOk result (λ e. tree e ≡ node span (set_comp (tree head) (gens (map generator generators.items)))) }
{
    let head = Box::new(alloc, head)?;
    Ok(Expr {
        span,
        form: Form::SetComp(head, generators),
    })
}

/// Conditions, each with its branch, and an `else` where there is one.
pub fn make_if(
    alloc: Global,
    span: Span,
    cases: Vec<(Expr, Expr)>,
    other: Option<Expr>,
) -> Result<Expr, AllocError>
    ensures { IfOk result (λ e. tree e ≡ node span (choice (branches (map branch cases.items)) (maybe (option_map tree other)))) }
{
    let other = match other {
        None => None,
        Some(other) => Some(Box::new(alloc, other)?),
    };
    Ok(Expr {
        span,
        form: Form::If(cases, other),
    })
}

pub fn make_let(
    alloc: Global,
    span: Span,
    items: Vec<LetItem>,
    body: Expr,
) -> Result<Expr, AllocError>
    ensures { IfOk result (λ e. tree e ≡ node span (let_in (lets (map let_of items.items)) (tree body))) }
{
    let body = Box::new(alloc, body)?;
    Ok(Expr {
        span,
        form: Form::Let(items, body),
    })
}
