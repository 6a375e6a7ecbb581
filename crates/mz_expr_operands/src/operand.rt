// Operands: expressions that may become generators of a call.

ghost use Rattle.std.specs.Prelude.{◌≡◌, ◌<◌, IfOk, map, length};
ghost use Rattle.mz_tree.specs.Views.{tree, link};
ghost use Rattle.mz_tree.specs.Tree as pure;
ghost use Rattle.mz_tree.specs.Tree.{node, chain};
ghost use Rattle.mz_grammar.specs.Parts as pure_parts;
ghost use Rattle.mz_grammar.specs.Parts.{at_of, tree_of, chained};
ghost use Rattle.mz_grammar.specs.Model.{accessed, unless_annotated};
ghost use Rattle.mz_expr_operands.specs.Views.{operand, is_one_member};

use mz_base::{Name, OneDrop, Span};
use mz_tree::{BinOp, Expr, PlacedOp, make_access, make_chain, make_ident};
use std::alloc::{AllocError, Global};

/// An expression, with the place of its first token. A name alone, and a name in a set, may become generators of a call.
#[derive(Drop)]
pub enum Operand {
    /// An identifier.
    Name(Name, Span),
    /// An identifier, `in` and what follows it, each with its place.
    Member(Name, Span, Span, OneDrop<Expr>),
    /// Any other expression.
    Other(Span, OneDrop<Expr>),
}

/// An expression that is no name, with the place of its first token.
pub fn other(at: Span, e: Expr) -> Operand
    ensures { operand result ≡ pure_parts.other at (tree e) }
{
    Operand::Other(at, OneDrop::new(e))
}

impl Operand {
    /// The place of the first token.
    pub fn at(&self) -> Span
        ensures { result ≡ at_of (operand self.now) }
    {
        match self {
            Operand::Name(_, at) => *at,
            Operand::Member(_, at, _, _) => *at,
            Operand::Other(at, _) => *at,
        }
    }

    /// The tree of the expression.
    pub fn into_expr(self, alloc: Global) -> Result<Expr, AllocError>
        ensures { IfOk result (λ e. tree e ≡ tree_of (operand self)) }
    {
        match self {
            Operand::Name(name, at) => Ok(make_ident(at, name)),
            Operand::Member(name, at, start, set) => {
                let mut links = Vec::with_capacity(alloc, 1)?;
                let op = PlacedOp {
                    op: BinOp::Member,
                    start,
                };
                links.push((op, set.take()))?;
                make_chain(alloc, at, make_ident(at, name), links)
            }
            Operand::Other(_, e) => Ok(e.take()),
        }
    }
}

/// An operand with the operators of one level after it.
pub fn chained(
    alloc: Global,
    first: Operand,
    links: Vec<(PlacedOp, Expr)>,
) -> Result<Operand, AllocError>
    ensures { IfOk result (λ x. operand x ≡ chained (operand first) (map link links.items)) }
{
    if links.is_empty() {
        return Ok(first);
    }
    match first {
        Operand::Name(name, at) => related(alloc, name, at, links),
        Operand::Member(name, at, start, set) => {
            linked(alloc, Operand::Member(name, at, start, set), links)
        }
        Operand::Other(at, e) => linked(alloc, Operand::Other(at, e), links),
    }
}

/// An expression with operators after it.
fn linked(
    alloc: Global,
    first: Operand,
    links: Vec<(PlacedOp, Expr)>,
) -> Result<Operand, AllocError>
    ensures { IfOk result (λ x. operand x ≡ pure_parts.other (at_of (operand first)) (node (at_of (operand first)) (chain (tree_of (operand first)) (pure.links (map link links.items))))) }
{
    let at = first.at();
    let operand = first.into_expr(alloc)?;
    Ok(other(at, make_chain(alloc, at, operand, links)?))
}

/// A name with operators after it.
fn related(
    alloc: Global,
    name: Name,
    at: Span,
    links: Vec<(PlacedOp, Expr)>,
) -> Result<Operand, AllocError>
    requires { 0 < length links.items }
    ensures { IfOk result (λ x. operand x ≡ chained (pure_parts.name name at) (map link links.items)) }
{
    if !is_member(links.as_slice()) {
        return linked(alloc, Operand::Name(name, at), links);
    }
    let mut links = links;
    match links.pop() {
        None => Ok(Operand::Name(name, at)),
        Some((o, set)) => Ok(Operand::Member(name, at, o.start, OneDrop::new(set))),
    }
}

/// Whether this is one `in` with its operand.
fn is_member(links: &[(PlacedOp, Expr)]) -> bool
    ensures { result ≡ is_one_member (map link links.now) }
{
    match links {
        [(o, _)] => matches!(o.op, BinOp::Member),
        _ => false,
    }
}

/// An expression with the indices of an access after it.
pub fn accessed(alloc: Global, x: Operand, indices: Vec<Expr>) -> Result<Operand, AllocError>
    ensures { IfOk result (λ y. operand y ≡ accessed (operand x) (map tree indices.items)) }
{
    let at = x.at();
    let of = x.into_expr(alloc)?;
    Ok(other(at, make_access(alloc, at, of, indices)?))
}

/// An annotation keeps a name from being a generator's.
pub fn unless_annotated(alloc: Global, annotated: bool, x: Operand) -> Result<Operand, AllocError>
    ensures { IfOk result (λ y. operand y ≡ unless_annotated annotated (operand x)) }
{
    if !annotated {
        return Ok(x);
    }
    let at = x.at();
    Ok(other(at, x.into_expr(alloc)?))
}
