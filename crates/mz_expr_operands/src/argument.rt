// The arguments of a call, and the generators that they may be.

ghost use Rattle.std.specs.Prelude.{◌≡◌, IfOk, map, [], ◌∷◌, ◌++◌};
ghost use Rattle.std.specs.Option.{option_map};
ghost use Rattle.mz_tree.specs.Tree.{maybe};
ghost use Rattle.mz_tree.specs.Views.{tree, generator};
ghost use Rattle.mz_grammar.specs.Parts.{unguarded, guarded, strict};
ghost use Rattle.mz_grammar.specs.Arguments.{possible_after, awaits_in, takes_where, unguarded_of, trees_of, role_of, bound, generators_of};
ghost use Rattle.mz_expr_operands.specs.Views.{operand, argument, role, condition};

use crate::operand::Operand;
use mz_base::{Name, OneDrop, Span};
use mz_grammar::Generators;
use mz_tree::{Expr, Gen, make_generator};
use std::alloc::{AllocError, Global};

/// An argument: an expression, one that a `where` makes a generator, or a generator after such a one.
#[derive(Drop)]
pub enum Argument {
    Unguarded(Operand),
    Guarded(Operand, OneDrop<Expr>),
    Strict(OneDrop<Gen>),
}

/// An expression that a `where` makes a generator.
pub fn guarded_argument(x: Operand, cond: Expr) -> Argument
    ensures { argument result ≡ guarded (operand x) (tree cond) }
{
    Argument::Guarded(x, OneDrop::new(cond))
}

/// A generator.
pub fn strict_argument(g: Gen) -> Argument
    ensures { argument result ≡ strict (generator g) }
{
    Argument::Strict(OneDrop::new(g))
}

/// Whether they may still be generators after one more argument.
pub fn possible_after(generators: Generators, x: &Operand) -> Generators
    ensures { result ≡ possible_after generators (operand x.now) }
{
    match generators {
        Generators::Impossible => Generators::Impossible,
        Generators::Possible => possible_with(x),
        Generators::AwaitingIn => possible_with(x),
    }
}

fn possible_with(x: &Operand) -> Generators
    ensures { result ≡ possible_after Generators.Possible (operand x.now) }
{
    match x {
        Operand::Name(_, _) => Generators::AwaitingIn,
        Operand::Member(_, _, _, _) => Generators::Possible,
        Operand::Other(_, _) => Generators::Impossible,
    }
}

/// Whether an `in` may follow a comma.
pub fn awaits_in(generators: Generators) -> bool
    ensures { result ≡ awaits_in generators }
{
    matches!(generators, Generators::AwaitingIn)
}

/// Whether a `where` may follow this argument.
pub fn takes_where(generators: Generators, x: &Operand) -> bool
    ensures { result ≡ takes_where generators (operand x.now) }
{
    match generators {
        Generators::Impossible => false,
        Generators::Possible => is_member(x),
        Generators::AwaitingIn => is_member(x),
    }
}

fn is_member(x: &Operand) -> bool
    ensures { result ≡ takes_where Generators.Possible (operand x.now) }
{
    match x {
        Operand::Name(_, _) => false,
        Operand::Member(_, _, _, _) => true,
        Operand::Other(_, _) => false,
    }
}

fn unguarded_of(arg: Argument) -> Option<Operand>
    ensures { option_map operand result ≡ unguarded_of (argument arg) }
{
    match arg {
        Argument::Unguarded(x) => Some(x),
        Argument::Guarded(_, _) => None,
        Argument::Strict(_) => None,
    }
}

/// The arguments as expressions, if all are.
pub fn exprs_of(alloc: Global, args: Vec<Argument>) -> Result<Option<Vec<Expr>>, AllocError>
    ensures { IfOk result (λ es. option_map (λ v. map tree v.items) es ≡ trees_of (map argument args.items)) }
{
    let mut all = Vec::with_capacity(alloc, args.len())?;
    let mut fit = true;
    for arg in args {
        match unguarded_of(arg) {
            Some(x) => all.push(x.into_expr(alloc)?)?,
            None => fit = false,
        }
    }
    if fit { Ok(Some(all)) } else { Ok(None) }
}

/// What an argument is to the generators of a call.
#[derive(Drop)]
enum Role {
    /// A name that waits for its `in`.
    Waiting(Name, Span),
    /// The names that stand with a set, the set, and what its `where` says.
    Bound(Vec<(Name, Span)>, OneDrop<Expr>, Option<OneDrop<Expr>>),
    Unfit,
}

fn role_of(alloc: Global, arg: Argument) -> Result<Role, AllocError>
    ensures { IfOk result (λ r. role r ≡ role_of (argument arg)) }
{
    match arg {
        Argument::Unguarded(x) => unguarded_role(alloc, x),
        Argument::Guarded(x, cond) => guarded_role(alloc, x, cond),
        Argument::Strict(g) => Ok(strict_role(g.take())),
    }
}

fn unguarded_role(alloc: Global, x: Operand) -> Result<Role, AllocError>
    ensures { IfOk result (λ r. role r ≡ role_of (unguarded (operand x))) }
{
    match x {
        Operand::Name(n, at) => Ok(Role::Waiting(n, at)),
        Operand::Member(n, at, _, set) => bound(alloc, n, at, set, None),
        Operand::Other(_, _) => Ok(Role::Unfit),
    }
}

fn guarded_role(alloc: Global, x: Operand, cond: OneDrop<Expr>) -> Result<Role, AllocError>
    ensures { IfOk result (λ r. role r ≡ role_of (guarded (operand x) (tree cond.value))) }
{
    match x {
        Operand::Name(_, _) => Ok(Role::Unfit),
        Operand::Member(n, at, _, set) => bound(alloc, n, at, set, Some(cond)),
        Operand::Other(_, _) => Ok(Role::Unfit),
    }
}

fn strict_role(g: Gen) -> Role
    ensures { role result ≡ role_of (strict (generator g)) }
{
    let (names, set, cond) = g.into_parts();
    Role::Bound(names, OneDrop::new(set), holding(cond))
}

fn holding(cond: Option<Expr>) -> Option<OneDrop<Expr>>
    ensures { condition result ≡ maybe (option_map tree cond) }
{
    match cond {
        None => None,
        Some(e) => Some(OneDrop::new(e)),
    }
}

/// A condition, if there is one.
pub fn taken(cond: Option<OneDrop<Expr>>) -> Option<Expr>
    ensures { maybe (option_map tree result) ≡ condition cond }
{
    match cond {
        None => None,
        Some(e) => Some(e.take()),
    }
}

fn bound(
    alloc: Global,
    name: Name,
    at: Span,
    set: OneDrop<Expr>,
    cond: Option<OneDrop<Expr>>,
) -> Result<Role, AllocError>
    ensures { IfOk result (λ r. role r ≡ bound ((name, at) ∷ []) (tree set.value) (condition cond)) }
{
    let mut names = Vec::with_capacity(alloc, 1)?;
    names.push((name, at))?;
    Ok(Role::Bound(names, set, cond))
}

/// The arguments as generators, if all are and there is one at least.
pub fn generators_of(alloc: Global, args: Vec<Argument>) -> Result<Option<Vec<Gen>>, AllocError>
    ensures { IfOk result (λ gs. option_map (λ v. map generator v.items) gs ≡ generators_of (map argument args.items)) }
{
    if args.is_empty() {
        return Ok(None);
    }
    let mut all = Vec::new(alloc);
    let mut names = Vec::new(alloc);
    let mut fit = true;
    for arg in args {
        match role_of(alloc, arg)? {
            Role::Waiting(name, at) => names.push((name, at))?,
            Role::Bound(more, set, cond) => {
                let names_of = joined(names, more)?;
                all.push(make_generator(names_of, set.take(), taken(cond)))?;
                names = Vec::new(alloc);
            }
            Role::Unfit => fit = false,
        }
    }
    if fit && names.is_empty() {
        Ok(Some(all))
    } else {
        Ok(None)
    }
}

/// Names, and more names after them.
fn joined(
    names: Vec<(Name, Span)>,
    more: Vec<(Name, Span)>,
) -> Result<Vec<(Name, Span)>, AllocError>
    ensures { IfOk result (λ all. all.items ≡ names.items ++ more.items) }
{
    let mut all = names;
    for name in more {
        all.push(name)?;
    }
    Ok(all)
}
