// What comes after the parts of a comprehension or of a `let`: their names go out of scope, and then their own premises are tested.

ghost use Rattle.std.specs.Prelude.{◌≡◌, ◌<◌, Ok, OnOk, length, map};
ghost use Rattle.mz_core.specs.TreeViews.{tree};
ghost use Rattle.mz_check_meaning.specs.Models.{Env};
ghost use Rattle.mz_check_meaning.specs.Comprehensions.{comprehended};
ghost use Rattle.mz_check_meaning.specs.Lets.{let_node};
ghost use Rattle.mz_check_meaning.specs.Chains.{chain_node};
ghost use Rattle.mz_check_meaning.specs.Passes.{Passes};
ghost use Rattle.mz_check_calls.specs.Views.{chained};
ghost use Rattle.mz_check_context.specs.Known.{known};
ghost use Rattle.mz_check_context.specs.Extending.{Extends};
ghost use Rattle.mz_check_context.specs.Views.{typed_gen, typed_item};
ghost use Rattle.mz_check_exprs.specs.StepsForms.{called_over};

use mz_base::{Name, Span, Stop};
use mz_check_calls::{Chained, applied, chain_node};
use mz_check_context::{Context, Scope, TypedGen, TypedItem, comprehended, let_node};
use mz_core::Core;
use std::alloc::Global;

/// A comprehension with its typed parts. The scope goes back to what it was when it had this many local names.
#[inline(never)]
pub(crate) fn end_comprehension(
    alloc: Global,
    scope: &mut Scope,
    mark: usize,
    span: Span,
    braces: bool,
    gens: Vec<TypedGen>,
    head: Core,
) -> Result<Core, Stop>
    ensures passes { Passes tree result (comprehended span braces (map typed_gen gens.items) (tree head)) }
    ensures left { OnOk result ((env : Env) → Extends env scope.old → mark ≡ length env.locals → scope.new ≡ env) }
{
    scope.leave(mark)?;
    comprehended(alloc, span, braces, gens, head)
}

/// A call of a name with a comprehension, as `forall(i in S)(..)`. The scope goes back to what it was when it had this many local names.
#[inline(never)]
pub(crate) fn end_call(
    alloc: Global,
    context: &Context<'_>,
    scope: &mut Scope,
    mark: usize,
    span: Span,
    name: Name,
    gens: Vec<TypedGen>,
    head: Core,
) -> Result<Core, Stop>
    requires { name < length (known context.now).texts }
    ensures passes { Passes tree result (called_over (known context.now) span name (map typed_gen gens.items) (tree head)) }
    ensures left { OnOk result ((env : Env) → Extends env scope.old → mark ≡ length env.locals → scope.new ≡ env) }
{
    let list = end_comprehension(alloc, scope, mark, span, false, gens, head)?;
    let args = vec![in alloc; list]?;
    applied(alloc, context, span, name, args)
}

/// A `let` with its typed parts. The scope goes back to what it was when it had this many local names.
#[inline(never)]
pub(crate) fn end_let(
    alloc: Global,
    scope: &mut Scope,
    mark: usize,
    span: Span,
    items: Vec<TypedItem>,
    body: Core,
) -> Result<Core, Stop>
    ensures passes { Passes tree result (let_node span (map typed_item items.items) (tree body)) }
    ensures left { OnOk result ((env : Env) → Extends env scope.old → mark ≡ length env.locals → scope.new ≡ env) }
{
    scope.leave(mark)?;
    let_node(alloc, span, items, body)
}

/// A chain with its first operand and its typed operators.
#[inline(never)]
pub(crate) fn end_chain(alloc: Global, span: Span, first: Core, done: Chained) -> Result<Core, Stop>
    ensures { Passes tree result (Ok (chain_node span (tree first) (chained done))) }
{
    Ok(chain_node(alloc, span, first, done)?)
}
