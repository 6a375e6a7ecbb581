// Where a free local may be evaluated: the contexts of an expression's parts.

ghost use Rattle.std.specs.Prelude.{◌≡◌, ◌∷◌, ◌||◌, IfOk, map};
ghost use Rattle.mz_core.specs.Paths.{path_links};
ghost use Rattle.mz_core.specs.Tree.{root_coercions};
ghost use Rattle.mz_core.specs.TreeViews.{tree};
ghost use Rattle.mz_meaning.specs.Cells as cells;
ghost use Rattle.mz_meaning.specs.Contexts.{Positive, closes, closes_left, closes_right, elsewhere, elsewhere_if, link_closes, links_close, within_links};
ghost use Rattle.mz_meaning.specs.Chains as chains;
ghost use Rattle.mz_meaning.specs.Chains.{before, first_in, left_in, left_place, right_in, right_place};
ghost use Rattle.mz_meaning.specs.Forms.{arguments_in};
ghost use Rattle.mz_eval_scopes.specs.Seen.{ctx_of};
ghost use Rattle.mz_eval_chains.specs.Innermosts.{operator_of};
ghost use Rattle.mz_eval_chains.specs.Links.{links_round};
ghost use Rattle.mz_eval_nodes.specs.Contexts.{IsLater, later, settled};

use crate::globals::global_closes;
use mz_core::{Base, Coercion, Core, CoreForm, TypeInst};
use mz_eval_chains::{Operator, operand_base};
use mz_eval_globals::global_numbered;
use mz_eval_row_cells::row_at;
use mz_eval_scopes::Context;
use mz_operations::{Connective, Quantifier, Row, ScalarRow};
use std::alloc::{AllocError, Global};

/// A place where no free local may be evaluated: a condition, or a generator's set.
pub fn elsewhere(ctx: Context) -> Context
    ensures { ctx_of result ≡ elsewhere (ctx_of ctx) }
{
    match ctx {
        Context::Untested => Context::Untested,
        Context::Positive => Context::Other,
        Context::Other => Context::Other,
    }
}

/// Whether no place is tested, or no free local may be evaluated: so are all parts.
pub fn is_settled(ctx: Context) -> bool
    ensures { result ≡ settled (ctx_of ctx) }
{
    match ctx {
        Context::Untested => true,
        Context::Positive => false,
        Context::Other => true,
    }
}

// a part of a positive place
fn elsewhere_if(closed: bool) -> Context
    ensures { ctx_of result ≡ elsewhere_if closed Positive }
{
    if closed {
        Context::Other
    } else {
        Context::Positive
    }
}

fn is_bool(b: Base) -> bool
    ensures { result ≡ cells.is_bool b }
{
    match b {
        Base::Bool => true,
        _ => false,
    }
}

fn closes(row: Row, b: Base) -> bool
    ensures { result ≡ closes row b }
{
    match row {
        Row::Scalar(ScalarRow::Logic(Connective::Iff)) => true,
        Row::Scalar(ScalarRow::Logic(Connective::Xor)) => true,
        Row::Scalar(ScalarRow::Not) => true,
        Row::Scalar(ScalarRow::Order(_)) => is_bool(b),
        Row::Scalar(ScalarRow::Equal) => is_bool(b),
        Row::Scalar(ScalarRow::Unequal) => is_bool(b),
        Row::Scalar(ScalarRow::Ordinal) => is_bool(b),
        Row::Scalar(ScalarRow::Quantified(Quantifier::Xorall)) => true,
        Row::Scalar(ScalarRow::Clause) => true,
        Row::Scalar(ScalarRow::Count) => true,
        _ => false,
    }
}

fn closes_left(row: Row, b: Base) -> bool
    ensures { result ≡ closes_left row b }
{
    match row {
        Row::Scalar(ScalarRow::Logic(Connective::Implies)) => true,
        _ => closes(row, b),
    }
}

fn closes_right(row: Row, b: Base) -> bool
    ensures { result ≡ closes_right row b }
{
    match row {
        Row::Scalar(ScalarRow::Logic(Connective::IsImplied)) => true,
        _ => closes(row, b),
    }
}

fn left_closes(row: Option<Row>, b: Base) -> bool
    ensures { result ≡ chains.closed_by closes_left b row }
{
    match row {
        None => false,
        Some(r) => closes_left(r, b),
    }
}

fn right_closes(row: Option<Row>, b: Base) -> bool
    ensures { result ≡ chains.closed_by closes_right b row }
{
    match row {
        None => false,
        Some(r) => closes_right(r, b),
    }
}

fn all_close(row: Option<Row>, b: Base) -> bool
    ensures { result ≡ chains.closed_by closes b row }
{
    match row {
        None => false,
        Some(r) => closes(r, b),
    }
}

fn link_closes(c: Coercion) -> bool
    ensures { result ≡ link_closes c }
{
    match c {
        Coercion::BoolToInt => true,
        _ => false,
    }
}

fn links_close(links: &[(Coercion, TypeInst)]) -> bool
    ensures { result ≡ links_close (path_links links.now) }
{
    for link in links {
        if link_closes(link.0) {
            return true;
        }
    }
    false
}

fn either(a: bool, b: bool) -> bool
    ensures { result ≡ (a || b) }
{
    a || b
}

// the coercions round an expression's node
#[tactic(auto, using(mz_core::proofs::TreeLaws::root_coercions_is))]
fn round_closes(e: &Core) -> bool
    ensures { result ≡ links_close (root_coercions (tree e.now)) }
{
    match &e.form {
        CoreForm::Coerce(c, part) => {
            let inside = round_closes(part);
            either(inside, link_closes(*c))
        }
        _ => false,
    }
}

fn rounds_close(round: Option<&Core>) -> bool
    ensures { result ≡ links_close (links_round round.entry) }
{
    match round {
        None => false,
        Some(e) => round_closes(e),
    }
}

/// The context of an expression's node below the coercions round it. Takes no memory.
pub fn within(ctx: Context, e: &Core) -> Context
    ensures { ctx_of result ≡ within_links (ctx_of ctx) (root_coercions (tree e.now)) }
{
    match ctx {
        Context::Untested => Context::Untested,
        Context::Positive => elsewhere_if(round_closes(e)),
        Context::Other => Context::Other,
    }
}

/// The context of the arguments of the row or the global with this number, which have this base. Takes no memory.
pub fn arguments_within(ctx: Context, n: u32, b: Base) -> Context
    ensures { ctx_of result ≡ arguments_in (ctx_of ctx) n b }
{
    match ctx {
        Context::Untested => Context::Untested,
        Context::Positive => {
            let by_row = all_close(row_at(n, b), b);
            let by_global = global_closes(global_numbered(n));
            elsewhere_if(by_row || by_global)
        }
        Context::Other => Context::Other,
    }
}

#[tactic(auto, using(crate::proofs::ContextLaws::closes_both))]
fn left_place(o: &Operator) -> Context
    ensures { ctx_of result ≡ left_place (operator_of o.now).step }
{
    let b = operand_base(o);
    let by_row = left_closes(row_at(o.step.row, b), b);
    let by_links = rounds_close(o.before) || links_close(&o.step.left);
    elsewhere_if(by_row || by_links)
}

#[tactic(auto, using(crate::proofs::ContextLaws::closes_both))]
fn right_place(o: &Operator) -> Context
    ensures { ctx_of result ≡ right_place (operator_of o.now).step }
{
    let b = operand_base(o);
    let by_row = right_closes(row_at(o.step.row, b), b);
    let by_links = rounds_close(o.after) || links_close(&o.step.right);
    elsewhere_if(by_row || by_links)
}

/// The context of an operator's left operand, where its node has this one. Takes no memory.
pub fn left_within(ctx: Context, o: &Operator) -> Context
    ensures { ctx_of result ≡ left_in (ctx_of ctx) (operator_of o.now).step }
{
    match ctx {
        Context::Untested => Context::Untested,
        Context::Positive => left_place(o),
        Context::Other => Context::Other,
    }
}

/// The context of an operator's right operand, where its node has this one. Takes no memory.
pub fn right_within(ctx: Context, o: &Operator) -> Context
    ensures { ctx_of result ≡ right_in (ctx_of ctx) (operator_of o.now).step }
{
    match ctx {
        Context::Untested => Context::Untested,
        Context::Positive => right_place(o),
        Context::Other => Context::Other,
    }
}

/// Of `++`: the context of the operand before these operators, where the node of what begins with it
/// has this one. Takes no memory.
#[tactic(auto, using(crate::proofs::ContextLaws::first_of_none, crate::proofs::ContextLaws::first_of_some))]
pub fn first_within(ctx: Context, all: &[Operator]) -> Context
    ensures { ctx_of result ≡ first_in (ctx_of ctx) (map operator_of all.now) }
{
    match all {
        [] => ctx,
        [o, ..] => left_within(ctx, o),
    }
}

// where the chain is in a positive place: the context before all operators, and those after each one, the last first
#[tactic(auto, using(crate::proofs::ContextLaws::later_next, crate::proofs::ContextLaws::before_next))]
fn found_later(alloc: Global, all: &[Operator]) -> Result<(Context, Vec<Context>), AllocError>
    ensures { IfOk result (IsLater Positive (map operator_of all.now)) }
{
    let mut next = Context::Positive;
    let mut stack = Vec::new(alloc);
    let mut n = all.len();
    'operators: while n > 0 {
        n -= 1;
        stack.push(next)?;
        next = left_within(next, &all[n]);
    }
    Ok((next, stack))
}

/// The context of the operand before all operators of a chain, where the chain's node has this one;
/// and the contexts of the nodes of the operators, which `node_within` takes one after the other.
pub fn contexts_before(
    alloc: Global,
    ctx: Context,
    all: &[Operator],
) -> Result<(Context, Vec<Context>), AllocError>
    ensures { IfOk result (IsLater (ctx_of ctx) (map operator_of all.now)) }
{
    match ctx {
        Context::Untested => Ok((Context::Untested, Vec::new(alloc))),
        Context::Positive => found_later(alloc, all),
        Context::Other => Ok((Context::Other, Vec::new(alloc))),
    }
}

// the context of the next operator's node
fn node_within(ctx: Context, stack: &mut Vec<Context>, o: &Operator, rest: &[Operator]) -> Context
    requires { map ctx_of stack.old.items ≡ later (ctx_of ctx) (operator_of o.now ∷ map operator_of rest.now) }
    ensures node { ctx_of result ≡ before (ctx_of ctx) (map operator_of rest.now) }
    ensures stack { map ctx_of stack.new.items ≡ later (ctx_of ctx) (map operator_of rest.now) }
{
    match stack.pop() {
        None => ctx,
        Some(c) => c,
    }
}

/// The context of the right operand of an operator, after which there are these, where the chain's
/// node has the context `ctx`. `stack` has the contexts of the nodes of all that are left.
pub fn operand_within(
    ctx: Context,
    stack: &mut Vec<Context>,
    o: &Operator,
    rest: &[Operator],
) -> Context
    requires { map ctx_of stack.old.items ≡ later (ctx_of ctx) (operator_of o.now ∷ map operator_of rest.now) }
    ensures operand { ctx_of result ≡ right_in (before (ctx_of ctx) (map operator_of rest.now)) (operator_of o.now).step }
    ensures stack { map ctx_of stack.new.items ≡ later (ctx_of ctx) (map operator_of rest.now) }
{
    let node = node_within(ctx, stack, o, rest);
    right_within(node, o)
}
