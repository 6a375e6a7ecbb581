// The operators of chains: those of a first operand that is a chain of the same level belong to the
// chain, and for `++` those of such a last operand.

ghost use Rattle.std.specs.Prelude.{◌≡◌, ◌++◌, ◌∷◌, [], IfOk, None, Some, map};
ghost use Rattle.mz_core.specs.Tree.{root_coercions, steps};
ghost use Rattle.mz_core.specs.TreeViews.{tree, step};
ghost use Rattle.mz_meaning.specs.Chains as chains;
ghost use Rattle.mz_meaning.specs.Chains.{operators_at, with_left, with_right, with_innermost, backed, back_of, chained};
ghost use Rattle.mz_eval_chains.specs.Links.{links_round};
ghost use Rattle.mz_eval_chains.specs.Innermosts.{operator_of, innermost_of, part_innermost, left_of_step, operator_with, with_links, appends_at, place_after, last_with};

use crate::levels::{chain_level, is_appended, same_level};
use crate::types::{Innermost, Operator};
use mz_base::Span;
use mz_core::{Core, CoreForm, CoreStep};
use std::alloc::{AllocError, Global};

// an operator with further coercions of its left operand
fn with_first<'a>(
    all: Vec<Operator<'a>>,
    at: Span,
    round: Option<&'a Core>,
    s: &'a CoreStep,
) -> Result<Vec<Operator<'a>>, AllocError>
    ensures { IfOk result (λ v. map operator_of v.items ≡ map operator_of all.entry.items ++ (record { at = at; step = left_of_step (links_round round.entry) (step s.now) } ∷ [])) }
{
    let mut all = all;
    all.push(Operator {
        at,
        step: s,
        before: round,
        operand: &s.operand,
        after: None,
    })?;
    Ok(all)
}

// operators without further coercions
fn with_plain<'a>(
    all: Vec<Operator<'a>>,
    at: Span,
    rest: &'a [CoreStep],
) -> Result<Vec<Operator<'a>>, AllocError>
    ensures { IfOk result (λ v. map operator_of v.items ≡ map operator_of all.entry.items ++ operators_at at (map step rest.now)) }
{
    let mut all = all;
    for s in rest {
        all.push(Operator {
            at,
            step: s,
            before: None,
            operand: &s.operand,
            after: None,
        })?;
    }
    Ok(all)
}

// operators of `++`, the first one's node at this place
fn with_appends<'a>(
    all: Vec<Operator<'a>>,
    at: Span,
    rest: &'a [CoreStep],
) -> Result<Vec<Operator<'a>>, AllocError>
    ensures { IfOk result (λ v. map operator_of v.items ≡ map operator_of all.entry.items ++ appends_at at (map step rest.now)) }
{
    let mut all = all;
    let mut place = at;
    for s in rest {
        all.push(Operator {
            at: place,
            step: s,
            before: None,
            operand: &s.operand,
            after: None,
        })?;
        place = s.start;
    }
    Ok(all)
}

fn place_after(at: Span, rest: &[CoreStep]) -> Span
    ensures { result ≡ place_after at (map step rest.now) }
{
    let mut place = at;
    for s in rest {
        place = s.start;
    }
    place
}

// with the operators of a chain at this place; the first one has further coercions of its left operand
#[tactic(auto, using(crate::proofs::Heads::no_operators, crate::proofs::Heads::operators_apart))]
fn with_operators<'a>(
    all: Vec<Operator<'a>>,
    at: Span,
    round: Option<&'a Core>,
    rest: &'a [CoreStep],
) -> Result<Vec<Operator<'a>>, AllocError>
    ensures { IfOk result (λ v. map operator_of v.items ≡ map operator_of all.entry.items ++ operators_at at (with_left (links_round round.entry) (map step rest.now))) }
{
    match rest {
        [] => Ok(all),
        [s, others @ ..] => {
            let begun = with_first(all, at, round, s)?;
            let v = with_plain(begun, at, others)?;
            Ok(v)
        }
    }
}

// a chain whose first operand is no chain of the level
fn plain_innermost<'a>(
    alloc: Global,
    at: Span,
    first: &'a Core,
    all: &'a [CoreStep],
) -> Result<Innermost<'a>, AllocError>
    ensures { IfOk result (λ r. innermost_of r ≡ with_innermost at (map step all.now) (tree first.now) None) }
{
    let operators = with_plain(Vec::new(alloc), at, all)?;
    Ok(Innermost { first, operators })
}

// a chain after the operators of its first operand, round which are the coercions of `first`
fn more_innermost<'a>(
    part: Innermost<'a>,
    at: Span,
    first: &'a Core,
    all: &'a [CoreStep],
) -> Result<Innermost<'a>, AllocError>
    ensures { IfOk result (λ r. innermost_of r ≡ with_innermost at (map step all.now) (tree first.now) (Some (with_links (root_coercions (tree first.now)) (innermost_of part.entry)))) }
{
    let Innermost {
        first: innermost,
        operators,
    } = part;
    let operators = with_operators(operators, at, Some(first), all)?;
    Ok(Innermost {
        first: innermost,
        operators,
    })
}

// a chain with its first operand, which may be a chain of the level too
fn joined_innermost<'a>(
    alloc: Global,
    part: Option<Innermost<'a>>,
    at: Span,
    first: &'a Core,
    all: &'a [CoreStep],
) -> Result<Innermost<'a>, AllocError>
    ensures { IfOk result (λ r. innermost_of r ≡ with_innermost at (map step all.now) (tree first.now) (part_innermost (root_coercions (tree first.now)) part.entry)) }
{
    match part {
        None => plain_innermost(alloc, at, first, all),
        Some(f) => more_innermost(f, at, first, all),
    }
}

// an operand that is a chain of the level below its coercions
#[tactic(auto, using(crate::proofs::Innermosts::innermost_of_tree, crate::proofs::Layers::no_innermost_of_chain))]
fn innermost_under<'a>(
    alloc: Global,
    l: u64,
    e: &'a Core,
) -> Result<Option<Innermost<'a>>, AllocError>
    ensures { IfOk result (λ o. chains.innermost_of l (tree e.now) ≡ part_innermost (root_coercions (tree e.now)) o) }
{
    match &e.form {
        CoreForm::Chain(first, all) => {
            let steps = all.as_slice();
            if !same_level(l, steps) {
                return Ok(None);
            }
            let part = innermost_under(alloc, l, first)?;
            let f = joined_innermost(alloc, part, e.span, first, steps)?;
            Ok(Some(f))
        }
        CoreForm::Coerce(_, part) => {
            let o = innermost_under(alloc, l, part)?;
            Ok(o)
        }
        _ => Ok(None),
    }
}

// a chain with its first operand, if that is one of the level too
fn whole_chain<'a>(
    alloc: Global,
    l: u64,
    at: Span,
    first: &'a Core,
    all: &'a [CoreStep],
) -> Result<Innermost<'a>, AllocError>
    ensures { IfOk result (λ f. innermost_of f ≡ with_innermost at (map step all.now) (tree first.now) (chains.innermost_of l (tree first.now))) }
{
    let part = innermost_under(alloc, l, first)?;
    let f = joined_innermost(alloc, part, at, first, all)?;
    Ok(f)
}

// an operator whose operand is the first one of a chain below some coercions, and then others
fn with_operand<'a>(
    all: Vec<Operator<'a>>,
    at: Span,
    s: &'a CoreStep,
    operand: &'a Core,
    place: Span,
    others: &'a [CoreStep],
) -> Result<Vec<Operator<'a>>, AllocError>
    ensures { IfOk result (λ v. map operator_of v.items ≡ (map operator_of all.entry.items ++ (operator_with at s.now operand.now ∷ [])) ++ appends_at place (map step others.now)) }
{
    let mut all = all;
    all.push(Operator {
        at,
        step: s,
        before: None,
        operand,
        after: Some(&s.operand),
    })?;
    let all = with_appends(all, place, others)?;
    Ok(all)
}

// an operator whose operand is no chain of `++`
fn with_one<'a>(
    all: Vec<Operator<'a>>,
    at: Span,
    s: &'a CoreStep,
) -> Result<Vec<Operator<'a>>, AllocError>
    ensures { IfOk result (λ v. map operator_of v.items ≡ map operator_of all.entry.items ++ (record { at = at; step = step s.now } ∷ [])) }
{
    let mut all = all;
    all.push(Operator {
        at,
        step: s,
        before: None,
        operand: &s.operand,
        after: None,
    })?;
    Ok(all)
}

// the last operator, whose operand below some coercions is `e`
#[tactic(auto, using(crate::proofs::Innermosts::back_of_tree))]
fn with_last<'a>(
    all: Vec<Operator<'a>>,
    at: Span,
    e: &'a Core,
    s: &'a CoreStep,
) -> Result<Vec<Operator<'a>>, AllocError>
    ensures { IfOk result (λ v. map operator_of v.items ≡ map operator_of all.entry.items ++ last_with at (step s.now) (root_coercions (tree s.now.operand)) (back_of (tree e.now))) }
{
    match &e.form {
        CoreForm::Chain(first, rest) => {
            let steps = rest.as_slice();
            let count = steps.len();
            if count == 0 || !is_appended(steps) {
                let plain = with_one(all, at, s)?;
                return Ok(plain);
            }
            let begun = with_operand(all, at, s, first, e.span, &steps[..count - 1])?;
            let place = place_after(e.span, &steps[..count - 1]);
            let last = &steps[count - 1];
            let ended = with_last(begun, place, &last.operand, last)?;
            Ok(ended)
        }
        CoreForm::Coerce(_, part) => {
            let under = with_last(all, at, part, s)?;
            Ok(under)
        }
        _ => {
            let other = with_one(all, at, s)?;
            Ok(other)
        }
    }
}

// the operators of a chain of `++`, with those of its last operand
fn with_back<'a>(
    alloc: Global,
    at: Span,
    rest: &'a [CoreStep],
) -> Result<Vec<Operator<'a>>, AllocError>
    ensures { IfOk result (λ v. map operator_of v.items ≡ backed at (steps (map step rest.now))) }
{
    let none = Vec::new(alloc);
    let count = rest.len();
    if count == 0 {
        return Ok(none);
    }
    let begun = with_appends(none, at, &rest[..count - 1])?;
    let place = place_after(at, &rest[..count - 1]);
    let last = &rest[count - 1];
    let ended = with_last(begun, place, &last.operand, last)?;
    Ok(ended)
}

fn back_innermost<'a>(
    alloc: Global,
    at: Span,
    first: &'a Core,
    all: &'a [CoreStep],
) -> Result<Innermost<'a>, AllocError>
    ensures { IfOk result (λ f. innermost_of f ≡ record { first = tree first.now; operators = backed at (steps (map step all.now)); links = [] }) }
{
    let operators = with_back(alloc, at, all)?;
    Ok(Innermost { first, operators })
}

/// All operators of a chain, with its innermost first operand.
pub fn all_operators<'a>(
    alloc: Global,
    at: Span,
    first: &'a Core,
    all: &'a [CoreStep],
) -> Result<Innermost<'a>, AllocError>
    ensures { IfOk result (λ f. innermost_of f ≡ chained at (tree first.now) (map step all.now)) }
{
    if is_appended(all) {
        let f = back_innermost(alloc, at, first, all)?;
        Ok(f)
    } else {
        let f = whole_chain(alloc, chain_level(all), at, first, all)?;
        Ok(f)
    }
}
