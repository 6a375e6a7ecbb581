// Options that have no value where they occur, such as those of the absent option alone: they are
// absent or undefined wherever they are read, and so of any base.

ghost use Rattle.std.specs.Prelude.{◌≡◌, ◌∷◌, ◌++◌, List, [], IfOk, MatchOption, None, true, ℕ};
ghost use Rattle.mz_arena.specs.Entries.{Entry};
ghost use Rattle.mz_arena.specs.Values.{Term, as_number, is_true};
ghost use Rattle.mz_symbol.specs.Runs.{ReadsNodes};
ghost use Rattle.mz_eval_symbols.specs.Steps.{argued};
ghost use Rattle.mz_eval_symbols.specs.declared.lacking.Claim.{Claim};
ghost use Rattle.mz_eval_symbols.specs.declared.lacking.Claim.TheVariants.{Lists, Nodes};
ghost use Rattle.mz_eval_symbols.specs.StepsLacking.{AllHold, IsLacking, IsRelabel, Lacks, Suffices, is_number_base};

use crate::constants::is_single;
use crate::nodes::{Pair, if_at, is_false, is_nil, is_same, not_at, pair_at};
use mz_arena::{Arena, Id};
use mz_core::Base;
use mz_symbol::Symbol;
use std::alloc::{AllocError, Global};

/// What is to be shown of two nodes.
#[derive(Clone, Copy)]
pub(crate) enum Claim {
    /// Where the first is true, the second is no number.
    Nodes(Id, Id),
    /// They are lists, and where both are there, none of the first one's numbers is 1.
    Lists(Id, Id),
}

/// What a claim follows from.
#[derive(Clone, Copy)]
pub(crate) enum Reason {
    Sure,
    One(Claim),
    Two(Claim, Claim),
    Unknown,
}

// ---- why a node is no number where another is true

/// The node q of Or(Not(d), q); else the node itself.
fn unless(nodes: &Arena, d: Id, o: Id) -> Id
    ensures { (t : ℕ → Term) → ReadsNodes t nodes.now → is_true (t d) ≡ true → is_true (t o) ≡ true → is_true (t result) ≡ true }
{
    let Some(p) = pair_at(nodes, Pair::Or, o) else {
        return o;
    };
    let Some(n) = not_at(nodes, p.0) else {
        return o;
    };
    if is_same(n, d) { p.1 } else { o }
}

/// The second node is a guard.
fn by_guard(nodes: &Arena, o: Id, x: Id) -> Reason
    ensures { Suffices nodes.now (Nodes o x) result }
{
    let Some(p) = pair_at(nodes, Pair::Guard, x) else {
        return Reason::Unknown;
    };
    if is_false(nodes, p.0) {
        return Reason::Sure;
    }
    let q = unless(nodes, p.0, o);
    Reason::One(Claim::Nodes(q, p.1))
}

/// Both nodes are chosen by one condition.
fn by_branches(nodes: &Arena, o: Id, x: Id) -> Reason
    ensures { Suffices nodes.now (Nodes o x) result }
{
    let Some(p) = if_at(nodes, o) else {
        return Reason::Unknown;
    };
    let Some(q) = if_at(nodes, x) else {
        return Reason::Unknown;
    };
    if !is_same(p.condition, q.condition) {
        return Reason::Unknown;
    }
    Reason::Two(
        Claim::Nodes(p.first, q.first),
        Claim::Nodes(p.second, q.second),
    )
}

/// The first node is an And over the condition by which the second is chosen.
fn by_condition(nodes: &Arena, o: Id, x: Id) -> Reason
    ensures { Suffices nodes.now (Nodes o x) result }
{
    let Some(p) = pair_at(nodes, Pair::And, o) else {
        return Reason::Unknown;
    };
    let Some(q) = if_at(nodes, x) else {
        return Reason::Unknown;
    };
    if !is_same(p.0, q.condition) {
        return Reason::Unknown;
    }
    Reason::One(Claim::Nodes(p.0, q.first))
}

/// The second node is chosen by the first.
fn by_choice(nodes: &Arena, o: Id, x: Id) -> Reason
    ensures { Suffices nodes.now (Nodes o x) result }
{
    let Some(q) = if_at(nodes, x) else {
        return Reason::Unknown;
    };
    if !is_same(q.condition, o) {
        return Reason::Unknown;
    }
    Reason::One(Claim::Nodes(o, q.first))
}

/// The first node is an And.
fn by_both(nodes: &Arena, o: Id, x: Id) -> Reason
    ensures { Suffices nodes.now (Nodes o x) result }
{
    let Some(p) = pair_at(nodes, Pair::And, o) else {
        return Reason::Unknown;
    };
    Reason::One(Claim::Nodes(p.1, x))
}

/// Whether a node is true exactly where another is no number: Not(Eq(x, x)).
fn is_lost(nodes: &Arena, l: Id, x: Id) -> bool
    ensures { result ≡ true → (t : ℕ → Term) → ReadsNodes t nodes.now → is_true (t l) ≡ true → as_number (t x) ≡ None }
{
    let Some(n) = not_at(nodes, l) else {
        return false;
    };
    let Some(p) = pair_at(nodes, Pair::Equal, n) else {
        return false;
    };
    if !is_same(p.0, x) {
        return false;
    }
    is_same(p.1, x)
}

/// The second node is an element, and the first is true where that one is lost, or where the element
/// of another list is.
fn by_element(nodes: &Arena, o: Id, x: Id) -> Reason
    ensures { Suffices nodes.now (Nodes o x) result }
{
    let Some(p) = pair_at(nodes, Pair::Or, o) else {
        return Reason::Unknown;
    };
    if !is_lost(nodes, p.0, x) {
        return Reason::Unknown;
    }
    by_lists(nodes, p.1, x)
}

/// Both nodes are elements, of two lists at one index.
fn by_lists(nodes: &Arena, o: Id, x: Id) -> Reason
    ensures { Suffices nodes.now (Nodes o x) result }
{
    let Some(p) = pair_at(nodes, Pair::Access, o) else {
        return Reason::Unknown;
    };
    let Some(q) = pair_at(nodes, Pair::Access, x) else {
        return Reason::Unknown;
    };
    if !is_same(p.0, q.0) {
        return Reason::Unknown;
    }
    Reason::One(Claim::Lists(p.1, q.1))
}

/// The first reason, where it is known.
fn first(a: Reason, b: Reason) -> Reason
    ensures { (es : List Entry) (c : Claim) → Suffices es c a → Suffices es c b → Suffices es c result }
{
    match a {
        Reason::Unknown => b,
        _ => a,
    }
}

fn of_nodes(nodes: &Arena, o: Id, x: Id) -> Reason
    ensures { Suffices nodes.now (Nodes o x) result }
{
    if is_false(nodes, o) {
        return Reason::Sure;
    }
    let joined = first(by_element(nodes, o, x), by_both(nodes, o, x));
    let chosen = first(by_branches(nodes, o, x), by_condition(nodes, o, x));
    let told = first(by_choice(nodes, o, x), chosen);
    let other = first(told, joined);
    first(by_guard(nodes, o, x), other)
}

// ---- lists

fn of_lists(nodes: &Arena, o: Id, x: Id) -> Reason
    ensures { Suffices nodes.now (Lists o x) result }
{
    if is_nil(nodes, o) {
        return Reason::Sure;
    }
    let Some(p) = pair_at(nodes, Pair::Cons, o) else {
        return Reason::Unknown;
    };
    let Some(q) = pair_at(nodes, Pair::Cons, x) else {
        return Reason::Unknown;
    };
    Reason::Two(Claim::Nodes(p.0, q.0), Claim::Lists(p.1, q.1))
}

// ---- all claims

fn reason_of(nodes: &Arena, c: Claim) -> Reason
    ensures { Suffices nodes.now c result }
{
    match c {
        Claim::Nodes(o, x) => of_nodes(nodes, o, x),
        Claim::Lists(o, x) => of_lists(nodes, o, x),
    }
}

fn with_claim(claims: Vec<Claim>, d: Claim) -> Result<Vec<Claim>, AllocError>
    ensures { IfOk result (λ x. x.items ≡ claims.items ++ d ∷ []) }
{
    let mut more = claims;
    more.push(d)?;
    Ok(more)
}

fn with_claims(claims: Vec<Claim>, d: Claim, e: Claim) -> Result<Vec<Claim>, AllocError>
    ensures { IfOk result (λ x. x.items ≡ (claims.items ++ d ∷ []) ++ e ∷ []) }
{
    let one = with_claim(claims, d)?;
    let both = with_claim(one, e)?;
    Ok(both)
}

/// The open claims, with what another one follows from in its place; None where that isn't known.
fn with_reason(
    nodes: &Arena,
    c: Claim,
    claims: Vec<Claim>,
) -> Result<Option<Vec<Claim>>, AllocError>
    ensures { IfOk result (λ v. MatchOption v (Unit {0}) (λ x. AllHold nodes.now x.items → AllHold nodes.now (claims.items ++ c ∷ []))) }
{
    match reason_of(nodes, c) {
        Reason::Sure => Ok(Some(claims)),
        Reason::One(d) => {
            let more = with_claim(claims, d)?;
            Ok(Some(more))
        }
        Reason::Two(d, e) => {
            let more = with_claims(claims, d, e)?;
            Ok(Some(more))
        }
        Reason::Unknown => Ok(None),
    }
}

/// Whether, where the first node is true, the second is surely no number. Not known either where this
/// takes more than 64 steps more than there are nodes.
fn lacks(alloc: Global, nodes: &Arena, o: Id, x: Id) -> Result<bool, AllocError>
    ensures { IfOk result (λ b. b ≡ true → Lacks nodes.now o x) }
{
    let mut claims = Vec::new(alloc);
    claims.push(Claim::Nodes(o, x))?;
    for _turn in 0..nodes.len().saturating_add(64) {
        let Some(c) = claims.pop() else {
            return Ok(true);
        };
        let found = with_reason(nodes, c, claims)?;
        let Some(more) = found else {
            return Ok(false);
        };
        claims = more;
    }
    Ok(false)
}

// ---- symbols

fn occurring(s: Symbol) -> Option<Id>
    ensures { result ≡ s.occurs }
{
    s.occurs
}

/// Whether an option surely has no value where it occurs.
fn is_lacking(alloc: Global, nodes: &Arena, s: Symbol) -> Result<bool, AllocError>
    ensures { IfOk result (λ b. b ≡ true → IsLacking nodes.now s) }
{
    if !is_single(s.base) {
        return Ok(false);
    }
    let Some(o) = occurring(s) else {
        return Ok(false);
    };
    let is = lacks(alloc, nodes, o, s.term)?;
    Ok(is)
}

/// A symbol as one of another base, where it is an option that surely has no value where it occurs.
pub(crate) fn relabeled(
    alloc: Global,
    nodes: &Arena,
    b: Base,
    s: Symbol,
) -> Result<Option<Symbol>, AllocError>
    ensures { IfOk result (λ o. MatchOption o (Unit {0}) (IsRelabel nodes.now s)) }
{
    if !is_single(b) {
        return Ok(None);
    }
    let is = is_lacking(alloc, nodes, s)?;
    if !is {
        return Ok(None);
    }
    Ok(Some(Symbol {
        base: b,
        occurs: s.occurs,
        term: s.term,
    }))
}

fn is_number_base(b: Base) -> bool
    ensures { result ≡ is_number_base b }
{
    match b {
        Base::Int => true,
        Base::Enum(_) => true,
        _ => false,
    }
}

fn is_plain(s: Symbol) -> bool
    ensures { result ≡ true → s.occurs ≡ None }
{
    s.occurs.is_none()
}

/// Whether what is no option is surely undefined: it is under a guard that never holds where it is a
/// number.
pub fn is_gone(alloc: Global, nodes: &Arena, s: Symbol) -> Result<bool, AllocError>
    ensures { IfOk result (λ b. b ≡ true → (t : ℕ → Term) → ReadsNodes t nodes.now → argued t s ≡ None) }
{
    if !is_number_base(s.base) {
        return Ok(false);
    }
    if !is_plain(s) {
        return Ok(false);
    }
    let Some(p) = pair_at(nodes, Pair::Guard, s.term) else {
        return Ok(false);
    };
    let is = lacks(alloc, nodes, p.0, p.1)?;
    Ok(is)
}
