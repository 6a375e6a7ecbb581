// What is known of nodes before a solver runs: constants, and what joins and compares them.

ghost use Rattle.std.specs.Prelude.{◌≡◌, MatchOption, Some, false, not, pos, true, ℕ};
ghost use Rattle.std.specs.Ordering.{int_eq};
ghost use Rattle.mz_arena.specs.Values as terms;
ghost use Rattle.mz_arena.specs.Values.{Term, arith_term, is_true};
ghost use Rattle.mz_operations.specs.declared.row.Arith.TheVariants as arith;
ghost use Rattle.mz_symbol.specs.Readings.{Reading};
ghost use Rattle.mz_symbol.specs.Runs.{ReadsNodes};
ghost use Rattle.mz_symbol_arrays.specs.Sure.{IsSure};
ghost use Rattle.glob_nodes.specs.Says.{compares, joins, num};
ghost use Rattle.glob_nodes.specs.StepsKnown.{IsBit, IsJoin, IsTruth, compared_to_itself, is_bit_kind, neutral, told_by};

use crate::nodes::{Compare, Join};
use mz_arena::{Arena, Id, Node, NodeKind};
use mz_symbol_arrays::{is_sure, node_at};

// ---- constants

/// The integer that a node is, of a constant.
pub(crate) fn integer_at(nodes: &Arena, id: Id) -> Option<i64>
    ensures { MatchOption result (Unit {0}) (λ n. (t : ℕ → Term) → ReadsNodes t nodes.now → t id ≡ Some (terms.number n)) }
{
    let Some(n) = node_at(nodes, id) else {
        return None;
    };
    match n.kind {
        NodeKind::Int => Some(n.number),
        _ => None,
    }
}

/// The truth value that a node is, of a constant.
pub(crate) fn truth_at(nodes: &Arena, id: Id) -> Option<bool>
    ensures { MatchOption result (Unit {0}) (IsTruth nodes.now id) }
{
    let Some(n) = node_at(nodes, id) else {
        return None;
    };
    match n.kind {
        NodeKind::Bool => Some(is_one(&n)),
        _ => None,
    }
}

fn is_one(n: &Node) -> bool
    ensures { result ≡ int_eq n.now.number (pos 1) }
{
    n.number == 1
}

fn is_bit_kind(kind: NodeKind) -> bool
    ensures { result ≡ is_bit_kind kind }
{
    match kind {
        NodeKind::Eq => true,
        NodeKind::Ne => true,
        NodeKind::Le => true,
        NodeKind::Lt => true,
        NodeKind::And => true,
        NodeKind::Or => true,
        NodeKind::Not => true,
        NodeKind::Iff => true,
        NodeKind::Member => true,
        NodeKind::SetEq => true,
        NodeKind::Subset => true,
        _ => false,
    }
}

/// Whether a node is a truth value that is made of others, and so is never undefined.
fn is_bit(nodes: &Arena, id: Id) -> bool
    ensures { result ≡ true → IsBit nodes.now id }
{
    match node_at(nodes, id) {
        None => false,
        Some(n) => is_bit_kind(n.kind),
    }
}

// ---- comparisons

fn told_by(op: Compare, m: i64, n: i64) -> bool
    ensures { result ≡ told_by op m n }
{
    match op {
        Compare::Equal => m == n,
        Compare::Differ => m != n,
        Compare::AtMost => m <= n,
        Compare::Less => m < n,
    }
}

/// Whether a number stands so to itself.
fn to_itself(op: Compare) -> bool
    ensures { result ≡ compared_to_itself op }
{
    match op {
        Compare::Equal => true,
        Compare::Differ => false,
        Compare::AtMost => true,
        Compare::Less => false,
    }
}

fn same_compared(nodes: &Arena, op: Compare, a: Id) -> Option<bool>
    ensures { MatchOption result (Unit {0}) (λ p. (r : Reading) → ReadsNodes r.term nodes.now → compares op (num r a) (num r a) ≡ p) }
{
    if !is_sure(nodes, a) {
        return None;
    }
    Some(to_itself(op))
}

fn integers_compared(nodes: &Arena, op: Compare, a: Id, b: Id) -> Option<bool>
    ensures { MatchOption result (Unit {0}) (λ p. (r : Reading) → ReadsNodes r.term nodes.now → compares op (num r a) (num r b) ≡ p) }
{
    let Some(m) = integer_at(nodes, a) else {
        return None;
    };
    let Some(n) = integer_at(nodes, b) else {
        return None;
    };
    Some(told_by(op, m, n))
}

/// Whether an integer stands so to another, where that is known.
pub(crate) fn known_comparison(nodes: &Arena, op: Compare, a: Id, b: Id) -> Option<bool>
    ensures { MatchOption result (Unit {0}) (λ p. (r : Reading) → ReadsNodes r.term nodes.now → compares op (num r a) (num r b) ≡ p) }
{
    if a == b {
        return same_compared(nodes, op, a);
    }
    integers_compared(nodes, op, a, b)
}

// ---- joins

/// What is known of two truth values joined.
#[derive(Clone, Copy)]
pub(crate) enum Known {
    /// It is this.
    Truth(bool),
    /// It is this node.
    Node(Id),
}

/// The truth value that joins to the other one, of a conjunction or a disjunction.
fn neutral(op: Join) -> Option<bool>
    ensures { result ≡ neutral op }
{
    match op {
        Join::Both => Some(true),
        Join::Either => Some(false),
        Join::Alike => None,
    }
}

/// A node as what is known of it, where it is never undefined.
fn itself(nodes: &Arena, id: Id) -> Option<Known>
    ensures { MatchOption result (Unit {0}) (λ k. (r : Reading) → ReadsNodes r.term nodes.now → IsJoin r (is_true (r.term id)) k) }
{
    if is_bit(nodes, id) {
        return Some(Known::Node(id));
    }
    match truth_at(nodes, id) {
        None => None,
        Some(p) => Some(Known::Truth(p)),
    }
}

fn joined_to(nodes: &Arena, op: Join, p: bool, other: Id) -> Option<Known>
    ensures { MatchOption result (Unit {0}) (λ k. (r : Reading) → ReadsNodes r.term nodes.now → IsJoin r (joins op p (is_true (r.term other))) k) }
{
    let Some(q) = neutral(op) else {
        return None;
    };
    if !is_same(p, q) {
        return Some(Known::Truth(p));
    }
    match itself(nodes, other) {
        None => None,
        Some(k) => Some(k),
    }
}

fn is_same(p: bool, q: bool) -> bool
    ensures same { result ≡ true → p ≡ q }
    ensures other { result ≡ false → q ≡ not p }
{
    match p {
        true => q,
        false => !q,
    }
}

/// Two truth values joined, where one is a constant; an undefined one counts as false.
pub(crate) fn known_join(nodes: &Arena, op: Join, a: Id, b: Id) -> Option<Known>
    ensures { MatchOption result (Unit {0}) (λ k. (r : Reading) → ReadsNodes r.term nodes.now → IsJoin r (joins op (is_true (r.term a)) (is_true (r.term b))) k) }
{
    if let Some(p) = truth_at(nodes, a) {
        return joined_to(nodes, op, p, b);
    }
    match truth_at(nodes, b) {
        None => None,
        Some(q) => joined_to(nodes, op, q, a),
    }
}

// ---- sums and products

fn is_number(nodes: &Arena, id: Id, n: i64) -> bool
    ensures { result ≡ true → (t : ℕ → Term) → ReadsNodes t nodes.now → t id ≡ Some (terms.number n) }
{
    match integer_at(nodes, id) {
        None => false,
        Some(m) => is_equal(m, n),
    }
}

fn is_equal(m: i64, n: i64) -> bool
    ensures { result ≡ true → m ≡ n }
{
    m == n
}

/// Whether a node is this number, and the other one surely an integer.
fn is_beside(nodes: &Arena, id: Id, n: i64, other: Id) -> bool
    ensures number { result ≡ true → (t : ℕ → Term) → ReadsNodes t nodes.now → t id ≡ Some (terms.number n) }
    ensures sure { result ≡ true → IsSure nodes.now other }
{
    is_number(nodes, id, n) && is_sure(nodes, other)
}

/// The sum of two integers, of which one is 0.
pub(crate) fn known_sum(nodes: &Arena, a: Id, b: Id) -> Option<Id>
    ensures { MatchOption result (Unit {0}) (λ id. (r : Reading) → ReadsNodes r.term nodes.now → arith_term arith.Add (r.term a) (r.term b) ≡ r.term id) }
{
    if is_beside(nodes, b, 0, a) {
        return Some(a);
    }
    if is_beside(nodes, a, 0, b) {
        return Some(b);
    }
    None
}

/// The product of two integers, of which one is 1.
pub(crate) fn known_product(nodes: &Arena, a: Id, b: Id) -> Option<Id>
    ensures { MatchOption result (Unit {0}) (λ id. (r : Reading) → ReadsNodes r.term nodes.now → arith_term arith.Mul (r.term a) (r.term b) ≡ r.term id) }
{
    if is_beside(nodes, b, 1, a) {
        return Some(a);
    }
    if is_beside(nodes, a, 1, b) {
        return Some(b);
    }
    None
}
