// Nodes as what they are made of.

ghost use Rattle.std.specs.Prelude.{◌≡◌, MatchOption, Some, false, pos, true, ℕ};
ghost use Rattle.mz_arena.specs.declared.node.NodeKind.TheVariants.{Bool as BoolNode, Int as IntNode, Nil, ToInt};
ghost use Rattle.mz_arena.specs.Values.{Term, empty, is_true};
ghost use Rattle.mz_symbol.specs.Runs.{ReadsNodes};
ghost use Rattle.mz_eval_symbols.specs.StepsNodes.{IsCount, IsIf, IsNot, IsPair, kind_of};

use mz_arena::{Arena, Id, Node, NodeKind};
use mz_symbol_arrays::node_at;

/// Kinds of nodes with two parts.
#[derive(Clone, Copy)]
pub enum Pair {
    Access,
    And,
    Cons,
    Equal,
    Guard,
    Or,
}

pub(crate) fn is_same(a: Id, b: Id) -> bool
    ensures { result ≡ true → a ≡ b }
{
    a == b
}

fn is_kind(kind: NodeKind, w: Pair) -> bool
    ensures { result ≡ true → kind ≡ kind_of w }
{
    match w {
        Pair::Access => matches!(kind, NodeKind::Access),
        Pair::And => matches!(kind, NodeKind::And),
        Pair::Cons => matches!(kind, NodeKind::Cons),
        Pair::Equal => matches!(kind, NodeKind::Eq),
        Pair::Guard => matches!(kind, NodeKind::Guard),
        Pair::Or => matches!(kind, NodeKind::Or),
    }
}

/// The parts of a node of this kind; None of another.
pub fn pair_at(nodes: &Arena, w: Pair, id: Id) -> Option<(Id, Id)>
    ensures { MatchOption result (Unit {0}) (IsPair nodes.now w id) }
{
    let Some(n) = node_at(nodes, id) else {
        return None;
    };
    if !is_kind(n.kind, w) {
        return None;
    }
    Some((n.a, n.b))
}

/// The condition and the branches of an If.
#[derive(Clone, Copy)]
pub(crate) struct Branching {
    pub condition: Id,
    pub first: Id,
    pub second: Id,
}

pub(crate) fn if_at(nodes: &Arena, id: Id) -> Option<Branching>
    ensures { MatchOption result (Unit {0}) (IsIf nodes.now id) }
{
    let Some(n) = node_at(nodes, id) else {
        return None;
    };
    match n.kind {
        NodeKind::If => Some(Branching {
            condition: n.a,
            first: n.b,
            second: n.c,
        }),
        _ => None,
    }
}

/// What a Not is over.
pub(crate) fn not_at(nodes: &Arena, id: Id) -> Option<Id>
    ensures { MatchOption result (Unit {0}) (IsNot nodes.now id) }
{
    let Some(n) = node_at(nodes, id) else {
        return None;
    };
    match n.kind {
        NodeKind::Not => Some(n.a),
        _ => None,
    }
}

fn is_false_node(n: &Node) -> bool
    ensures kind { result ≡ true → n.now.kind ≡ BoolNode }
    ensures number { result ≡ true → n.now.number ≡ pos 0 }
{
    matches!(n.kind, NodeKind::Bool) && n.number == 0
}

/// Whether a node is the constant false.
pub fn is_false(nodes: &Arena, id: Id) -> bool
    ensures { result ≡ true → (t : ℕ → Term) → ReadsNodes t nodes.now → is_true (t id) ≡ false }
{
    match node_at(nodes, id) {
        None => false,
        Some(n) => is_false_node(&n),
    }
}

fn is_nil_node(n: &Node) -> bool
    ensures { result ≡ true → n.now.kind ≡ Nil }
{
    matches!(n.kind, NodeKind::Nil)
}

/// Whether a node is the empty list.
pub(crate) fn is_nil(nodes: &Arena, id: Id) -> bool
    ensures { result ≡ true → (t : ℕ → Term) → ReadsNodes t nodes.now → t id ≡ Some empty }
{
    match node_at(nodes, id) {
        None => false,
        Some(n) => is_nil_node(&n),
    }
}

fn is_count_node(n: &Node) -> bool
    ensures { result ≡ true → n.now.kind ≡ ToInt }
{
    matches!(n.kind, NodeKind::ToInt)
}

fn is_counting(nodes: &Arena, id: Id) -> bool
    ensures { result ≡ true → IsCount nodes.now id }
{
    match node_at(nodes, id) {
        None => false,
        Some(n) => is_count_node(&n),
    }
}

fn is_counting_below(nodes: &Arena, id: Id) -> bool
    ensures { result ≡ true → IsCount nodes.now id }
{
    match pair_at(nodes, Pair::Guard, id) {
        None => is_counting(nodes, id),
        Some(p) => is_counting(nodes, p.1),
    }
}

fn is_zero_node(n: &Node) -> bool
    ensures kind { result ≡ true → n.now.kind ≡ IntNode }
    ensures number { result ≡ true → n.now.number ≡ pos 0 }
{
    matches!(n.kind, NodeKind::Int) && n.number == 0
}

fn is_zero(nodes: &Arena, id: Id) -> bool
    ensures { result ≡ true → IsCount nodes.now id }
{
    match node_at(nodes, id) {
        None => false,
        Some(n) => is_zero_node(&n),
    }
}

fn is_guarded_count(nodes: &Arena, id: Id) -> bool
    ensures { result ≡ true → IsCount nodes.now id }
{
    match pair_at(nodes, Pair::Guard, id) {
        None => is_counting(nodes, id),
        Some(p) => is_counting_below(nodes, p.1),
    }
}

fn is_plain_count(nodes: &Arena, id: Id) -> bool
    ensures { result ≡ true → IsCount nodes.now id }
{
    is_guarded_count(nodes, id) || is_zero(nodes, id)
}

fn are_plain(nodes: &Arena, b: Branching) -> bool
    ensures first { result ≡ true → IsCount nodes.now b.first }
    ensures second { result ≡ true → IsCount nodes.now b.second }
{
    is_plain_count(nodes, b.first) && is_plain_count(nodes, b.second)
}

fn is_chosen_count(nodes: &Arena, id: Id) -> bool
    ensures { result ≡ true → IsCount nodes.now id }
{
    match if_at(nodes, id) {
        None => is_plain_count(nodes, id),
        Some(b) => are_plain(nodes, b),
    }
}

fn are_chosen(nodes: &Arena, b: Branching) -> bool
    ensures first { result ≡ true → IsCount nodes.now b.first }
    ensures second { result ≡ true → IsCount nodes.now b.second }
{
    is_chosen_count(nodes, b.first) && is_chosen_count(nodes, b.second)
}

/// Whether a node is a truth value that is counted, under no more than two guards, or 0; or a choice of
/// such, or of choices of such: as the value of an option in an array is one of its value and 0.
pub(crate) fn is_count(nodes: &Arena, id: Id) -> bool
    ensures { result ≡ true → IsCount nodes.now id }
{
    match if_at(nodes, id) {
        None => is_plain_count(nodes, id),
        Some(b) => are_chosen(nodes, b),
    }
}
