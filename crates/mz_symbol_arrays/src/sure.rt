// Nodes that have a value wherever they are read: variables, choices and constants, and what is made of
// them by what is always defined.

ghost use Rattle.std.specs.Prelude.{◌≡◌, MatchOption, true};
ghost use Rattle.mz_symbol_arrays.specs.Sure.{IsNode, IsSure, IsSureSet, Suffice, is_sure_kind, is_sure_set};

use mz_arena::{Arena, Id, Node, NodeKind};

/// How deep nodes are looked into.
const DEPTH: u64 = 6;

/// The node with this id, if there is one.
pub fn node_at(nodes: &Arena, id: Id) -> Option<Node>
    ensures { MatchOption result (Unit {0}) (IsNode nodes.now id) }
{
    if id >= nodes.len() {
        return None;
    }
    Some(nodes.node(id))
}

// ---- without a look at their parts

/// Whether nodes of a kind are sets that are surely there.
fn is_sure_set(kind: NodeKind) -> bool
    ensures { result ≡ is_sure_set kind }
{
    match kind {
        NodeKind::SetConst => true,
        NodeKind::SetVar => true,
        NodeKind::SetLocal => true,
        _ => false,
    }
}

fn is_set(nodes: &Arena, id: Id) -> bool
    ensures { result ≡ true → IsSureSet nodes.now id }
{
    match node_at(nodes, id) {
        None => false,
        Some(n) => is_sure_set(n.kind),
    }
}

/// Whether nodes of a kind are truth values or integers that are surely there.
fn is_sure_kind(kind: NodeKind) -> bool
    ensures { result ≡ is_sure_kind kind }
{
    match kind {
        NodeKind::Int => true,
        NodeKind::Bool => true,
        NodeKind::Var => true,
        NodeKind::Local => true,
        NodeKind::ToInt => true,
        NodeKind::Eq => true,
        NodeKind::Ne => true,
        NodeKind::Le => true,
        NodeKind::Lt => true,
        NodeKind::And => true,
        NodeKind::Or => true,
        NodeKind::Not => true,
        NodeKind::Iff => true,
        NodeKind::Member => true,
        NodeKind::SetEq => true,
        NodeKind::Subset => true,
        _ => false,
    }
}

fn is_sure_node(nodes: &Arena, id: Id) -> bool
    ensures { result ≡ true → IsSure nodes.now id }
{
    let Some(n) = node_at(nodes, id) else {
        return false;
    };
    match n.kind {
        NodeKind::Card => is_set(nodes, n.a),
        kind => is_sure_kind(kind),
    }
}

// ---- by their parts

/// Two nodes with values that make this one have a value.
fn enough(nodes: &Arena, id: Id) -> Option<(Id, Id)>
    ensures { MatchOption result (Unit {0}) (Suffice nodes.now id) }
{
    let Some(n) = node_at(nodes, id) else {
        return None;
    };
    match n.kind {
        NodeKind::Add => Some((n.a, n.b)),
        NodeKind::Mul => Some((n.a, n.b)),
        NodeKind::Abs => Some((n.a, n.a)),
        NodeKind::If => Some((n.b, n.c)),
        _ => None,
    }
}

fn is_sure_within(nodes: &Arena, id: Id, depth: u64) -> bool
    ensures { result ≡ true → IsSure nodes.now id }
{
    if depth == 0 {
        return false;
    }
    let Some(p) = enough(nodes, id) else {
        return is_sure_node(nodes, id);
    };
    if !is_sure_within(nodes, p.0, depth - 1) {
        return false;
    }
    is_sure_within(nodes, p.1, depth - 1)
}

/// Whether a node is a truth value or an integer that has a value wherever it is read. Not known where
/// a node that tells is six levels down.
pub fn is_sure(nodes: &Arena, id: Id) -> bool
    ensures { result ≡ true → IsSure nodes.now id }
{
    is_sure_within(nodes, id, DEPTH)
}
