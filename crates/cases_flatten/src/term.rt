// Terms: words, each of which takes the nodes that it needs from those before it and leaves one.

use crate::draft::Draft;
use crate::set::set;
use mz_arena::{Id, Node, NodeKind};
use mz_base::Memory;
use std::alloc::Global;

// The words of operations, with how many nodes they take.
const OPERATIONS: [(&str, NodeKind, u64); 28] = [
    ("+", NodeKind::Add, 2),
    ("*", NodeKind::Mul, 2),
    ("div", NodeKind::Div, 2),
    ("mod", NodeKind::Mod, 2),
    ("min", NodeKind::Min, 1),
    ("max", NodeKind::Max, 1),
    ("abs", NodeKind::Abs, 1),
    ("int", NodeKind::ToInt, 1),
    ("=", NodeKind::Eq, 2),
    ("!=", NodeKind::Ne, 2),
    ("<=", NodeKind::Le, 2),
    ("<", NodeKind::Lt, 2),
    ("and", NodeKind::And, 2),
    ("or", NodeKind::Or, 2),
    ("not", NodeKind::Not, 1),
    ("iff", NodeKind::Iff, 2),
    ("if", NodeKind::If, 3),
    ("at", NodeKind::Access, 2),
    ("guard", NodeKind::Guard, 2),
    ("nil", NodeKind::Nil, 0),
    ("cons", NodeKind::Cons, 2),
    ("in", NodeKind::Member, 2),
    ("union", NodeKind::Union, 2),
    ("inter", NodeKind::Intersect, 2),
    ("diff", NodeKind::Diff, 2),
    ("sym", NodeKind::Symdiff, 2),
    ("card", NodeKind::Card, 1),
    ("eqset", NodeKind::SetEq, 2),
];

fn operation(word: &str) -> Option<(NodeKind, u64)> {
    if word == "subset" {
        return Some((NodeKind::Subset, 2));
    }
    for o in &OPERATIONS {
        if o.0 == word {
            return Some((o.1, o.2));
        }
    }
    None
}

// A node that has no children.
fn leaf(kind: NodeKind, number: i64) -> Node {
    Node {
        kind,
        a: 0,
        b: 0,
        c: 0,
        number,
    }
}

// The node of a constant: a number or a truth value.
fn constant(word: &str) -> Option<Node> {
    if word == "true" {
        return Some(leaf(NodeKind::Bool, 1));
    }
    if word == "false" {
        return Some(leaf(NodeKind::Bool, 0));
    }
    match word.parse::<i64>() {
        Ok(n) => Some(leaf(NodeKind::Int, n)),
        Err(_) => None,
    }
}

// A choice of a kind over a set, with its mark.
fn choose(
    alloc: Global,
    draft: &mut Draft,
    kind: NodeKind,
    c: u64,
    word: &str,
) -> Result<Option<Id>, Memory> {
    let Some(domain) = given!(set(alloc, word)) else {
        return Ok(None);
    };
    let a = given!(draft.arena.set_const(domain));
    let number = draft.own();
    let b = draft.choices;
    draft.choices = b.wrapping_add(1);
    draft.node(Node {
        kind,
        a,
        b,
        c,
        number,
    })
}

// A constant set, `{1..3}`, or a choice: `?1..3` of an integer, `?` of a truth value, `?{1..3}` of a set.
fn special(alloc: Global, draft: &mut Draft, word: &str) -> Result<Option<Id>, Memory> {
    if word == "?" {
        return choose(alloc, draft, NodeKind::Local, 1, "0..1");
    }
    if let Some(rest) = word.strip_prefix("?{") {
        return match rest.strip_suffix("}") {
            Some(inner) => choose(alloc, draft, NodeKind::SetLocal, 0, inner),
            None => Ok(None),
        };
    }
    if let Some(rest) = word.strip_prefix('?') {
        return choose(alloc, draft, NodeKind::Local, 0, rest);
    }
    let Some(rest) = word.strip_prefix('{') else {
        return Ok(None);
    };
    let Some(inner) = rest.strip_suffix("}") else {
        return Ok(None);
    };
    match given!(set(alloc, inner)) {
        Some(s) => Ok(Some(given!(draft.arena.set_const(s)))),
        None => Ok(None),
    }
}

// The last node, or 0.
fn taken(stack: &mut Vec<Id>, wanted: bool) -> Id {
    if !wanted {
        return 0;
    }
    match stack.pop() {
        Some(id) => id,
        None => 0,
    }
}

// The node of an operation on the last nodes.
fn operated(stack: &mut Vec<Id>, kind: NodeKind, count: u64) -> Node {
    let c = taken(stack, count >= 3);
    let b = taken(stack, count >= 2);
    let a = taken(stack, count >= 1);
    Node {
        kind,
        a,
        b,
        c,
        number: 0,
    }
}

// The node that a word leaves.
fn word_node(
    alloc: Global,
    draft: &mut Draft,
    stack: &mut Vec<Id>,
    word: &str,
) -> Result<Option<Id>, Memory> {
    if let Some(id) = draft.labelled(word) {
        return Ok(Some(id));
    }
    if let Some((kind, count)) = operation(word) {
        let n = operated(stack, kind, count);
        return draft.node(n);
    }
    if let Some(n) = constant(word) {
        return draft.node(n);
    }
    special(alloc, draft, word)
}

/// The node that words leave, where each of them leaves one.
pub fn term(alloc: Global, draft: &mut Draft, words: &str) -> Result<Option<Id>, Memory> {
    let mut stack = Vec::new(alloc);
    for word in words.split(' ') {
        match given!(word_node(alloc, draft, &mut stack, word)) {
            Some(id) => stack.push(id)?,
            None => return Ok(None),
        }
    }
    Ok(stack.pop())
}
