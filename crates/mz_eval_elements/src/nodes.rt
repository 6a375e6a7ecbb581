// Nodes that are constants.

ghost use Rattle.std.specs.Prelude.{◌≡◌, Some, true, ℕ};
ghost use Rattle.mz_arena.specs.Values.{Term, bit, number};
ghost use Rattle.mz_symbol.specs.Runs.{ReadsNodes};
ghost use Rattle.mz_eval_elements.specs.StepsLines.{is_literal, IsLiteral};

use mz_arena::{Arena, Id, Node, NodeKind};

fn is_literal(kind: NodeKind) -> bool
    ensures { result ≡ is_literal kind }
{
    match kind {
        NodeKind::Int => true,
        NodeKind::Bool => true,
        _ => false,
    }
}

fn has_number(node: &Node, n: &i64) -> bool
    ensures { result ≡ true → IsLiteral node.now n.now }
{
    is_literal(node.kind) && node.number == *n
}

/// Whether a node is this number wherever it is read: an integer, or a truth value as 0 or 1.
pub(crate) fn is_number(nodes: &Arena, id: Id, n: &i64) -> bool
    ensures { result ≡ true → (t : ℕ → Term) → ReadsNodes t nodes.now → t id ≡ Some (number n.now) }
{
    if id >= nodes.len() {
        return false;
    }
    let node = nodes.node(id);
    has_number(&node, n)
}

/// Whether a node is this truth value wherever it is read.
pub(crate) fn is_bit(nodes: &Arena, id: Id, b: bool) -> bool
    ensures { result ≡ true → (t : ℕ → Term) → ReadsNodes t nodes.now → t id ≡ bit b }
{
    let n = b as i64;
    is_number(nodes, id, &n)
}
