// Nodes of an arena.

ghost use Rattle.std.specs.Prelude.{◌≡◌, ◌≢◌, ◌<◌, [], IsSome, Some, false, length, map, slice_get, true};
ghost use Rattle.mz_arena.specs.Entries.{is_free, is_local};
ghost use Rattle.mz_arena.specs.Extents.{as_truth, as_whole, extent};
ghost use Rattle.mz_arena.specs.FreeNodes.{is_set_kind};
ghost use Rattle.mz_instance.specs.Instance.{AreTruths, IsObjective};
ghost use Rattle.mz_instance.specs.Parts.{AreNodes, IsNode};
ghost use Rattle.cases_instances.specs.Nodes.{AreKept, IsKeptAt, IsVariableNode};
ghost use Rattle.cases_instances.specs.Seen.{part, sort_in};

use crate::part::{PartSort, VarPart};
use mz_arena::{Arena, Id, InstanceGoal, Node, NodeKind, Sort};
use mz_value::RangeSet;

// Whether two sets are the same list of ranges.
fn is_same(a: &RangeSet, b: &RangeSet) -> bool
    ensures { result ≡ true → a.now ≡ b.now }
{
    a.ranges() == b.ranges()
}

// Whether a node is a variable of this sort.
fn is_variable(sort: PartSort, n: &Node) -> bool
    ensures { result ≡ true → IsVariableNode n.now (sort_in sort) }
{
    match sort {
        PartSort::Whole => n.kind == NodeKind::Var && n.c == 0,
        PartSort::Truth => n.kind == NodeKind::Var && n.c == 1,
        PartSort::Subset => n.kind == NodeKind::SetVar,
    }
}

// Whether this is the node of a part, where the part has the number `k`.
fn is_node(arena: &Arena, k: u64, p: &VarPart, id: Id) -> bool
    ensures { result ≡ true → IsNode arena.now false k (part p.now) id }
{
    if id >= arena.len() {
        return false;
    }
    let n = arena.node(id);
    if !is_variable(p.sort, &n) {
        return false;
    }
    n.b == k && is_same(arena.set(n.a), &p.set)
}

/// Whether these are the nodes of the parts, as many as these.
pub(crate) fn are_nodes(arena: &Arena, ids: &[Id], parts: &[VarPart]) -> bool
    ensures { result ≡ true → AreNodes arena.now false 0 ids.now (map part parts.now) }
{
    let _count = parts.len();
    let mut nodes = ids;
    let mut rest = parts;
    let mut k = 0;
    'parts: while let [p, more @ ..] = rest {
        let [id, others @ ..] = nodes else {
            return false;
        };
        if !is_node(arena, k, p, *id) {
            return false;
        }
        k += 1;
        rest = more;
        nodes = others;
    }
    nodes.is_empty()
}

// Whether this id stands at a place.
fn is_at(ids: &[Id], k: u64, id: Id) -> bool
    ensures { result ≡ true → slice_get ids.now k ≡ Some id }
{
    match ids.get(k as usize) {
        Some(i) => *i == id,
        None => false,
    }
}

// Whether a node of this kind is a variable or a choice.
fn is_free(kind: NodeKind) -> bool
    ensures { result ≡ is_free kind }
{
    matches!(
        kind,
        NodeKind::Var | NodeKind::Local | NodeKind::SetVar | NodeKind::SetLocal
    )
}

// Whether a node of this kind is a choice.
fn is_local(kind: NodeKind) -> bool
    ensures { result ≡ is_local kind }
{
    matches!(kind, NodeKind::Local | NodeKind::SetLocal)
}

// Whether the values of a variable or a choice of this kind are sets.
fn is_set_kind(kind: NodeKind) -> bool
    ensures { result ≡ is_set_kind kind }
{
    matches!(kind, NodeKind::SetVar | NodeKind::SetLocal)
}

// Whether a set has an element.
fn has_some(domain: &RangeSet) -> bool
    ensures { result ≡ true → domain.now ≢ [] }
{
    !domain.ranges().is_empty()
}

// Whether a choice has some value to take: a set has at least the empty one.
fn can_take(kind: NodeKind, domain: &RangeSet) -> bool
    ensures { result ≡ true → is_set_kind kind ≡ false → domain.now ≢ [] }
{
    is_set_kind(kind) || has_some(domain)
}

// Whether a node that is a variable is that of its part, and one that is a choice has some value to take.
fn is_kept(arena: &Arena, ids: &[Id], id: Id) -> bool
    requires { id < length arena.now }
    ensures { result ≡ true → IsKeptAt arena.now ids.now id }
{
    let _count = arena.len();
    let n = arena.node(id);
    if is_local(n.kind) {
        can_take(n.kind, arena.set(n.a))
    } else if is_free(n.kind) {
        is_at(ids, n.b, id)
    } else {
        true
    }
}

/// Whether each variable is that of its part, and each choice has some value to take.
pub(crate) fn are_kept(arena: &Arena, ids: &[Id]) -> bool
    ensures { result ≡ true → AreKept arena.now ids.now }
{
    let mut id = 0;
    'ids: while id < arena.len() {
        if !is_kept(arena, ids, id) {
            return false;
        }
        id += 1;
    }
    true
}

// Whether a node is a Boolean.
fn is_truth(arena: &Arena, id: Id) -> bool
    ensures { result ≡ true → IsSome (as_truth (extent arena.now id)) }
{
    id < arena.len() && matches!(arena.sort(id), Sort::Boolean)
}

// Whether a node is an integer.
fn is_whole(arena: &Arena, id: Id) -> bool
    ensures { result ≡ true → IsSome (as_whole (extent arena.now id)) }
{
    id < arena.len() && matches!(arena.sort(id), Sort::Integer)
}

/// Whether all of these are Booleans.
pub(crate) fn are_truths(arena: &Arena, roots: &[Id]) -> bool
    ensures { result ≡ true → AreTruths arena.now roots.now }
{
    let mut rest = roots;
    'roots: while let [r, more @ ..] = rest {
        if !is_truth(arena, *r) {
            return false;
        }
        rest = more;
    }
    true
}

/// Whether what is minimized or maximized is an integer.
pub(crate) fn is_objective(arena: &Arena, goal: InstanceGoal) -> bool
    ensures { result ≡ true → IsObjective arena.now goal }
{
    match goal {
        InstanceGoal::Satisfy => true,
        InstanceGoal::Minimize(id) => is_whole(arena, id),
        InstanceGoal::Maximize(id) => is_whole(arena, id),
    }
}
