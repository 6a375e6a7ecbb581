// The ids that are needed for some.

ghost use Rattle.std.specs.Prelude.{◌≡◌, ◌∷◌, ◌+◌, ◌<◌, [], IfOk, OnOk, length};
ghost use Rattle.flat_reif.specs.Below.{AreNeeded};
ghost use Rattle.flat_root.specs.Marks.{AreMarked, AreTotal, AreTotalIds, ClosedFrom, Closes, ClosesAt, Covers, children_of, needed_children};

use flat_reif::Needed;
use mz_arena::{Arena, Id, Node, NodeKind};
use mz_base::Memory;
use std::alloc::Global;

// How many children of a node are needed where it is.
#[derive(Clone, Copy)]
pub(crate) enum Children {
    None,
    One,
    Two,
    Three,
}

// Of a variable or a choice none, as its domain isn't needed.
fn children_of(kind: NodeKind) -> Children
    ensures { result ≡ children_of kind }
{
    match kind {
        NodeKind::Int => Children::None,
        NodeKind::Bool => Children::None,
        NodeKind::Var => Children::None,
        NodeKind::Local => Children::None,
        NodeKind::Nil => Children::None,
        NodeKind::SetConst => Children::None,
        NodeKind::SetVar => Children::None,
        NodeKind::SetLocal => Children::None,
        NodeKind::Min => Children::One,
        NodeKind::Max => Children::One,
        NodeKind::Abs => Children::One,
        NodeKind::ToInt => Children::One,
        NodeKind::Not => Children::One,
        NodeKind::Card => Children::One,
        NodeKind::If => Children::Three,
        _ => Children::Two,
    }
}

fn add_one(need: &mut Needed, a: Id) -> Result<(), Memory>
    ensures { OnOk result (Covers need.old need.new (a ∷ [])) }
{
    need.add(a)
}

fn add_two(need: &mut Needed, a: Id, b: Id) -> Result<(), Memory>
    ensures { OnOk result (Covers need.old need.new (a ∷ b ∷ [])) }
{
    given!(add_one(need, a));
    add_one(need, b)
}

fn add_three(need: &mut Needed, a: Id, b: Id, c: Id) -> Result<(), Memory>
    ensures { OnOk result (Covers need.old need.new (a ∷ b ∷ c ∷ [])) }
{
    given!(add_one(need, a));
    add_two(need, b, c)
}

// Adds the children of a node.
fn add_children(need: &mut Needed, n: &Node) -> Result<(), Memory>
    ensures { OnOk result (Covers need.old need.new (needed_children n.now)) }
{
    match children_of(n.kind) {
        Children::None => Ok(()),
        Children::One => add_one(need, n.a),
        Children::Two => add_two(need, n.a, n.b),
        Children::Three => add_three(need, n.a, n.b, n.c),
    }
}

// Adds the children of an id of an arena, where it is needed.
fn close_at(arena: &Arena, need: &mut Needed, id: Id) -> Result<(), Memory>
    requires place { id < length arena.now }
    requires total { AreTotal arena.now need.old }
    requires closed { ClosedFrom arena.now need.old (id + 1) }
    ensures { OnOk result (ClosesAt arena.now need.old need.new id) }
{
    let _count = arena.len();
    if need.has(id) {
        add_children(need, &arena.node(id))
    } else {
        Ok(())
    }
}

// Adds all ids below the needed ones, from the greatest to the least.
fn close(arena: &Arena, need: &mut Needed) -> Result<(), Memory>
    requires { AreTotal arena.now need.old }
    ensures { OnOk result (Closes arena.now need.old need.new) }
{
    let mut here = arena.len();
    'down: while here > 0 {
        here -= 1;
        given!(close_at(arena, need, here));
    }
    Ok(())
}

// Adds some ids.
fn add_all(need: &mut Needed, ids: &[Id]) -> Result<(), Memory>
    ensures { OnOk result (Covers need.old need.new ids.now) }
{
    'ids: for id in ids {
        given!(add_one(need, *id));
    }
    Ok(())
}

/// The ids that are needed for some, which are total nodes: they, and all below them but the domains of
/// variables and choices.
pub fn needed_for(alloc: Global, arena: &Arena, ids: &[Id]) -> Result<Needed, Memory>
    requires { AreTotalIds arena.now ids.now }
    ensures needed { IfOk result (AreNeeded arena.now) }
    ensures each { IfOk result (λ need. AreMarked need ids.now) }
{
    let mut need = Needed::new(alloc);
    given!(add_all(&mut need, ids));
    given!(close(arena, &mut need));
    Ok(need)
}
