// The parts of conjunctions.

ghost use Rattle.std.specs.Prelude.{◌≡◌, ◌∷◌, ◌++◌, ◌<◌, [], IfOk, OnOk, length};
ghost use Rattle.flat_root.specs.Parts.{AddsParts, AreRootsSplit, AreSplit, AreSplitEach, Visits, is_and, turned};
ghost use Rattle.flat_root.specs.Totals.{AreRootParts, IsRootPart};
ghost use Rattle.flat_root.specs.Turns.{AreBefore, AreUpTo, met_in};

use crate::turns::{is_met, meet};
use mz_arena::{Arena, Id, NodeKind};
use mz_base::Memory;
use std::alloc::Global;

fn is_and(kind: NodeKind) -> bool
    ensures { result ≡ is_and kind }
{
    matches!(kind, NodeKind::And)
}

// Both parts of a conjunction are to be looked at, the first one next.
fn push_both(stack: &mut Vec<Id>, a: Id, b: Id) -> Result<(), Memory>
    ensures { OnOk result (stack.new.items ≡ stack.old.items ++ b ∷ a ∷ []) }
{
    stack.push(b)?;
    stack.push(a)?;
    Ok(())
}

fn push_part(parts: &mut Vec<Id>, id: Id) -> Result<(), Memory>
    ensures { OnOk result (parts.new.items ≡ parts.old.items ++ id ∷ []) }
{
    parts.push(id)?;
    Ok(())
}

// Looks at an id, which stood last on the stack: a conjunction is taken apart, and any other is a part. An id
// that was met in this turn before adds nothing.
fn visit(
    arena: &Arena,
    id: Id,
    turn: u64,
    stack: &mut Vec<Id>,
    marks: &mut Vec<u64>,
    parts: &mut Vec<Id>,
) -> Result<(), Memory>
    requires place { id < length arena.now }
    requires marks { AreUpTo marks.old.items turn }
    ensures visits { OnOk result (Visits arena.now id stack.old.items stack.new.items (met_in turn marks.old.items) (met_in turn marks.new.items) parts.old.items parts.new.items) }
    ensures marks { OnOk result (AreUpTo marks.new.items turn) }
{
    let _count = arena.len();
    if is_met(marks.as_slice(), id, turn) {
        return Ok(());
    }
    given!(meet(marks, id, turn));
    let n = arena.node(id);
    if is_and(n.kind) {
        push_both(stack, n.a, n.b)
    } else {
        push_part(parts, id)
    }
}

// From the last to the first.
fn turned(alloc: Global, ids: &[Id]) -> Result<Vec<Id>, Memory>
    ensures { IfOk result (λ stack. stack.items ≡ turned ids.now) }
{
    let mut stack = Vec::new(alloc);
    let mut k = ids.len();
    'back: while k > 0 {
        k -= 1;
        given!(push_part(&mut stack, ids[k]));
    }
    Ok(stack)
}

// The parts of Boolean nodes: what they are conjunctions of, each once and in order. No recursion. The turn is
// one in which no id was met, nor after it.
fn split(
    alloc: Global,
    arena: &Arena,
    ids: &[Id],
    turn: u64,
    marks: &mut Vec<u64>,
) -> Result<Vec<Id>, Memory>
    requires parts { AreRootParts arena.now ids.now }
    requires marks { AreBefore marks.old.items turn }
    ensures split { IfOk result (λ parts. AreSplit arena.now ids.now parts.items) }
    ensures marks { OnOk result (AreUpTo marks.new.items turn) }
{
    let _count = arena.len();
    let mut stack = given!(turned(alloc, ids));
    let mut parts = Vec::new(alloc);
    'next: loop {
        match stack.pop() {
            Some(id) => given!(visit(arena, id, turn, &mut stack, marks, &mut parts)),
            None => return Ok(parts),
        }
    }
}

// Adds ids.
fn add_all(all: &mut Vec<Id>, ids: &[Id]) -> Result<(), Memory>
    ensures { OnOk result (all.new.items ≡ all.old.items ++ ids.now) }
{
    all.extend_from_slice(ids)?;
    Ok(())
}

// Adds the parts of one node, each once and in order.
fn add_parts(
    alloc: Global,
    arena: &Arena,
    id: Id,
    turn: u64,
    marks: &mut Vec<u64>,
    parts: &mut Vec<Id>,
) -> Result<(), Memory>
    requires part { IsRootPart arena.now id }
    requires marks { AreBefore marks.old.items turn }
    ensures added { OnOk result (AddsParts arena.now id parts.old.items parts.new.items) }
    ensures marks { OnOk result (AreUpTo marks.new.items turn) }
{
    let one = [id];
    let more = given!(split(alloc, arena, &one, turn, marks));
    add_all(parts, more.as_slice())
}

// The parts of Boolean nodes, for each node each once and in order.
fn split_each(alloc: Global, arena: &Arena, ids: &[Id]) -> Result<Vec<Id>, Memory>
    requires { AreRootParts arena.now ids.now }
    ensures { IfOk result (λ parts. AreSplitEach arena.now ids.now parts.items) }
{
    let mut parts = Vec::new(alloc);
    let mut marks = Vec::new(alloc);
    let mut k = 0;
    'nodes: while k < ids.len() {
        let id = ids[k];
        k += 1;
        given!(add_parts(alloc, arena, id, k as u64, &mut marks, &mut parts));
    }
    Ok(parts)
}

// The parts of roots: first where they have values, each part once; then of their total terms, for each root
// each once.
pub(crate) fn root_parts(
    alloc: Global,
    arena: &Arena,
    defined: &[Id],
    terms: &[Id],
) -> Result<Vec<Id>, Memory>
    requires defined { AreRootParts arena.now defined.now }
    requires terms { AreRootParts arena.now terms.now }
    ensures { IfOk result (λ parts. AreRootsSplit arena.now defined.now terms.now parts.items) }
{
    let mut marks = Vec::new(alloc);
    let mut parts = given!(split(alloc, arena, defined, 1, &mut marks));
    let more = given!(split_each(alloc, arena, terms));
    given!(add_all(&mut parts, more.as_slice()));
    Ok(parts)
}
