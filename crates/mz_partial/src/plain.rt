// Nodes that have a value where their children have.

ghost use Rattle.std.specs.Prelude.{IfOk};
ghost use Rattle.mz_partial.specs.declared.group.Group.TheVariants as group;
ghost use Rattle.mz_partial.specs.Totals.{Parted};
ghost use Rattle.mz_partial.specs.Nodes.{Takes};

use crate::flag::{both, conjoin};
use crate::make::remake;
use crate::part::{Part, part_at};
use mz_arena::{Arena, Id, Node};
use mz_base::Memory;

pub(crate) fn leaf(arena: &mut Arena, memo: &[Part], id: Id, n: Node) -> Result<Part, Memory>
    requires { Takes arena.old memo.now id n group.Leaf }
    ensures { IfOk result (Parted arena.old arena.new id) }
{
    let _memo = memo;
    let _n = n;
    let _count = arena.len();
    Ok(Part {
        flag: None,
        term: id,
        len: 0,
    })
}

pub(crate) fn one(arena: &mut Arena, memo: &[Part], id: Id, n: Node) -> Result<Part, Memory>
    requires { Takes arena.old memo.now id n group.One }
    ensures { IfOk result (Parted arena.old arena.new id) }
{
    let p = part_at(memo, n.a);
    let term = remake(arena, id, n, p.term, n.b, n.c)?;
    Ok(Part {
        flag: p.flag,
        term,
        len: 0,
    })
}

pub(crate) fn two(arena: &mut Arena, memo: &[Part], id: Id, n: Node) -> Result<Part, Memory>
    requires { Takes arena.old memo.now id n group.Two }
    ensures { IfOk result (Parted arena.old arena.new id) }
{
    let p = part_at(memo, n.a);
    let q = part_at(memo, n.b);
    let term = remake(arena, id, n, p.term, q.term, n.c)?;
    let flag = both(arena, p.flag, q.flag)?;
    Ok(Part { flag, term, len: 0 })
}

/// A comparison: false where a child has no value.
pub(crate) fn test(arena: &mut Arena, memo: &[Part], id: Id, n: Node) -> Result<Part, Memory>
    requires { Takes arena.old memo.now id n group.Test }
    ensures { IfOk result (Parted arena.old arena.new id) }
{
    let p = part_at(memo, n.a);
    let q = part_at(memo, n.b);
    let holds = remake(arena, id, n, p.term, q.term, n.c)?;
    let flag = both(arena, p.flag, q.flag)?;
    let term = conjoin(arena, flag, holds)?;
    Ok(Part {
        flag: None,
        term,
        len: 0,
    })
}
