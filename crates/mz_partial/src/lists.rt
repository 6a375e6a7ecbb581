// Lists: an element before another list, and the least or the greatest.

ghost use Rattle.std.specs.Prelude.{IfOk};
ghost use Rattle.mz_partial.specs.declared.group.Group.TheVariants as group;
ghost use Rattle.mz_partial.specs.Totals.{Parted};
ghost use Rattle.mz_partial.specs.Nodes.{Takes};

use crate::flag::both;
use crate::make::remake;
use crate::never::never;
use crate::part::{Part, part_at};
use mz_arena::{Arena, Id, Node};
use mz_base::Memory;
use std::alloc::Global;

/// An element before a list. A list of 2^64 elements is answered with `Memory`.
pub(crate) fn cons(arena: &mut Arena, memo: &[Part], id: Id, n: Node) -> Result<Part, Memory>
    requires { Takes arena.old memo.now id n group.Cons }
    ensures { IfOk result (Parted arena.old arena.new id) }
{
    let p = part_at(memo, n.a);
    let q = part_at(memo, n.b);
    if q.len == u64::MAX {
        return Err(Memory);
    }
    let term = remake(arena, id, n, p.term, q.term, n.c)?;
    let flag = both(arena, p.flag, q.flag)?;
    Ok(Part {
        flag,
        term,
        len: q.len + 1,
    })
}

pub(crate) fn extreme(
    arena: &mut Arena,
    alloc: Global,
    memo: &[Part],
    id: Id,
    n: Node,
) -> Result<Part, Memory>
    requires { Takes arena.old memo.now id n group.Extreme }
    ensures { IfOk result (Parted arena.old arena.new id) }
{
    let p = part_at(memo, n.a);
    if p.len == 0 {
        return never(arena, alloc, id);
    }
    let term = remake(arena, id, n, p.term, n.b, n.c)?;
    Ok(Part {
        flag: p.flag,
        term,
        len: 0,
    })
}
