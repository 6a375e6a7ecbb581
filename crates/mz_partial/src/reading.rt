// Nodes that read a Boolean, which counts as false where it has no value.

ghost use Rattle.std.specs.Prelude.{IfOk};
ghost use Rattle.mz_partial.specs.declared.group.Group.TheVariants as group;
ghost use Rattle.mz_partial.specs.Totals.{Parted};
ghost use Rattle.mz_partial.specs.Nodes.{Takes};

use crate::flag::{both, chosen, strict};
use crate::make::{connective, remake};
use crate::part::{Part, part_at};
use mz_arena::{Arena, Id, Node, NodeKind, Sort};
use mz_base::Memory;

pub(crate) fn connected(arena: &mut Arena, memo: &[Part], id: Id, n: Node) -> Result<Part, Memory>
    requires { Takes arena.old memo.now id n group.Connective }
    ensures { IfOk result (Parted arena.old arena.new id) }
{
    let p = part_at(memo, n.a);
    let q = part_at(memo, n.b);
    let a = strict(arena, n.a, p)?;
    let b = strict(arena, n.b, q)?;
    let term = remake(arena, id, n, a, b, n.c)?;
    Ok(Part {
        flag: None,
        term,
        len: 0,
    })
}

pub(crate) fn reading(arena: &mut Arena, memo: &[Part], id: Id, n: Node) -> Result<Part, Memory>
    requires { Takes arena.old memo.now id n group.Reading }
    ensures { IfOk result (Parted arena.old arena.new id) }
{
    let p = part_at(memo, n.a);
    let a = strict(arena, n.a, p)?;
    let term = remake(arena, id, n, a, n.b, n.c)?;
    Ok(Part {
        flag: None,
        term,
        len: 0,
    })
}

pub(crate) fn branches(arena: &mut Arena, memo: &[Part], id: Id, n: Node) -> Result<Part, Memory>
    requires { Takes arena.old memo.now id n group.Choice }
    ensures { IfOk result (Parted arena.old arena.new id) }
{
    let p = part_at(memo, n.a);
    let q = part_at(memo, n.b);
    let r = part_at(memo, n.c);
    let c = strict(arena, n.a, p)?;
    let term = remake(arena, id, n, c, q.term, r.term)?;
    let flag = chosen(arena, c, q.flag, r.flag)?;
    Ok(Part { flag, term, len: 0 })
}

/// A value under a condition. Without it the value's own total term is total too; a Boolean is made
/// false there, so that its bounds are those of the node.
pub(crate) fn guarded(arena: &mut Arena, memo: &[Part], id: Id, n: Node) -> Result<Part, Memory>
    requires { Takes arena.old memo.now id n group.Guard }
    ensures { IfOk result (Parted arena.old arena.new id) }
{
    let p = part_at(memo, n.a);
    let q = part_at(memo, n.b);
    let c = strict(arena, n.a, p)?;
    let flag = both(arena, Some(c), q.flag)?;
    match arena.sort(n.b) {
        Sort::Boolean => {
            let term = connective(arena, NodeKind::And, c, q.term)?;
            Ok(Part { flag, term, len: 0 })
        }
        _ => Ok(Part {
            flag,
            term: q.term,
            len: 0,
        }),
    }
}
