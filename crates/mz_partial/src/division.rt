// Quotients and remainders, and operands that are tested and made safe.

ghost use Rattle.std.specs.Prelude.{◌≡◌, IfOk, Some, pos, true};
ghost use Rattle.mz_interval.specs.Ends.{is_number, Encloses};
ghost use Rattle.mz_interval.specs.Interval.{ends};
ghost use Rattle.mz_operations.specs.Bounds.{nothing};
ghost use Rattle.mz_arena.specs.Arenas.{IsArena};
ghost use Rattle.mz_arena.specs.Extents.{whole, extent};
ghost use Rattle.mz_partial.specs.declared.group.Group.TheVariants as group;
ghost use Rattle.mz_partial.specs.Told.{IsApart};
ghost use Rattle.mz_partial.specs.Totals.{IsWhole, Parted};
ghost use Rattle.mz_partial.specs.Nodes.{Takes};
ghost use Rattle.mz_partial.specs.Calls.{IsFlag, Tests, IsSafe, is_nonzero};

use crate::flag::both;
use crate::make::{choice, comparison, integer, remake};
use crate::never::never;
use crate::part::{Part, part_at};
use mz_arena::{Arena, Id, Node, NodeKind};
use mz_base::Memory;
use mz_interval::Interval;
use std::alloc::Global;

/// Whether an integer isn't 0: no flag where its bounds tell it.
fn nonzero(arena: &mut Arena, u: Id, range: Interval) -> Result<Option<Id>, Memory>
    requires arena { IsArena arena.old }
    requires whole { extent arena.old u ≡ Some (whole (ends range)) }
    ensures { IfOk result (Tests 2 (IsApart (ends range)) arena.old arena.new u is_nonzero) }
{
    if range.lo > 0 {
        return Ok(None);
    }
    if range.hi < 0 {
        return Ok(None);
    }
    let zero = integer(arena, 0)?;
    let f = comparison(arena, NodeKind::Ne, u, zero)?;
    Ok(Some(f))
}

/// The integer where a flag is true, and else a number.
pub(crate) fn safe(arena: &mut Arena, u: Id, f: Option<Id>, number: i64) -> Result<Id, Memory>
    requires arena { IsArena arena.old }
    requires whole { IsWhole arena.old u }
    requires flag { IsFlag arena.old f }
    requires limit { is_number number ≡ true }
    ensures { IfOk result (IsSafe arena.old arena.new u f number) }
{
    let Some(c) = f else {
        return Ok(u);
    };
    let k = integer(arena, number)?;
    let w = choice(arena, c, u, k)?;
    Ok(w)
}

/// A number in the bounds that isn't 0; 0 where there is none.
fn divisor(range: Interval) -> i64
    ensures within { Encloses (ends range) result }
    ensures never { result ≡ pos 0 → ends range ≡ nothing }
    ensures limit { is_number result ≡ true }
{
    if range.lo != 0 { range.lo } else { range.hi }
}

pub(crate) fn division(
    arena: &mut Arena,
    alloc: Global,
    memo: &[Part],
    id: Id,
    n: Node,
) -> Result<Part, Memory>
    requires { Takes arena.old memo.now id n group.Division }
    ensures { IfOk result (Parted arena.old arena.new id) }
{
    let p = part_at(memo, n.a);
    let q = part_at(memo, n.b);
    let range = arena.bounds(q.term);
    let number = divisor(range);
    if number == 0 {
        return never(arena, alloc, id);
    }
    let test = nonzero(arena, q.term, range)?;
    let w = safe(arena, q.term, test, number)?;
    let term = remake(arena, id, n, p.term, w, n.c)?;
    let parts = both(arena, p.flag, q.flag)?;
    let flag = both(arena, parts, test)?;
    Ok(Part { flag, term, len: 0 })
}
