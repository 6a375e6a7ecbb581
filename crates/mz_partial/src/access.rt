// Accesses to lists.

ghost use Rattle.std.specs.Prelude.{◌≡◌, ◌≤ℤ◌, IfOk, Some, pos, true};
ghost use Rattle.std.specs.Int.{int_max};
ghost use Rattle.mz_interval.specs.Ends.{is_number};
ghost use Rattle.mz_interval.specs.Interval.{ends};
ghost use Rattle.mz_arena.specs.Arenas.{IsArena};
ghost use Rattle.mz_arena.specs.Extents.{whole, extent};
ghost use Rattle.mz_partial.specs.declared.group.Group.TheVariants as group;
ghost use Rattle.mz_partial.specs.Told.{AreInside};
ghost use Rattle.mz_partial.specs.Totals.{Parted};
ghost use Rattle.mz_partial.specs.Nodes.{Takes};
ghost use Rattle.mz_partial.specs.Calls.{Tests, IsPlaceIn, is_from_one, is_up_to, is_place};

use crate::division::safe;
use crate::flag::both;
use crate::make::{comparison, integer, remake};
use crate::never::never;
use crate::part::{Part, part_at};
use mz_arena::{Arena, Id, Node, NodeKind};
use mz_base::Memory;
use mz_interval::Interval;
use std::alloc::Global;

/// Whether an integer is at least 1: no flag where its bounds tell it.
fn from_one(arena: &mut Arena, u: Id, range: Interval) -> Result<Option<Id>, Memory>
    requires arena { IsArena arena.old }
    requires whole { extent arena.old u ≡ Some (whole (ends range)) }
    ensures { IfOk result (Tests 2 (pos 1 ≤ℤ (ends range).0) arena.old arena.new u is_from_one) }
{
    if range.lo >= 1 {
        return Ok(None);
    }
    let first = integer(arena, 1)?;
    let f = comparison(arena, NodeKind::Le, first, u)?;
    Ok(Some(f))
}

/// Whether an integer is at most the number of elements.
fn up_to(arena: &mut Arena, u: Id, range: Interval, len: i64) -> Result<Option<Id>, Memory>
    requires arena { IsArena arena.old }
    requires whole { extent arena.old u ≡ Some (whole (ends range)) }
    requires limit { is_number len ≡ true }
    ensures { IfOk result (Tests 2 ((ends range).1 ≤ℤ len) arena.old arena.new u (is_up_to len)) }
{
    if range.hi <= len {
        return Ok(None);
    }
    let last = integer(arena, len)?;
    let f = comparison(arena, NodeKind::Le, u, last)?;
    Ok(Some(f))
}

/// Whether an integer is a place of a list with this many elements.
fn inside(arena: &mut Arena, u: Id, range: Interval, len: i64) -> Result<Option<Id>, Memory>
    requires arena { IsArena arena.old }
    requires whole { extent arena.old u ≡ Some (whole (ends range)) }
    requires limit { is_number len ≡ true }
    ensures { IfOk result (Tests 6 (AreInside len (ends range)) arena.old arena.new u (is_place len)) }
{
    let low = from_one(arena, u, range)?;
    let high = up_to(arena, u, range, len)?;
    let f = both(arena, low, high)?;
    Ok(f)
}

fn first_place(range: Interval) -> i64
    ensures { result ≡ int_max (pos 1) (ends range).0 }
{
    if range.lo < 1 { 1 } else { range.lo }
}

/// A place of a list within the bounds of an index; 0 where there is none.
fn place(range: Interval, len: i64) -> i64
    requires { pos 0 ≤ℤ len }
    ensures place { IsPlaceIn (ends range) len result }
    ensures limit { is_number result ≡ true }
{
    let first = first_place(range);
    if first > range.hi {
        return 0;
    }
    if first > len {
        return 0;
    }
    first
}

/// An element of a list. A list of more than 2^61 elements is answered with `Memory`.
pub(crate) fn access(
    arena: &mut Arena,
    alloc: Global,
    memo: &[Part],
    id: Id,
    n: Node,
) -> Result<Part, Memory>
    requires { Takes arena.old memo.now id n group.Access }
    ensures { IfOk result (Parted arena.old arena.new id) }
{
    let p = part_at(memo, n.a);
    let q = part_at(memo, n.b);
    if q.len > 1 << 61 {
        return Err(Memory);
    }
    let len = q.len as i64;
    let range = arena.bounds(p.term);
    let number = place(range, len);
    if number == 0 {
        return never(arena, alloc, id);
    }
    let test = inside(arena, p.term, range, len)?;
    let w = safe(arena, p.term, test, number)?;
    let term = remake(arena, id, n, w, q.term, n.c)?;
    let parts = both(arena, q.flag, p.flag)?;
    let flag = both(arena, parts, test)?;
    Ok(Part { flag, term, len: 0 })
}
