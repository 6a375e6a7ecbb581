// What the calls of an arena answer.

ghost use Rattle.std.specs.Prelude.{◌<◌, IfOk, IfSome, length};

use cases::Page;
use mz_arena::{Arena, Id, Node, NodeKind, charge};
use mz_arena_blocks::Blocks;
use mz_base::Memory;
use mz_interval::Interval;
use mz_partial::{Memo, total};
use mz_value::RangeSet;
use std::alloc::Global;

fn nodes(arena: &mut Arena, page: &mut Page) -> Result<(), Memory> {
    let seven = Node {
        kind: NodeKind::Int,
        a: 0,
        b: 0,
        c: 0,
        number: 7,
    };
    page.case("the integer 7", arena.intern(seven)?);
    Ok(())
}

fn sets(alloc: Global, arena: &mut Arena, page: &mut Page) -> Result<(), Memory> {
    let set = RangeSet::range(alloc, 1, 3)?;
    page.case("the set 1..3", arena.set_const(set)?);
    Ok(())
}

/// The id of an operation on two nodes, where it may be made.
fn made(arena: &mut Arena, kind: NodeKind, a: Id, b: Id) -> Result<Option<Id>, Memory>
    ensures { IfOk result (λ r. IfSome r (λ id. id < length arena.new)) }
{
    let node = Node {
        kind,
        a,
        b,
        c: 0,
        number: 0,
    };
    let id = arena.checked(node)?;
    Ok(id)
}

/// The total term of an operation on two nodes, and the Boolean that tells where it has a value.
fn split(
    alloc: Global,
    arena: &mut Arena,
    page: &mut Page,
    kind: NodeKind,
    a: Id,
    b: Id,
) -> Result<(), Memory> {
    let Some(id) = made(arena, kind, a, b)? else {
        return Ok(());
    };
    let mut memo = Memo::new(alloc);
    let pair = total(arena, id, &mut memo)?;
    page.case("an operation on two integers", id);
    page.case("its total term", pair.term);
    page.case("where it has a value", pair.defined);
    Ok(())
}

fn totals(alloc: Global, arena: &mut Arena, page: &mut Page) -> Result<(), Memory> {
    split(alloc, arena, page, NodeKind::Mul, 0, 0)?;
    let Some(zero) = made(arena, NodeKind::Int, 0, 0)? else {
        return Ok(());
    };
    page.case("the integer 0", zero);
    split(alloc, arena, page, NodeKind::Div, 0, zero)?;
    Ok(())
}

/// The hull of a part of a list of five intervals.
fn hulls(alloc: Global, page: &mut Page) -> Result<(), Memory> {
    let mut lists = Blocks::new(alloc);
    let mut list = 0;
    for n in 0..5u64 {
        let lo = n as i64;
        if list < lists.len() {
            list = lists.push(Interval { lo, hi: 10 }, list)?;
        }
    }
    page.case("lists of intervals", lists.len());
    if list < lists.len() {
        let hull = lists.hull_between(list, 1, 2)?;
        page.case("the least of the second and the third", hull.lo);
    }
    Ok(())
}

/// The union of a part of a list of two sets.
fn unions(alloc: Global, page: &mut Page) -> Result<(), Memory> {
    let mut lists = Blocks::new(alloc);
    let last = RangeSet::range(alloc, 1, 3)?;
    let first = RangeSet::range(alloc, 7, 8)?;
    let _last_ranges = last.ranges();
    let _first_ranges = first.ranges();
    let list = lists.push(last, 0)?;
    if list < lists.len() {
        let list = lists.push(first, list)?;
        if list < lists.len() {
            let union = lists.union_between(alloc, list, 0, 2)?;
            page.case("elements of the union of two sets", union.card());
        }
    }
    Ok(())
}

/// All cases of terms.
pub fn print(alloc: Global, page: &mut Page) -> Result<(), Memory> {
    let mut arena = Arena::new(alloc);
    page.case("nodes of a new arena", arena.len());
    nodes(&mut arena, page)?;
    sets(alloc, &mut arena, page)?;
    page.case("nodes", arena.len());
    totals(alloc, &mut arena, page)?;
    page.case("nodes", arena.len());
    page.case("charge of a quotient", charge(NodeKind::Div));
    hulls(alloc, page)?;
    unions(alloc, page)
}
