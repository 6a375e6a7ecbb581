// Total terms, id by id.

ghost use Rattle.std.specs.Prelude.{◌≡◌, ◌+◌, ◌<◌, ◌≤◌, [], IfOk, OnOk, length};
ghost use Rattle.mz_arena.specs.Arenas.{IsArena};
ghost use Rattle.mz_partial.specs.Totals.{IsPart, AreParts, Parted, Paired, Totaled, Filled, CostsWithin};

use crate::access::access;
use crate::division::division;
use crate::group::{Group, group_of};
use crate::lists::{cons, extreme};
use crate::make::always;
use crate::part::{Part, part_at};
use crate::plain::{leaf, one, test, two};
use crate::reading::{branches, connected, guarded, reading};
use mz_arena::{Arena, Id};
use mz_base::Memory;
use std::alloc::Global;
use std::marker::Model;

/// A total Boolean that is true exactly where an id has a value, and a total term that has the id's
/// value there.
#[derive(Clone, Copy)]
pub struct Pair {
    pub defined: Id,
    pub term: Id,
}

/// What was found so far, of the first ids of one arena.
#[derive(Drop)]
pub struct Memo {
    parts: Vec<Part>,
    alloc: Global,
}

impl Model for Memo {
    ghost use Rattle.std.specs.Prelude.{List};
    ghost use Rattle.mz_partial.specs.declared.part.Part.{Part};

    ghost Value = { List Part };

    ghost view = { λ m. m.parts.items };
}

impl Memo {
    /// Nothing is found yet.
    pub fn new(alloc: Global) -> Memo
        ensures { result ≡ [] }
    {
        Memo {
            parts: Vec::new(alloc),
            alloc,
        }
    }
}

/// The pair of an id. The arena goes on with no further variable or choice; where the id and those
/// below it are of no partial kind, or their children's bounds tell that they have a value, the term
/// is the id itself. The nodes that are made cost at most what the arena charges for the ids that are
/// looked at.
///
/// Each id up to this one is looked at once for all calls with one memo. After `Memory` nothing is
/// known of the memo.
pub fn total(arena: &mut Arena, id: Id, memo: &mut Memo) -> Result<Pair, Memory>
    requires memo { AreParts arena.old memo.old }
    requires place { id < length arena.old }
    ensures totaled { IfOk result (Totaled arena.old arena.new id) }
    ensures memo { OnOk result (AreParts arena.new memo.new) }
    ensures cost { OnOk result (CostsWithin arena.old arena.new (length memo.old) (length memo.new)) }
{
    let alloc = memo.alloc;
    fill(arena, alloc, &mut memo.parts, id)?;
    let p = part_at(&memo.parts, id);
    let pair = paired(arena, id, p)?;
    Ok(pair)
}

/// Parts of all ids up to one.
fn fill(arena: &mut Arena, alloc: Global, parts: &mut Vec<Part>, id: Id) -> Result<(), Memory>
    requires memo { AreParts arena.old parts.old.items }
    requires place { id < length arena.old }
    ensures filled { OnOk result (Filled arena.old arena.new (length parts.old.items) parts.new.items) }
    ensures reach { OnOk result (id < length parts.new.items) }
{
    let _count = arena.len();
    while parts.len() as u64 <= id {
        next_part(arena, alloc, parts)?;
    }
    Ok(())
}

/// The part of the first id that has none yet.
fn next_part(arena: &mut Arena, alloc: Global, parts: &mut Vec<Part>) -> Result<(), Memory>
    requires arena { IsArena arena.old }
    requires memo { AreParts arena.old parts.old.items }
    requires place { length parts.old.items < length arena.old }
    ensures filled { OnOk result (Filled arena.old arena.new (length parts.old.items) parts.new.items) }
    ensures longer { OnOk result (length parts.new.items ≡ length parts.old.items + 1) }
{
    let next = parts.len() as u64;
    let p = part_of(arena, alloc, parts, next)?;
    parts.push(p)?;
    Ok(())
}

/// The part of an id, from those of the ids before it.
fn part_of(arena: &mut Arena, alloc: Global, memo: &[Part], id: Id) -> Result<Part, Memory>
    requires memo { AreParts arena.old memo.now }
    requires place { id < length arena.old }
    requires reach { id ≤ length memo.now }
    ensures { IfOk result (Parted arena.old arena.new id) }
{
    let _count = arena.len();
    let n = arena.node(id);
    match group_of(n.kind) {
        Group::Leaf => leaf(arena, memo, id, n),
        Group::One => one(arena, memo, id, n),
        Group::Two => two(arena, memo, id, n),
        Group::Cons => cons(arena, memo, id, n),
        Group::Test => test(arena, memo, id, n),
        Group::Connective => connected(arena, memo, id, n),
        Group::Reading => reading(arena, memo, id, n),
        Group::Choice => branches(arena, memo, id, n),
        Group::Guard => guarded(arena, memo, id, n),
        Group::Division => division(arena, alloc, memo, id, n),
        Group::Extreme => extreme(arena, alloc, memo, id, n),
        Group::Access => access(arena, alloc, memo, id, n),
    }
}

/// The pair that a part gives.
fn paired(arena: &mut Arena, id: Id, p: Part) -> Result<Pair, Memory>
    requires arena { IsArena arena.old }
    requires part { IsPart arena.old id p }
    ensures { IfOk result (Paired arena.old arena.new id) }
{
    let _id = id;
    let Some(defined) = p.flag else {
        let yes = always(arena)?;
        return Ok(Pair {
            defined: yes,
            term: p.term,
        });
    };
    Ok(Pair {
        defined,
        term: p.term,
    })
}
