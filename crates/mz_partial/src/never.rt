// What never has a value.

ghost use Rattle.std.specs.Prelude.{[], IfOk, Some};
ghost use Rattle.mz_operations.specs.Bounds.{nothing};
ghost use Rattle.mz_arena.specs.Arenas.{IsArena};
ghost use Rattle.mz_arena.specs.Extents.{whole, subset, open_truth, extent};
ghost use Rattle.mz_partial.specs.Totals.{Parted};
ghost use Rattle.mz_partial.specs.Calls.{IsNever, HasNoValue, IsBlank};
ghost use Rattle.mz_partial.specs.Nodes.{IsPartialNode};

use crate::make::{always, integer, negation, nowhere};
use crate::part::Part;
use mz_arena::{Arena, Id, Sort};
use mz_base::Memory;
use mz_value::RangeSet;
use std::alloc::Global;

/// The part of an id that never has a value.
pub(crate) fn never(arena: &mut Arena, alloc: Global, id: Id) -> Result<Part, Memory>
    requires arena { IsArena arena.old }
    requires never { HasNoValue arena.old id }
    requires partial { IsPartialNode arena.old id }
    ensures { IfOk result (Parted arena.old arena.new id) }
{
    let term = blank(arena, alloc, id)?;
    let no = nowhere(arena)?;
    Ok(Part {
        flag: Some(no),
        term,
        len: 0,
    })
}

/// A total node with the bounds of one that never has a value.
fn blank(arena: &mut Arena, alloc: Global, id: Id) -> Result<Id, Memory>
    requires arena { IsArena arena.old }
    requires never { IsNever (extent arena.old id) }
    ensures { IfOk result (IsBlank arena.old arena.new (extent arena.old id)) }
{
    match arena.sort(id) {
        Sort::Integer => blank_integer(arena),
        Sort::Boolean => blank_truth(arena),
        Sort::Set => blank_set(arena, alloc),
        Sort::List => unreachable!(),
    }
}

fn blank_integer(arena: &mut Arena) -> Result<Id, Memory>
    ensures { IfOk result (IsBlank arena.old arena.new (Some (whole nothing))) }
{
    let t = integer(arena, 0)?;
    Ok(t)
}

fn blank_truth(arena: &mut Arena) -> Result<Id, Memory>
    ensures { IfOk result (IsBlank arena.old arena.new open_truth) }
{
    let yes = always(arena)?;
    let t = negation(arena, yes)?;
    Ok(t)
}

fn blank_set(arena: &mut Arena, alloc: Global) -> Result<Id, Memory>
    ensures { IfOk result (IsBlank arena.old arena.new (Some (subset []))) }
{
    let set = RangeSet::range(alloc, 1, 0)?;
    let t = arena.set_const(set)?;
    let _count = arena.len();
    Ok(t)
}
