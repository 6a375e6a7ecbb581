// Flags: Booleans that tell where something has a value, and none where it always has one.

ghost use Rattle.std.specs.Prelude.{IfOk, None, Some};
ghost use Rattle.mz_arena.specs.Arenas.{IsArena};
ghost use Rattle.mz_partial.specs.Totals.{IsTruth, IsPart};
ghost use Rattle.mz_partial.specs.Calls.{IsFlag, Joins, Conjoins, Reads, Chooses};

use crate::make::{choice, connective, negation};
use crate::part::Part;
use mz_arena::{Arena, Id, NodeKind};
use mz_base::Memory;

/// A flag that says both.
pub(crate) fn both(arena: &mut Arena, f: Option<Id>, g: Option<Id>) -> Result<Option<Id>, Memory>
    requires arena { IsArena arena.old }
    requires f { IsFlag arena.old f }
    requires g { IsFlag arena.old g }
    ensures { IfOk result (Joins arena.old arena.new f g) }
{
    let Some(a) = f else {
        return Ok(g);
    };
    let Some(b) = g else {
        return Ok(f);
    };
    let h = connective(arena, NodeKind::And, a, b)?;
    Ok(Some(h))
}

/// Whether a flag and a Boolean are both true.
pub(crate) fn conjoin(arena: &mut Arena, flag: Option<Id>, t: Id) -> Result<Id, Memory>
    requires arena { IsArena arena.old }
    requires flag { IsFlag arena.old flag }
    requires truth { IsTruth arena.old t }
    ensures { IfOk result (Conjoins arena.old arena.new flag t) }
{
    let Some(d) = flag else {
        return Ok(t);
    };
    let r = connective(arena, NodeKind::And, d, t)?;
    Ok(r)
}

/// A Boolean that is true where an id has a value and is true.
pub(crate) fn strict(arena: &mut Arena, id: Id, p: Part) -> Result<Id, Memory>
    requires arena { IsArena arena.old }
    requires part { IsPart arena.old id p }
    requires truth { IsTruth arena.old id }
    ensures { IfOk result (Reads arena.old arena.new id p) }
{
    let _id = id;
    let t = conjoin(arena, p.flag, p.term)?;
    Ok(t)
}

/// A flag that says the first where a condition is true, and else the second.
pub(crate) fn chosen(
    arena: &mut Arena,
    c: Id,
    f: Option<Id>,
    g: Option<Id>,
) -> Result<Option<Id>, Memory>
    requires arena { IsArena arena.old }
    requires c { IsTruth arena.old c }
    requires f { IsFlag arena.old f }
    requires g { IsFlag arena.old g }
    ensures { IfOk result (Chooses arena.old arena.new c f g) }
{
    match f {
        None => unless(arena, c, g),
        Some(a) => provided(arena, c, a, g),
    }
}

/// The same, where the first is always defined.
fn unless(arena: &mut Arena, c: Id, g: Option<Id>) -> Result<Option<Id>, Memory>
    requires arena { IsArena arena.old }
    requires c { IsTruth arena.old c }
    requires g { IsFlag arena.old g }
    ensures { IfOk result (Chooses arena.old arena.new c None g) }
{
    let Some(b) = g else {
        return Ok(None);
    };
    let h = connective(arena, NodeKind::Or, c, b)?;
    Ok(Some(h))
}

/// The same, where it isn't.
fn provided(arena: &mut Arena, c: Id, a: Id, g: Option<Id>) -> Result<Option<Id>, Memory>
    requires arena { IsArena arena.old }
    requires c { IsTruth arena.old c }
    requires a { IsTruth arena.old a }
    requires g { IsFlag arena.old g }
    ensures { IfOk result (Chooses arena.old arena.new c (Some a) g) }
{
    let Some(b) = g else {
        let n = negation(arena, c)?;
        let h = connective(arena, NodeKind::Or, n, a)?;
        return Ok(Some(h));
    };
    let h = choice(arena, c, a, b)?;
    Ok(Some(h))
}
