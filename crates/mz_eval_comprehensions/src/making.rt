// What a comprehension makes of its heads and of its generators' sets.

ghost use Rattle.std.specs.Prelude.{◌≡◌};
ghost use Rattle.mz_meaning.specs.Comprehensions as comps;
ghost use Rattle.mz_meaning.specs.Comprehensions.{with_set};
ghost use Rattle.mz_meaning.specs.Runs.{give};
ghost use Rattle.mz_symbol.specs.Makes.{GoesOn, Means};
ghost use Rattle.mz_symbol.specs.Readings.{Reading};
ghost use Rattle.mz_eval_cells.specs.Views.{seen};
ghost use Rattle.mz_eval_comprehensions.specs.Presences.{presence_seen};
ghost use Rattle.mz_eval_comprehensions.specs.Views.{made_in, with_element};

use crate::drawn::{both_hold, counted};
use crate::gathering::gathered_with;
use crate::presences::{Presence, present};
use crate::types::Made;
use mz_base::Stop;
use mz_core::Base;
use mz_eval_arrays::nothing_gathered;
use mz_eval_cells::Known;
use mz_eval_guards::surely;
use mz_symbol::Run;
use std::alloc::Global;

/// Nothing is made yet.
pub fn nothing_made(alloc: Global) -> Made
    ensures { (r : Reading) → made_in r result ≡ comps.nothing_made }
{
    Made {
        cells: nothing_gathered(alloc),
        whole: surely(),
    }
}

// ---- heads

/// What the nodes of an element may cost is drawn, where it may be absent.
fn element(alloc: Global, run: &mut Run, base: Base, p: Presence, c: Known) -> Result<Known, Stop>
    ensures goes { GoesOn run.old run.new }
    ensures means { Means seen result run.old run.new (λ r. give (comps.present r.mode (presence_seen r p) (seen r c))) }
{
    match p {
        Presence::Always => Ok(c),
        Presence::Where(_) => perhaps(alloc, run, base, p, c),
    }
}

#[tactic(auto, using(mz_symbol_rows::proofs::GoingOn::goes_drawn))]
fn perhaps(alloc: Global, run: &mut Run, base: Base, p: Presence, c: Known) -> Result<Known, Stop>
    ensures goes { GoesOn run.old run.new }
    ensures means { Means seen result run.old run.new (λ r. give (comps.present r.mode (presence_seen r p) (seen r c))) }
{
    run.draw(14)?;
    let k = present(alloc, run, base, p, c)?;
    Ok(k)
}

/// One element more, of a head whose type has this base: it is absent where it doesn't occur.
///
/// What the nodes may cost is drawn: 14 where it may be absent. Out of memory too where
/// `crate::presences::present` is.
pub fn add_element(
    alloc: Global,
    run: &mut Run,
    made: Made,
    base: Base,
    p: Presence,
    c: Known,
) -> Result<Made, Stop>
    ensures goes { GoesOn run.old run.new }
    ensures means { Means made_in result run.old run.new (λ r. give (with_element r.mode (presence_seen r p) (seen r c) (made_in r made))) }
{
    let k = element(alloc, run, base, p, c)?;
    let Made { cells, whole } = made;
    let more = gathered_with(alloc, cells, k)?;
    Ok(Made { cells: more, whole })
}

// ---- sets

/// The set of a generator, which has to be there where the elements of the generators before it
/// occur.
///
/// What the nodes may cost is drawn, of a set that is par none where they surely occur.
#[tactic(auto, using(mz_symbol::proofs::RunLaws::goes_on))]
pub fn add_set(
    alloc: Global,
    run: &mut Run,
    made: Made,
    p: Presence,
    c: &Known,
) -> Result<Made, Stop>
    ensures goes { GoesOn run.old run.new }
    ensures means { Means made_in result run.old run.new (λ r. give (with_set r.mode (presence_seen r p) (seen r c.now) (made_in r made))) }
{
    let g = counted(run, p, c)?;
    let Made { cells, whole } = made;
    let all = both_hold(run, whole, g)?;
    Ok(Made { cells, whole: all })
}
