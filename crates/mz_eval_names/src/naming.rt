// Names with their cells, and whether all that is declared holds.

ghost use Rattle.std.specs.Prelude.{◌≡◌, IfOk};
ghost use Rattle.mz_meaning.specs.Lets as lets;
ghost use Rattle.mz_meaning.specs.Runs.{give};
ghost use Rattle.mz_symbol.specs.Makes.{GoesOn, Means};
ghost use Rattle.mz_symbol.specs.Readings.{Reading};
ghost use Rattle.mz_eval_cells.specs.Views.{seen};
ghost use Rattle.mz_eval_guards.specs.Guards.{guard_seen};
ghost use Rattle.mz_eval_declared.specs.Locals.{local_in};
ghost use Rattle.mz_eval_names.specs.Names.{names_seen};
ghost use Rattle.mz_eval_names.specs.Steps.{with_name};

use crate::conditions::condition;
use crate::joining::both_of;
use crate::types::Names;
use mz_base::Stop;
use mz_eval_cells::Known;
use mz_eval_guards::{Guard, surely};
use mz_symbol::Run;
use std::alloc::{AllocError, Global};

/// No name yet, and nothing that is declared.
pub fn nothing_bound(alloc: Global) -> Names
    ensures { (r : Reading) → names_seen r result ≡ lets.nothing_bound }
{
    Names {
        slots: Vec::new(alloc),
        cells: Vec::new(alloc),
        holds: surely(),
    }
}

#[tactic(auto, using(crate::proofs::NameLaws::one_more))]
fn named(b: Names, slot: u64, k: Known, holds: Guard) -> Result<Names, AllocError>
    ensures { IfOk result (λ n. (r : Reading) → names_seen r n ≡ with_name r b slot k holds) }
{
    let Names {
        mut slots,
        mut cells,
        holds: _before,
    } = b;
    slots.push(slot)?;
    cells.push(k)?;
    Ok(Names {
        slots,
        cells,
        holds,
    })
}

/// One name more, with its cell and whether what is declared of it holds.
#[tactic(auto, using(crate::proofs::NameLaws::local_means))]
pub fn with_local(run: &mut Run, b: Names, slot: u64, x: (Known, Guard)) -> Result<Names, Stop>
    ensures goes { GoesOn run.old run.new }
    ensures means { Means names_seen result run.old run.new (λ r. give (lets.with_local (names_seen r b) slot (local_in r x))) }
{
    let holds = both_of(run, b.holds, x.1)?;
    let more = named(b, slot, x.0, holds)?;
    Ok(more)
}

fn holding(b: Names, holds: Guard) -> Names
    ensures { (r : Reading) → names_seen r result ≡ record { slots = b.slots.items; cells = (names_seen r b).cells; holds = guard_seen r holds } }
{
    Names {
        slots: b.slots,
        cells: b.cells,
        holds,
    }
}

/// One constraint more. Out of memory too of a var cell that is no Boolean, is recast or may be
/// absent.
#[tactic(auto, using(crate::proofs::GuardLaws::goes_then, crate::proofs::NameLaws::constraint_means))]
pub fn constrained(run: &mut Run, b: Names, c: &Known) -> Result<Names, Stop>
    ensures goes { GoesOn run.old run.new }
    ensures means { Means names_seen result run.old run.new (λ r. give (lets.constrained (names_seen r b) (seen r c.now))) }
{
    let one = condition(run, c)?;
    let holds = both_of(run, b.holds, one)?;
    Ok(holding(b, holds))
}
