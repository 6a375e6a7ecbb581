// Guards that hold where several things do.

ghost use Rattle.std.specs.Prelude.{◌≡◌, ◌&&◌, IfOk, false, true};
ghost use Rattle.mz_arena.specs.Values.{is_true};
ghost use Rattle.mz_meaning.specs.Cells as cells;
ghost use Rattle.mz_symbol.specs.Makes.{GoesOnBy};
ghost use Rattle.mz_symbol.specs.Readings.{Reading};
ghost use Rattle.mz_eval_guards.specs.Guards.{IsGuard, guard_seen, open_sure};

use crate::types::Guard;
use glob_nodes::{Join, joined, truth};
use mz_arena::Id;
use mz_base::Memory;
use mz_symbol::Run;

/// All that is declared holds.
pub fn surely() -> Guard
    ensures { (r : Reading) → guard_seen r result ≡ cells.sure }
{
    Guard::Par(true)
}

/// Something that is declared doesn't hold, and par cells tell it.
pub fn unsure() -> Guard
    ensures { (r : Reading) → guard_seen r result ≡ cells.unsure }
{
    Guard::Par(false)
}

/// A var guard that never holds.
#[tactic(auto, using(crate::proofs::Joined::open_never))]
pub fn never(run: &mut Run) -> Result<Guard, Memory>
    ensures goes { GoesOnBy 0 run.old run.new }
    ensures guards { IfOk result (IsGuard run.old run.new (λ _. record { par = false; is = false })) }
{
    let no = truth(run, false)?;
    Ok(Guard::Open(no))
}

/// A var guard, which counts where par cells tell that the rest holds.
#[tactic(auto, using(crate::proofs::Joined::open_alone))]
fn open_if(run: &mut Run, holds: bool, d: Id) -> Result<Guard, Memory>
    ensures goes { GoesOnBy 0 run.old run.new }
    ensures guards { IfOk result (IsGuard run.old run.new (λ r. cells.both_sure (record { par = true; is = holds }) (open_sure r.mode (is_true (r.term d))))) }
{
    if holds {
        Ok(Guard::Open(d))
    } else {
        never(run)
    }
}

#[tactic(auto, using(crate::proofs::Joined::open_both))]
fn both_open(run: &mut Run, d: Id, e: Id) -> Result<Guard, Memory>
    ensures goes { GoesOnBy 6 run.old run.new }
    ensures guards { IfOk result (IsGuard run.old run.new (λ r. cells.both_sure (open_sure r.mode (is_true (r.term d))) (open_sure r.mode (is_true (r.term e))))) }
{
    let all = joined(run, Join::Both, d, e)?;
    Ok(Guard::Open(all))
}

#[tactic(auto, using(mz_symbol_rows::proofs::GoingOn::goes_most))]
fn par_with(run: &mut Run, x: bool, b: Guard) -> Result<Guard, Memory>
    ensures goes { GoesOnBy 6 run.old run.new }
    ensures guards { IfOk result (IsGuard run.old run.new (λ r. cells.both_sure (record { par = true; is = x }) (guard_seen r b))) }
{
    match b {
        Guard::Par(y) => Ok(Guard::Par(x && y)),
        Guard::Open(e) => open_if(run, x, e),
    }
}

#[tactic(auto, using(mz_symbol_rows::proofs::GoingOn::goes_most, crate::proofs::Joined::swapped))]
fn open_with(run: &mut Run, d: Id, b: Guard) -> Result<Guard, Memory>
    ensures goes { GoesOnBy 6 run.old run.new }
    ensures guards { IfOk result (IsGuard run.old run.new (λ r. cells.both_sure (open_sure r.mode (is_true (r.term d))) (guard_seen r b))) }
{
    match b {
        Guard::Par(y) => open_if(run, y, d),
        Guard::Open(e) => both_open(run, d, e),
    }
}

/// Both hold.
pub fn both(run: &mut Run, a: Guard, b: Guard) -> Result<Guard, Memory>
    ensures goes { GoesOnBy 6 run.old run.new }
    ensures guards { IfOk result (IsGuard run.old run.new (λ r. cells.both_sure (guard_seen r a) (guard_seen r b))) }
{
    match a {
        Guard::Par(x) => par_with(run, x, b),
        Guard::Open(d) => open_with(run, d, b),
    }
}
