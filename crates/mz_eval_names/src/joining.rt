// Guards that hold where two others do.

ghost use Rattle.std.specs.Prelude.{◌≡◌, IfOk, true};
ghost use Rattle.mz_arena.specs.Values.{is_true};
ghost use Rattle.mz_meaning.specs.Cells.{both_sure};
ghost use Rattle.mz_meaning.specs.Runs.{give};
ghost use Rattle.mz_symbol.specs.Makes.{GoesOn, Means};
ghost use Rattle.mz_eval_guards.specs.Guards.{IsGuard, guard_seen, open_sure};

use mz_arena::Id;
use mz_base::{Memory, Stop};
use mz_eval_guards::{Guard, both, never};
use mz_symbol::Run;

/// Par cells tell whether one holds.
#[tactic(auto, using(crate::proofs::GuardLaws::par_true, crate::proofs::GuardLaws::par_false, crate::proofs::GuardLaws::par_never, crate::proofs::GuardLaws::goes_on))]
fn par_with(run: &mut Run, x: bool, b: Guard) -> Result<Guard, Memory>
    ensures goes { GoesOn run.old run.new }
    ensures guards { IfOk result (IsGuard run.old run.new (λ r. both_sure (record { par = true; is = x }) (guard_seen r b))) }
{
    if x {
        return Ok(b);
    }
    match b {
        Guard::Par(_) => Ok(Guard::Par(false)),
        Guard::Open(_) => never(run),
    }
}

#[tactic(auto, using(mz_symbol_rows::proofs::GoingOn::goes_drawn, crate::proofs::GuardLaws::drawn_guard))]
fn two_open(run: &mut Run, d: Id, e: Id) -> Result<Guard, Memory>
    ensures goes { GoesOn run.old run.new }
    ensures guards { IfOk result (IsGuard run.old run.new (λ r. both_sure (open_sure r.mode (is_true (r.term d))) (open_sure r.mode (is_true (r.term e))))) }
{
    run.draw(6)?;
    let g = both(run, Guard::Open(d), Guard::Open(e))?;
    Ok(g)
}

/// Var cells tell of both.
#[tactic(auto, using(crate::proofs::GuardLaws::same_open, crate::proofs::GuardLaws::goes_on))]
fn open_both(run: &mut Run, d: Id, e: Id) -> Result<Guard, Memory>
    ensures goes { GoesOn run.old run.new }
    ensures guards { IfOk result (IsGuard run.old run.new (λ r. both_sure (open_sure r.mode (is_true (r.term d))) (open_sure r.mode (is_true (r.term e))))) }
{
    if d == e {
        Ok(Guard::Open(d))
    } else {
        two_open(run, d, e)
    }
}

#[tactic(auto, using(crate::proofs::GuardLaws::swapped_guard))]
fn open_with_par(run: &mut Run, d: Id, y: bool) -> Result<Guard, Memory>
    ensures goes { GoesOn run.old run.new }
    ensures guards { IfOk result (IsGuard run.old run.new (λ r. both_sure (open_sure r.mode (is_true (r.term d))) (record { par = true; is = y }))) }
{
    let g = par_with(run, y, Guard::Open(d))?;
    Ok(g)
}

fn open_with(run: &mut Run, d: Id, b: Guard) -> Result<Guard, Memory>
    ensures goes { GoesOn run.old run.new }
    ensures guards { IfOk result (IsGuard run.old run.new (λ r. both_sure (open_sure r.mode (is_true (r.term d))) (guard_seen r b))) }
{
    match b {
        Guard::Par(y) => open_with_par(run, d, y),
        Guard::Open(e) => open_both(run, d, e),
    }
}

pub(crate) fn both_of(run: &mut Run, a: Guard, b: Guard) -> Result<Guard, Memory>
    ensures goes { GoesOn run.old run.new }
    ensures guards { IfOk result (IsGuard run.old run.new (λ r. both_sure (guard_seen r a) (guard_seen r b))) }
{
    match a {
        Guard::Par(x) => par_with(run, x, b),
        Guard::Open(d) => open_with(run, d, b),
    }
}

/// Both hold. A node is made, and paid for by what was saved, only where par cells tell neither and
/// they are not the same.
#[tactic(auto, using(crate::proofs::GuardLaws::guard_out))]
pub fn both_hold(run: &mut Run, a: Guard, b: Guard) -> Result<Guard, Stop>
    ensures goes { GoesOn run.old run.new }
    ensures means { Means guard_seen result run.old run.new (λ r. give (both_sure (guard_seen r a) (guard_seen r b))) }
{
    let g = both_of(run, a, b)?;
    Ok(g)
}
