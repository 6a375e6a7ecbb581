// Whether the sets of a comprehension's generators are there.

ghost use Rattle.std.specs.Prelude.{◌≡◌, ◌||◌, IfOk, MatchOption, false, not, true};
ghost use Rattle.mz_arena.specs.Values.{is_true};
ghost use Rattle.mz_meaning.specs.Cells as cells;
ghost use Rattle.mz_meaning.specs.Cells.{there};
ghost use Rattle.mz_meaning.specs.Comprehensions.{counted_set};
ghost use Rattle.mz_symbol.specs.Makes.{GoesOn, GoesOnBy};
ghost use Rattle.mz_symbol.specs.Readings.{Reading};
ghost use Rattle.glob_nodes.specs.Says.{Tells};
ghost use Rattle.mz_eval_cells.specs.Views.{seen};
ghost use Rattle.mz_eval_comprehensions.specs.Presences.{presence_seen, where_true};
ghost use Rattle.mz_eval_guards.specs.Guards.{guard_seen, open_sure};
ghost use Rattle.mz_eval_guards.specs.declared.types.Guard.TheVariants as guard;
ghost use Rattle.mz_eval_comprehensions.specs.Drawn.{IsSure};

use crate::presences::Presence;
use glob_nodes::{Join, joined, negated, truth};
use mz_arena::Id;
use mz_base::Memory;
use mz_eval_cells::Known;
use mz_eval_guards::{Guard, both, never, there_in};
use mz_symbol::Run;

/// Whether a par cell has a value; None of a var one.
fn par_there(k: &Known) -> Option<bool>
    ensures { MatchOption result (Unit {0}) (λ b. (r : Reading) → there (seen r k.now) ≡ record { par = true; is = b }) }
{
    match k {
        Known::Undefined => Some(false),
        Known::One(_) => Some(true),
        Known::Array(_, _) => Some(true),
        Known::Var(_) => None,
        Known::Row(_, _) => None,
        Known::Unshaped(_) => None,
    }
}

#[tactic(auto, using(mz_symbol_rows::proofs::GoingOn::goes_drawn))]
fn var_there(run: &mut Run, k: &Known) -> Result<Guard, Memory>
    ensures goes { GoesOn run.old run.new }
    ensures guards { IfOk result (IsSure run.old run.new (λ r. there (seen r k.now))) }
{
    run.draw(18)?;
    let g = there_in(run, k)?;
    Ok(g)
}

#[tactic(auto, using(crate::proofs::SetLaws::told_sure))]
fn sure_there(run: &mut Run, k: &Known) -> Result<Guard, Memory>
    ensures goes { GoesOn run.old run.new }
    ensures guards { IfOk result (IsSure run.old run.new (λ r. there (seen r k.now))) }
{
    match par_there(k) {
        Some(b) => Ok(Guard::Par(b)),
        None => var_there(run, k),
    }
}

/// A par set that counts where a node is true.
#[tactic(auto, using(mz_symbol_rows::proofs::GoingOn::goes_drawn))]
fn par_where(run: &mut Run, d: Id, b: bool) -> Result<Guard, Memory>
    ensures goes { GoesOn run.old run.new }
    ensures guards { IfOk result (IsSure run.old run.new (λ r. counted_set r.mode (where_true r d) (record { par = true; is = b }))) }
{
    if b {
        let yes = truth(run, true)?;
        return Ok(Guard::Open(yes));
    }
    run.draw(6)?;
    let no = negated(run, d)?;
    Ok(Guard::Open(no))
}

/// The node of a guard.
#[tactic(auto, using(crate::proofs::SetLaws::par_node, crate::proofs::SetLaws::open_node))]
fn guard_node(run: &mut Run, g: Guard) -> Result<Id, Memory>
    ensures goes { GoesOn run.old run.new }
    ensures node { IfOk result (λ id. IsSure run.old run.new (λ r. open_sure r.mode (guard_seen r g).is) (guard.Open id)) }
{
    match g {
        Guard::Par(b) => {
            let id = truth(run, b)?;
            Ok(id)
        }
        Guard::Open(d) => Ok(d),
    }
}

/// The second one where the first is true.
#[tactic(auto, using(mz_symbol_rows::proofs::GoingOn::goes_both))]
fn implied(run: &mut Run, a: Id, b: Id) -> Result<Id, Memory>
    ensures goes { GoesOnBy 12 run.old run.new }
    ensures tells { IfOk result (Tells run.old run.new (λ r. not (is_true (r.term a)) || is_true (r.term b))) }
{
    let no = negated(run, a)?;
    let id = joined(run, Join::Either, no, b)?;
    Ok(id)
}

/// What the nodes may cost is drawn.
#[tactic(auto, using(mz_symbol_rows::proofs::GoingOn::goes_drawn))]
fn implied_drawn(run: &mut Run, a: Id, b: Id) -> Result<Id, Memory>
    ensures goes { GoesOn run.old run.new }
    ensures tells { IfOk result (Tells run.old run.new (λ r. not (is_true (r.term a)) || is_true (r.term b))) }
{
    run.draw(12)?;
    let id = implied(run, a, b)?;
    Ok(id)
}

/// A var set that counts where a node is true.
#[tactic(auto, using(mz_symbol::proofs::RunLaws::goes_on))]
fn var_where(run: &mut Run, d: Id, k: &Known) -> Result<Guard, Memory>
    ensures goes { GoesOn run.old run.new }
    ensures guards { IfOk result (IsSure run.old run.new (λ r. counted_set r.mode (where_true r d) (there (seen r k.now)))) }
{
    let g = var_there(run, k)?;
    let id = guard_node(run, g)?;
    let all = implied_drawn(run, d, id)?;
    Ok(Guard::Open(all))
}

fn counted_where(run: &mut Run, d: Id, k: &Known) -> Result<Guard, Memory>
    ensures goes { GoesOn run.old run.new }
    ensures guards { IfOk result (IsSure run.old run.new (λ r. counted_set r.mode (where_true r d) (there (seen r k.now)))) }
{
    match par_there(k) {
        Some(b) => par_where(run, d, b),
        None => var_where(run, d, k),
    }
}

/// Whether the set of a generator is there where the elements of the generators before it occur: what
/// doesn't occur asks for no set.
///
/// What the nodes may cost is drawn: 30 of a var set, and none of a par one where they surely occur.
pub fn counted(run: &mut Run, p: Presence, k: &Known) -> Result<Guard, Memory>
    ensures goes { GoesOn run.old run.new }
    ensures guards { IfOk result (IsSure run.old run.new (λ r. counted_set r.mode (presence_seen r p) (there (seen r k.now)))) }
{
    match p {
        Presence::Always => sure_there(run, k),
        Presence::Where(d) => counted_where(run, d, k),
    }
}

// ---- both of two guards

#[tactic(auto, using(crate::proofs::SetLaws::never_both))]
fn unheld_with(run: &mut Run, b: Guard) -> Result<Guard, Memory>
    ensures goes { GoesOn run.old run.new }
    ensures guards { IfOk result (IsSure run.old run.new (λ r. cells.both_sure cells.unsure (guard_seen r b))) }
{
    match b {
        Guard::Par(_) => Ok(Guard::Par(false)),
        Guard::Open(_) => {
            let g = never(run)?;
            Ok(g)
        }
    }
}

#[tactic(auto, using(mz_symbol_rows::proofs::GoingOn::goes_drawn))]
fn both_drawn(run: &mut Run, a: Guard, b: Guard) -> Result<Guard, Memory>
    ensures goes { GoesOn run.old run.new }
    ensures guards { IfOk result (IsSure run.old run.new (λ r. cells.both_sure (guard_seen r a) (guard_seen r b))) }
{
    run.draw(6)?;
    let g = both(run, a, b)?;
    Ok(g)
}

#[tactic(auto, using(crate::proofs::SetLaws::open_sure_both))]
fn open_with(run: &mut Run, d: Id, b: Guard) -> Result<Guard, Memory>
    ensures goes { GoesOn run.old run.new }
    ensures guards { IfOk result (IsSure run.old run.new (λ r. cells.both_sure (guard_seen r (guard.Open d)) (guard_seen r b))) }
{
    match b {
        Guard::Par(true) => Ok(Guard::Open(d)),
        _ => both_drawn(run, Guard::Open(d), b),
    }
}

/// Both hold. What the nodes may cost is drawn, 6, where neither is sure.
pub fn both_hold(run: &mut Run, a: Guard, b: Guard) -> Result<Guard, Memory>
    ensures goes { GoesOn run.old run.new }
    ensures guards { IfOk result (IsSure run.old run.new (λ r. cells.both_sure (guard_seen r a) (guard_seen r b))) }
{
    match a {
        Guard::Par(true) => Ok(b),
        Guard::Par(false) => unheld_with(run, b),
        Guard::Open(d) => open_with(run, d, b),
    }
}
