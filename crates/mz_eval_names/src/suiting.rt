// Whether values lie in their declared sets. Par cells, and var ones without a value, make no node
// and take nothing that was saved.

ghost use Rattle.std.specs.Prelude.{◌≡◌, IfOk, false};
ghost use Rattle.mz_meaning.specs.Arrays as arrays;
ghost use Rattle.mz_meaning.specs.Calls.{argument_suits};
ghost use Rattle.mz_meaning.specs.Cells as cells;
ghost use Rattle.mz_meaning.specs.Lets as lets;
ghost use Rattle.mz_meaning.specs.Runs.{give};
ghost use Rattle.mz_symbol.specs.Makes.{GoesOn, Means};
ghost use Rattle.mz_symbol.specs.Readings.{Reading};
ghost use Rattle.mz_eval_cells.specs.Views.{cell_of, seen};
ghost use Rattle.mz_eval_guards.specs.Guards.{IsGuard, guard_seen};
ghost use Rattle.mz_eval_declared.specs.Wants.{wanted, wants_of};
ghost use Rattle.mz_eval_declared.specs.Locals.{local_in};
ghost use Rattle.mz_eval_names.specs.Names.{argument_fitted};

use crate::joining::both_of;
use crate::values::{charge, has_no_value};
use mz_base::{Memory, Span, Stop};
use mz_eval_cells::{Known, is_par};
use mz_eval_declared::{Want, all_have_sets, fitted, suits};
use mz_eval_guards::{Guard, lies_in, never, surely, there_in, unsure};
use mz_symbol::Run;
use mz_value::RangeSet;
use std::alloc::Global;

// ---- there

#[tactic(auto, using(mz_symbol_rows::proofs::GoingOn::goes_drawn, crate::proofs::GuardLaws::drawn_guard))]
fn value_there(run: &mut Run, k: &Known) -> Result<Guard, Memory>
    ensures goes { GoesOn run.old run.new }
    ensures guards { IfOk result (IsGuard run.old run.new (λ r. cells.there (seen r k.now))) }
{
    run.draw(18)?;
    let g = there_in(run, k)?;
    Ok(g)
}

fn var_there(run: &mut Run, k: &Known) -> Result<Guard, Memory>
    ensures goes { GoesOn run.old run.new }
    ensures guards { IfOk result (IsGuard run.old run.new (λ r. cells.there (seen r k.now))) }
{
    if has_no_value(k) {
        let g = never(run)?;
        Ok(g)
    } else {
        value_there(run, k)
    }
}

/// Whether a value is there.
#[tactic(auto, using(crate::proofs::GuardLaws::unmoved, crate::proofs::GuardLaws::goes_on))]
fn there(run: &mut Run, k: &Known) -> Result<Guard, Memory>
    ensures goes { GoesOn run.old run.new }
    ensures guards { IfOk result (IsGuard run.old run.new (λ r. cells.there (seen r k.now))) }
{
    match k {
        Known::Undefined => Ok(Guard::Par(false)),
        Known::One(_) => Ok(Guard::Par(true)),
        Known::Array(_, _) => Ok(Guard::Par(true)),
        _ => var_there(run, k),
    }
}

// ---- declared sets

#[tactic(auto, using(crate::proofs::GuardLaws::drawn_as, crate::proofs::GuardLaws::drawn_guard))]
fn value_lies(alloc: Global, run: &mut Run, u: &RangeSet, k: &Known) -> Result<Guard, Memory>
    ensures goes { GoesOn run.old run.new }
    ensures guards { IfOk result (IsGuard run.old run.new (λ r. record { par = false; is = arrays.defined_in u.now (cells.value_of (seen r k.now)) })) }
{
    let n = charge(26, 44, k)?;
    run.draw(n)?;
    let g = lies_in(alloc, run, u, k)?;
    Ok(g)
}

fn var_lies(alloc: Global, run: &mut Run, u: &RangeSet, k: &Known) -> Result<Guard, Memory>
    ensures goes { GoesOn run.old run.new }
    ensures guards { IfOk result (IsGuard run.old run.new (λ r. record { par = false; is = arrays.defined_in u.now (cells.value_of (seen r k.now)) })) }
{
    if has_no_value(k) {
        let g = never(run)?;
        Ok(g)
    } else {
        value_lies(alloc, run, u, k)
    }
}

#[tactic(auto, using(crate::proofs::GuardLaws::goes_on, mz_eval_declared::proofs::SuitingLaws::open_suits))]
fn var_suits(alloc: Global, run: &mut Run, w: &Want, k: &Known) -> Result<Guard, Memory>
    requires { cells.is_par (cell_of k.now) ≡ false }
    ensures goes { GoesOn run.old run.new }
    ensures guards { IfOk result (IsGuard run.old run.new (λ r. arrays.suits (wanted w.now) (seen r k.now))) }
{
    match w {
        Want::Anything => there(run, k),
        Want::Missing => Ok(unsure()),
        Want::Within(u) => var_lies(alloc, run, u, k),
    }
}

/// Whether a value is there and lies in its declared set.
#[tactic(auto, using(crate::proofs::GuardLaws::goes_on, mz_eval_declared::proofs::SuitingLaws::par_suits))]
fn value_suits(alloc: Global, run: &mut Run, w: &Want, k: &Known) -> Result<Guard, Memory>
    ensures goes { GoesOn run.old run.new }
    ensures guards { IfOk result (IsGuard run.old run.new (λ r. arrays.suits (wanted w.now) (seen r k.now))) }
{
    if is_par(k) {
        let s = suits(alloc, w, k)?;
        Ok(Guard::Par(s.is))
    } else {
        var_suits(alloc, run, w, k)
    }
}

/// Whether a declared set is there.
fn set_there(w: &Want) -> Guard
    ensures { (r : Reading) → guard_seen r result ≡ arrays.has_set (wanted w.now) }
{
    match w {
        Want::Anything => surely(),
        Want::Missing => unsure(),
        Want::Within(_) => surely(),
    }
}

/// Whether an argument is there and lies in its parameter's set.
#[tactic(auto, using(crate::proofs::GuardLaws::goes_on))]
fn parameter_suits(
    alloc: Global,
    run: &mut Run,
    var: bool,
    of_var: bool,
    w: &Want,
    k: &Known,
) -> Result<Guard, Memory>
    ensures goes { GoesOn run.old run.new }
    ensures guards { IfOk result (IsGuard run.old run.new (λ r. argument_suits var of_var (wanted w.now) (seen r k.now))) }
{
    match (var, of_var) {
        (true, _) => value_suits(alloc, run, w, k),
        (false, false) => value_suits(alloc, run, w, k),
        (false, true) => Ok(set_there(w)),
    }
}

// ---- with the index sets

fn sets_there(ws: &[Want]) -> Guard
    ensures { (r : Reading) → guard_seen r result ≡ lets.all_have_sets (wants_of ws.now) }
{
    let s = all_have_sets(ws);
    Guard::Par(s.is)
}

/// Whether all declared sets are there, and the value lies in its own.
#[tactic(auto, using(crate::proofs::GuardLaws::goes_then))]
pub(crate) fn all_suit(
    alloc: Global,
    run: &mut Run,
    index: &[Want],
    set: &Want,
    k: &Known,
) -> Result<Guard, Memory>
    ensures goes { GoesOn run.old run.new }
    ensures guards { IfOk result (IsGuard run.old run.new (λ r. cells.both_sure (lets.all_have_sets (wants_of index.now)) (arrays.suits (wanted set.now) (seen r k.now)))) }
{
    let sets = sets_there(index);
    let s = value_suits(alloc, run, set, k)?;
    let g = both_of(run, sets, s)?;
    Ok(g)
}

#[tactic(auto, using(crate::proofs::GuardLaws::goes_then))]
fn all_suited(
    alloc: Global,
    run: &mut Run,
    var: bool,
    of_var: bool,
    index: &[Want],
    set: &Want,
    k: &Known,
) -> Result<Guard, Memory>
    ensures goes { GoesOn run.old run.new }
    ensures guards { IfOk result (IsGuard run.old run.new (λ r. cells.both_sure (lets.all_have_sets (wants_of index.now)) (argument_suits var of_var (wanted set.now) (seen r k.now)))) }
{
    let sets = sets_there(index);
    let s = parameter_suits(alloc, run, var, of_var, set, k)?;
    let g = both_of(run, sets, s)?;
    Ok(g)
}

// ---- for callers

/// Whether an argument suits its parameter, which has no declared set.
#[tactic(auto, using(crate::proofs::GuardLaws::goes_on, crate::proofs::GuardLaws::guard_out))]
pub fn plain_suits(run: &mut Run, var: bool, of_var: bool, k: &Known) -> Result<Guard, Stop>
    ensures goes { GoesOn run.old run.new }
    ensures means { Means guard_seen result run.old run.new (λ r. give (argument_suits var of_var arrays.Anything (seen r k.now))) }
{
    let g = plain_guard(run, var, of_var, k)?;
    Ok(g)
}

#[tactic(auto, using(crate::proofs::GuardLaws::goes_on, crate::proofs::GuardLaws::unmoved))]
fn plain_guard(run: &mut Run, var: bool, of_var: bool, k: &Known) -> Result<Guard, Memory>
    ensures goes { GoesOn run.old run.new }
    ensures guards { IfOk result (IsGuard run.old run.new (λ r. argument_suits var of_var arrays.Anything (seen r k.now))) }
{
    match (var, of_var) {
        (true, _) => there(run, k),
        (false, false) => there(run, k),
        (false, true) => Ok(surely()),
    }
}

/// A value under its declared index sets, which it takes, and its declared set. Refused IndexMismatch
/// at `at` where it doesn't fit the index sets, as `fitted` of `mz_eval_declared` says.
pub fn kept_by(
    alloc: Global,
    run: &mut Run,
    at: Span,
    index: &[Want],
    set: &Want,
    c: Known,
) -> Result<(Known, Guard), Stop>
    ensures goes { GoesOn run.old run.new }
    ensures means { Means local_in result run.old run.new (λ r. lets.kept at (wants_of index.now) (wanted set.now) (seen r c)) }
{
    let f = fitted(alloc, at, index, c)?;
    let g = all_suit(alloc, run, index, set, &f)?;
    Ok((f, g))
}

/// A call's argument under its parameter's index sets, which it takes, and its set. Where the call's
/// result is par and the parameter is var, only the sets have to be there. The refusal is that of
/// `kept_by`.
pub fn suited(
    alloc: Global,
    run: &mut Run,
    var: bool,
    of_var: bool,
    at: Span,
    index: &[Want],
    set: &Want,
    c: Known,
) -> Result<(Known, Guard), Stop>
    ensures goes { GoesOn run.old run.new }
    ensures means { Means local_in result run.old run.new (λ r. argument_fitted var of_var at (wants_of index.now) (wanted set.now) (seen r c)) }
{
    let f = fitted(alloc, at, index, c)?;
    let g = all_suited(alloc, run, var, of_var, index, set, &f)?;
    Ok((f, g))
}
