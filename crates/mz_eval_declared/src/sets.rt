// Whether values lie in their declared sets, by guards.

ghost use Rattle.std.specs.Prelude.{◌≡◌, ◌*◌, ◌+◌, IfOk, false};
ghost use Rattle.mz_meaning.specs.Arrays as arrays;
ghost use Rattle.mz_meaning.specs.Calls as calls;
ghost use Rattle.mz_meaning.specs.Cells as cells;
ghost use Rattle.mz_meaning.specs.Lets as lets;
ghost use Rattle.mz_symbol.specs.Makes.{GoesOnBy, Means};
ghost use Rattle.mz_symbol.specs.Readings.{Reading};
ghost use Rattle.mz_eval_cells.specs.Views.{cell_of, seen};
ghost use Rattle.mz_eval_guards.specs.Guards.{count_in, IsGuard, guard_seen};
ghost use Rattle.mz_eval_declared.specs.Wants.{wanted, wants_of};
ghost use Rattle.mz_eval_declared.specs.Locals.{local_in};

use crate::{Want, all_have_sets, fitted, suits};
use mz_base::{Memory, Span, Stop};
use mz_eval_cells::{Known, is_par};
use mz_eval_guards::{Guard, both, lies_in, surely, there_in, unsure};
use mz_symbol::Run;
use std::alloc::Global;

/// Whether a var cell has a value that lies in its declared set.
#[tactic(auto, using(mz_symbol_rows::proofs::GoingOn::goes_most, crate::proofs::SuitingLaws::goes_none, crate::proofs::SuitingLaws::open_suits))]
fn var_suits(alloc: Global, run: &mut Run, w: &Want, k: &Known) -> Result<Guard, Memory>
    requires { cells.is_par (cell_of k.now) ≡ false }
    ensures goes { GoesOnBy (26 + 44 * count_in k.now) run.old run.new }
    ensures guards { IfOk result (IsGuard run.old run.new (λ r. arrays.suits (wanted w.now) (seen r k.now))) }
{
    match w {
        Want::Anything => there_in(run, k),
        Want::Missing => Ok(unsure()),
        Want::Within(u) => lies_in(alloc, run, u, k),
    }
}

/// `suits` under each reading: whether a value is there and lies in its declared set.
///
/// What the nodes may cost the caller's work has to pay for. Out of memory too where `there_in` and
/// `lies_in` of `mz_eval_guards` are.
#[tactic(auto, using(crate::proofs::SuitingLaws::goes_none, crate::proofs::SuitingLaws::par_suits))]
pub fn suits_in(alloc: Global, run: &mut Run, w: &Want, k: &Known) -> Result<Guard, Memory>
    ensures goes { GoesOnBy (26 + 44 * count_in k.now) run.old run.new }
    ensures guards { IfOk result (IsGuard run.old run.new (λ r. arrays.suits (wanted w.now) (seen r k.now))) }
{
    if is_par(k) {
        let s = suits(alloc, w, k)?;
        Ok(Guard::Par(s.is))
    } else {
        var_suits(alloc, run, w, k)
    }
}

/// Whether a declared set is there, as a guard.
fn set_guard(w: &Want) -> Guard
    ensures { (r : Reading) → guard_seen r result ≡ arrays.has_set (wanted w.now) }
{
    match w {
        Want::Anything => surely(),
        Want::Missing => unsure(),
        Want::Within(_) => surely(),
    }
}

/// `argument_suits` under each reading: whether an argument is there and lies in its parameter's
/// set. It costs and is refused as `suits_in`.
#[tactic(auto, using(crate::proofs::SuitingLaws::goes_none))]
pub fn argument_suits_in(
    alloc: Global,
    run: &mut Run,
    result_var: bool,
    parameter_var: bool,
    w: &Want,
    k: &Known,
) -> Result<Guard, Memory>
    ensures goes { GoesOnBy (26 + 44 * count_in k.now) run.old run.new }
    ensures guards { IfOk result (IsGuard run.old run.new (λ r. calls.argument_suits result_var parameter_var (wanted w.now) (seen r k.now))) }
{
    match (result_var, parameter_var) {
        (true, _) => suits_in(alloc, run, w, k),
        (false, false) => suits_in(alloc, run, w, k),
        (false, true) => Ok(set_guard(w)),
    }
}

/// Whether all declared sets are there, as a guard.
fn all_sets_guard(ws: &[Want]) -> Guard
    ensures { (r : Reading) → guard_seen r result ≡ lets.all_have_sets (wants_of ws.now) }
{
    let s = all_have_sets(ws);
    Guard::Par(s.is)
}

#[tactic(auto, using(crate::proofs::SuitingLaws::suited_goes, crate::proofs::SuitingLaws::suited_begins))]
fn suited_in(
    alloc: Global,
    run: &mut Run,
    ws: &[Want],
    w: &Want,
    k: &Known,
) -> Result<Guard, Memory>
    ensures goes { GoesOnBy (32 + 44 * count_in k.now) run.old run.new }
    ensures guards { IfOk result (IsGuard run.old run.new (λ r. cells.both_sure (lets.all_have_sets (wants_of ws.now)) (arrays.suits (wanted w.now) (seen r k.now)))) }
{
    let sets = all_sets_guard(ws);
    let s = suits_in(alloc, run, w, k)?;
    let g = both(run, sets, s)?;
    Ok(g)
}

/// `kept` under each reading: a value under its declared index sets and its declared set. The
/// refusal is that of `fitted`; it costs 6 more than `suits_in`.
#[tactic(auto, using(crate::proofs::SuitingLaws::goes_none))]
pub fn kept_in(
    alloc: Global,
    run: &mut Run,
    at: Span,
    ws: &[Want],
    w: &Want,
    k: Known,
) -> Result<(Known, Guard), Stop>
    ensures goes { GoesOnBy (32 + 44 * count_in k) run.old run.new }
    ensures means { Means local_in result run.old run.new (λ r. lets.kept at (wants_of ws.now) (wanted w.now) (seen r k)) }
{
    let f = fitted(alloc, at, ws, k)?;
    let g = suited_in(alloc, run, ws, w, &f)?;
    Ok((f, g))
}
