// The cells of lets and calls: undefined where something that is declared doesn't hold.

ghost use Rattle.std.specs.Prelude.{◌≡◌, IfOk, false, true};
ghost use Rattle.mz_arena.specs.Values.{is_true};
ghost use Rattle.mz_core.specs.Types.{PlainType, plain_type};
ghost use Rattle.mz_meaning.specs.Cells as cells;
ghost use Rattle.mz_meaning.specs.Cells.{kept_if};
ghost use Rattle.mz_meaning.specs.Runs.{give};
ghost use Rattle.mz_symbol.specs.Makes.{GoesOn, Means};
ghost use Rattle.mz_symbol.specs.Readings.{Reading};
ghost use Rattle.mz_eval_cells.specs.Views.{seen};
ghost use Rattle.mz_eval_guards.specs.Guards.{IsCell, guard_seen, open_sure};
ghost use Rattle.mz_eval_declared.specs.Wants.{wanted, wants_of};
ghost use Rattle.mz_eval_names.specs.Names.{result_cell};

use crate::joining::both_of;
use crate::suiting::all_suit;
use crate::values::{charge, has_no_value};
use mz_arena::Id;
use mz_base::{Memory, Stop};
use mz_core::TypeInst;
use mz_eval_cells::{Known, Origins, row_of, share_bound, to_var, undefined, var_value};
use mz_eval_declared::Want;
use mz_eval_guards::{Guard, guarded};
use mz_symbol::Run;
use std::alloc::{AllocError, Global};

/// The cell without its value.
#[tactic(auto, using(mz_eval_guards::proofs::GuardingLaws::empty_var))]
fn emptied(alloc: Global, k: &Known) -> Result<Known, AllocError>
    ensures { IfOk result (λ x. (r : Reading) → seen r x ≡ kept_if r.mode false (seen r k.now)) }
{
    match k {
        Known::Undefined => Ok(undefined()),
        Known::One(_) => Ok(undefined()),
        Known::Array(_, _) => Ok(undefined()),
        Known::Var(v) => {
            let bound = share_bound(&v.bound)?;
            var_value(alloc, bound)
        }
        Known::Row(index, xs) => {
            let ranges = index.clone()?;
            let all = xs.bounds.clone()?;
            row_of(alloc, ranges, all, Origins::Nothing)
        }
        Known::Unshaped(n) => Ok(Known::Unshaped(*n)),
    }
}

/// Par cells tell whether all that is declared holds.
#[tactic(auto, using(mz_eval_guards::proofs::GuardingLaws::kept_true))]
fn par_guarded(alloc: Global, is: bool, k: Known) -> Result<Known, AllocError>
    ensures { IfOk result (λ x. (r : Reading) → seen r x ≡ kept_if r.mode is (seen r k)) }
{
    if is { Ok(k) } else { emptied(alloc, &k) }
}

#[tactic(auto, using(crate::proofs::GuardLaws::drawn_as, crate::proofs::CellLaws::drawn_cell))]
fn value_guarded(
    alloc: Global,
    run: &mut Run,
    t: &TypeInst,
    d: Id,
    k: Known,
) -> Result<Known, Memory>
    ensures goes { GoesOn run.old run.new }
    ensures cell { IfOk result (IsCell run.old run.new (λ r. cells.guarded r.mode (plain_type t.now) (open_sure r.mode (is_true (r.term d))) (seen r k))) }
{
    let n = charge(28, 36, &k)?;
    run.draw(n)?;
    let x = guarded(alloc, run, t, Guard::Open(d), k)?;
    Ok(x)
}

/// Var cells tell it too.
#[tactic(auto, using(crate::proofs::GuardLaws::goes_on, crate::proofs::CellLaws::valueless_cell))]
fn open_guarded(
    alloc: Global,
    run: &mut Run,
    t: &TypeInst,
    d: Id,
    k: Known,
) -> Result<Known, Memory>
    ensures goes { GoesOn run.old run.new }
    ensures cell { IfOk result (IsCell run.old run.new (λ r. cells.guarded r.mode (plain_type t.now) (open_sure r.mode (is_true (r.term d))) (seen r k))) }
{
    let x = to_var(alloc, t, &k)?;
    if has_no_value(&x) {
        Ok(x)
    } else {
        value_guarded(alloc, run, t, d, k)
    }
}

#[tactic(auto, using(crate::proofs::GuardLaws::goes_on, crate::proofs::CellLaws::same_cell))]
fn guarded_by(
    alloc: Global,
    run: &mut Run,
    t: &TypeInst,
    g: Guard,
    k: Known,
) -> Result<Known, Memory>
    ensures goes { GoesOn run.old run.new }
    ensures cell { IfOk result (IsCell run.old run.new (λ r. cells.guarded r.mode (plain_type t.now) (guard_seen r g) (seen r k))) }
{
    match g {
        Guard::Par(holds) => {
            let x = par_guarded(alloc, holds, k)?;
            Ok(x)
        }
        Guard::Open(d) => open_guarded(alloc, run, t, d, k),
    }
}

/// A cell of this type, which is undefined where something that is declared doesn't hold. Nodes are
/// made, and paid for by what was saved, only where the guard is open and the cell has a value.
#[tactic(auto, using(crate::proofs::CellLaws::cell_out))]
pub fn guarded_in(
    alloc: Global,
    run: &mut Run,
    t: &TypeInst,
    g: Guard,
    c: Known,
) -> Result<Known, Stop>
    ensures goes { GoesOn run.old run.new }
    ensures means { Means seen result run.old run.new (λ r. give (cells.guarded r.mode (plain_type t.now) (guard_seen r g) (seen r c))) }
{
    let x = guarded_by(alloc, run, t, g, c)?;
    Ok(x)
}

/// Whether a cell is a par value, of which no set is declared, and all that is declared before holds.
fn is_plain(index: &[Want], set: &Want, holds: Guard, c: &Known) -> bool
    ensures { result ≡ true → (r : Reading) (t : PlainType) → result_cell r.mode t (guard_seen r holds) (wants_of index.now) (wanted set.now) (seen r c.now) ≡ seen r c.now }
{
    match (index, set, holds, c) {
        ([], Want::Anything, Guard::Par(true), Known::One(_)) => true,
        _ => false,
    }
}

/// A call's cell: its body's, under the result's index sets already, and undefined where an argument
/// or the result doesn't suit.
#[tactic(auto, using(crate::proofs::GuardLaws::goes_then))]
pub fn resulting(
    alloc: Global,
    run: &mut Run,
    t: &TypeInst,
    index: &[Want],
    set: &Want,
    holds: Guard,
    c: Known,
) -> Result<Known, Stop>
    ensures goes { GoesOn run.old run.new }
    ensures means { Means seen result run.old run.new
        (λ r. give (result_cell r.mode (plain_type t.now) (guard_seen r holds) (wants_of index.now) (wanted set.now) (seen r c))) }
{
    if is_plain(index, set, holds, &c) {
        return Ok(c);
    }
    let own = all_suit(alloc, run, index, set, &c)?;
    let all = both_of(run, holds, own)?;
    let x = guarded_by(alloc, run, t, all, c)?;
    Ok(x)
}
