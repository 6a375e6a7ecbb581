// Guards of which nodes that they may cost are drawn, and of which a sure one costs none.

ghost use Rattle.std.specs.Prelude.{◌≡◌, ◌*◌, ◌+◌, IfOk, MatchOption};
ghost use Rattle.mz_core.specs.Types.{plain_type};
ghost use Rattle.mz_meaning.specs.Cells as cells;
ghost use Rattle.mz_symbol.specs.Makes.{GoesOn, Spares};
ghost use Rattle.mz_symbol.specs.Readings.{Reading, state_of};
ghost use Rattle.mz_eval_cells.specs.Views.{seen};
ghost use Rattle.mz_eval_symbols.specs.Taken.{count_in};
ghost use Rattle.mz_eval_guards.specs.Guards.{guard_seen};
ghost use Rattle.mz_eval_guards.specs.declared.types.Guard.TheVariants as guard;
ghost use Rattle.mz_eval_comprehensions.specs.Drawn.{IsSeen};
ghost use Rattle.mz_eval_comprehensions.specs.StepsDrawn.{IsAlways};

use glob_nodes::truth;
use mz_arena::Id;
use mz_base::Memory;
use mz_core::TypeInst;
use mz_eval_cells::{Known, is_par, length_of, to_var, undefined};
use mz_eval_guards::Guard;
use mz_symbol::Run;
use std::alloc::Global;

/// Whether a Boolean node is surely true: it is the node of true.
fn is_always(run: &mut Run, d: Id) -> Result<bool, Memory>
    ensures goes { GoesOn run.old run.new }
    ensures always { IfOk result (IsAlways run.old run.new d) }
{
    let yes = truth(run, true)?;
    Ok(yes == d)
}

/// So many charges for each of some elements, and more; None where the sum passes 2^64.
fn charge(each: u64, count: u64, more: u64) -> Option<u64>
    ensures { MatchOption result (Unit {0}) (λ n. n ≡ more + each * count) }
{
    let all = each.checked_mul(count)?;
    all.checked_add(more)
}

fn item_count(k: &Known) -> u64
    ensures { result ≡ count_in k.now }
{
    match length_of(k) {
        None => 0,
        Some(n) => n,
    }
}

/// Draws what a guard of this cell may cost.
fn draw_guard(run: &mut Run, k: &Known) -> Result<(), Memory>
    ensures goes { GoesOn run.old run.new }
    ensures spares { IfOk result (λ _. Spares (28 + 36 * count_in k.now) run.old run.new) }
    ensures same { (r : Reading) → state_of r run.old ≡ state_of r run.new }
{
    let Some(n) = charge(36, item_count(k), 28) else {
        return Err(Memory);
    };
    run.draw(n)
}

#[tactic(auto, using(mz_symbol_rows::proofs::GoingOn::goes_drawn))]
fn asked(alloc: Global, run: &mut Run, t: &TypeInst, g: Guard, k: Known) -> Result<Known, Memory>
    ensures goes { GoesOn run.old run.new }
    ensures cell { IfOk result (IsSeen run.old run.new (λ r. cells.guarded r.mode (plain_type t.now) (guard_seen r g) (seen r k))) }
{
    draw_guard(run, &k)?;
    let x = mz_eval_guards::guarded(alloc, run, t, g, k)?;
    Ok(x)
}

fn par_guarded(
    alloc: Global,
    run: &mut Run,
    t: &TypeInst,
    is: bool,
    k: Known,
) -> Result<Known, Memory>
    ensures goes { GoesOn run.old run.new }
    ensures cell { IfOk result (IsSeen run.old run.new (λ r. cells.guarded r.mode (plain_type t.now) (guard_seen r (guard.Par is)) (seen r k))) }
{
    if is {
        return Ok(k);
    }
    if is_par(&k) {
        return Ok(undefined());
    }
    asked(alloc, run, t, Guard::Par(is), k)
}

fn open_guarded(
    alloc: Global,
    run: &mut Run,
    t: &TypeInst,
    d: Id,
    k: Known,
) -> Result<Known, Memory>
    ensures goes { GoesOn run.old run.new }
    ensures cell { IfOk result (IsSeen run.old run.new (λ r. cells.guarded r.mode (plain_type t.now) (guard_seen r (guard.Open d)) (seen r k))) }
{
    let always = is_always(run, d)?;
    if always {
        let x = to_var(alloc, t, &k)?;
        return Ok(x);
    }
    asked(alloc, run, t, Guard::Open(d), k)
}

/// A cell of this type, which is undefined where a guard doesn't hold; var where par cells alone
/// don't tell it.
///
/// What the nodes may cost is drawn, where the guard isn't sure. Out of memory too where `guarded` of
/// mz_eval_guards is.
pub fn guarded(
    alloc: Global,
    run: &mut Run,
    t: &TypeInst,
    g: Guard,
    k: Known,
) -> Result<Known, Memory>
    ensures goes { GoesOn run.old run.new }
    ensures cell { IfOk result (IsSeen run.old run.new (λ r. cells.guarded r.mode (plain_type t.now) (guard_seen r g) (seen r k))) }
{
    match g {
        Guard::Par(is) => par_guarded(alloc, run, t, is, k),
        Guard::Open(d) => open_guarded(alloc, run, t, d, k),
    }
}
