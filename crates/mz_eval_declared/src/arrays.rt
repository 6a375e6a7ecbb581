// Free locals that are arrays: a choice for each place.

ghost use Rattle.std.specs.Prelude.{◌≡◌, ℕ, ◌*◌, IfOk, IfSome, drop, length};
ghost use Rattle.mz_core.specs.Types.{plain_type};
ghost use Rattle.mz_arena.specs.Values.{Term};
ghost use Rattle.mz_meaning.specs.Domains.{domain_over};
ghost use Rattle.mz_symbol.specs.Makes.{GoesOnBy};
ghost use Rattle.mz_symbol.specs.Runs.{ReadsNodes};
ghost use Rattle.mz_symbol.specs.Symbols.{AreItems};
ghost use Rattle.mz_eval_declared.specs.Locals.{IsChosenLine};
ghost use Rattle.mz_eval_declared.specs.StepsTaking.{Takes, symbols_of};

use mz_base::Memory;
use mz_core::TypeInst;
use mz_symbol::{Free, Run, Symbol};
use mz_value::RangeSet;
use std::alloc::{AllocError, Global};

/// Takes so many choices from a set.
fn take_each(run: &mut Run, t: &TypeInst, set: &RangeSet, count: u64) -> Result<(), Memory>
    ensures goes { GoesOnBy (8 * count) run.old run.new }
    ensures takes { IfOk result (λ _. Takes count (domain_over (plain_type t.now) set.now) run.old run.new) }
{
    for _i in 0..count {
        let Ok(_s) = run.take(t.base, t.opt, set) else {
            return Err(Memory);
        };
    }
    Ok(())
}

/// The symbols of choices, in order.
fn symbols(alloc: Global, choices: &[Free]) -> Result<Vec<Symbol>, AllocError>
    ensures { IfOk result (λ v. v.items ≡ symbols_of choices.now) }
{
    let mut all = Vec::new(alloc);
    for f in choices {
        all.push(f.symbol)?;
    }
    Ok(all)
}

/// The choices from a place on.
#[tactic(auto, using(crate::proofs::Lined::taken_from))]
fn choices_after(choices: &[Free], start: u64) -> Option<&[Free]>
    ensures { IfSome result (λ v. v.now ≡ drop start choices.now) }
{
    if start > choices.len() as u64 {
        return None;
    }
    Some(&choices[start as usize..])
}

/// The symbols of the choices from a place on, so many; out of memory where there are more or fewer.
#[tactic(auto, using(crate::proofs::Lined::last_items))]
fn last_symbols(alloc: Global, run: &Run, start: u64, count: u64) -> Result<Vec<Symbol>, AllocError>
    ensures of { IfOk result (λ v. v.items ≡ symbols_of (drop start run.now.choices)) }
    ensures count { IfOk result (λ v. length v.items ≡ count) }
    ensures items { IfOk result (λ v. (t : ℕ → Term) → ReadsNodes t run.now.arena → AreItems t v.items) }
{
    let _nodes = run.arena();
    let Some(last) = choices_after(run.choices(), start) else {
        return Err(AllocError);
    };
    let items = symbols(alloc, last)?;
    if items.len() as u64 != count {
        return Err(AllocError);
    }
    Ok(items)
}

/// The line of so many choices from a set, one for each place of an array, in their order. Each place
/// may cost 24.
///
/// Out of memory too where no choice may be taken from the set, as `take` of `mz_symbol` says.
#[tactic(auto, using(mz_symbol_rows::proofs::GoingOn::goes_most, crate::proofs::Taking::line_begins, crate::proofs::Taking::line_goes))]
pub fn chosen_line(
    alloc: Global,
    run: &mut Run,
    t: &TypeInst,
    set: &RangeSet,
    count: u64,
) -> Result<u64, Memory>
    ensures goes { GoesOnBy (24 * count) run.old run.new }
    ensures line { IfOk result (IsChosenLine count (domain_over (plain_type t.now) set.now) run.old run.new) }
{
    let Ok(yes) = run.truth_node(true) else {
        return Err(Memory);
    };
    let start = run.choices().len() as u64;
    take_each(run, t, set, count)?;
    let items = last_symbols(alloc, run, start, count)?;
    let Ok(line) = run.push_line(yes, items) else {
        return Err(Memory);
    };
    Ok(line)
}
