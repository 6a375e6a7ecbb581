// An element of an array that has none.

ghost use Rattle.std.specs.Prelude.{◌≡◌, IfOk, None};
ghost use Rattle.mz_meaning.specs.Cells.{held};
ghost use Rattle.mz_meaning.specs.Runs.{give};
ghost use Rattle.mz_symbol.specs.Readings.{Reading, Reads, state_of, symbol_seen};
ghost use Rattle.mz_symbol.specs.Makes.{GoesOnBy, Means};
ghost use Rattle.mz_symbol_access.specs.AccessValues.{at_node};
ghost use Rattle.mz_symbol_access.specs.StepsNowhere.{is_false, marked, IsLost};

use crate::element::symbol;
use crate::nodes::{integer, made};
use mz_arena::{Id, NodeKind};
use mz_base::{Memory, Stop};
use mz_core::Base;
use mz_symbol::{Run, Symbol};
use mz_value::RangeSet;
use std::alloc::Global;

/// A node of a base's sort.
fn some_node(alloc: Global, run: &mut Run, base: Base) -> Result<Id, Memory>
    ensures goes { GoesOnBy 0 run.old run.new }
    ensures same { IfOk result (λ _. (r : Reading) → Reads r run.new → state_of r run.old ≡ state_of r run.new) }
{
    match base {
        Base::SetInt => empty_set(alloc, run),
        Base::SetEnum(_) => empty_set(alloc, run),
        _ => match integer(run, 0) {
            Ok(id) => Ok(id),
            Err(_) => Err(Memory),
        },
    }
}

fn empty_set(alloc: Global, run: &mut Run) -> Result<Id, Memory>
    ensures goes { GoesOnBy 0 run.old run.new }
    ensures same { IfOk result (λ _. (r : Reading) → Reads r run.new → state_of r run.old ≡ state_of r run.new) }
{
    let none = RangeSet::range(alloc, 1, 0)?;
    match run.set(None, none) {
        Ok(set) => Ok(set.term),
        Err(_) => Err(Memory),
    }
}

/// Whether what is undefined is false here.
fn is_false(base: Base, opt: bool) -> bool
    ensures { result ≡ is_false base opt }
{
    match base {
        Base::Bool => !opt,
        _ => false,
    }
}

/// The occurrence of an option.
fn marked(opt: bool, yes: Id) -> Option<Id>
    ensures { result ≡ marked opt yes }
{
    if opt { Some(yes) } else { None }
}

/// A value that is undefined, an option that occurs or what is no option.
#[tactic(auto, using(mz_symbol_rows::proofs::GoingOn::goes_both, mz_symbol_rows::proofs::GoingOn::goes_most))]
fn lost(alloc: Global, run: &mut Run, base: Base, opt: bool) -> Result<Symbol, Stop>
    ensures goes { GoesOnBy 8 run.old run.new }
    ensures lost { IfOk result (λ s. (r : Reading) → Reads r run.new → IsLost r run.old run.new s) }
{
    let some = some_node(alloc, run, base)?;
    let yes = run.truth_node(true)?;
    let no = run.truth_node(false)?;
    let term = made(run, NodeKind::Guard, no, some)?;
    Ok(symbol(base, marked(opt, yes), term))
}

/// What there is at a place that an array hasn't, at a node of this base, an option or not.
#[tactic(auto, using(mz_symbol_rows::proofs::GoingOn::goes_most))]
pub(crate) fn nowhere(alloc: Global, run: &mut Run, base: Base, opt: bool) -> Result<Symbol, Stop>
    ensures goes { GoesOnBy 8 run.old run.new }
    ensures means { Means symbol_seen result run.old run.new (λ r. give (held r.mode (at_node base opt None))) }
{
    if is_false(base, opt) {
        let no = run.truth(false)?;
        return Ok(no);
    }
    let Ok(none) = lost(alloc, run, base, opt) else {
        return Err(Stop::Memory);
    };
    Ok(none)
}
