// Elements as truth values, and what is made of them.

ghost use Rattle.std.specs.Prelude.{◌≡◌, IfOk, false, true};
ghost use Rattle.mz_core.specs.declared.types.Base.TheVariants.{Bool};
ghost use Rattle.mz_operations.specs.Arrays.{truth_or};
ghost use Rattle.mz_symbol.specs.Readings.{Reading, Reads};
ghost use Rattle.mz_symbol.specs.Makes.{GoesOnBy};
ghost use Rattle.mz_symbol_arrays.specs.StepsLines.{IsJoined, IsSeen, seen_as};

use crate::lines::walk::Walk;
use mz_base::Stop;
use mz_core::Base;
use mz_operations::{Arith, Connective};
use mz_symbol::{Run, Symbol};
use mz_symbol_rows::options::{absent, deopt};
use mz_symbol_rows::{arith, logic, ordinal};

/// An element as a truth value: an absent one counts as true for `forall`, and else as false.
pub(crate) fn seen(run: &mut Run, walk: Walk, item: Symbol) -> Result<Symbol, Stop>
    ensures goes { GoesOnBy 30 run.old run.new }
    ensures seen { IfOk result (λ s. (r : Reading) → Reads r run.new → IsSeen r run.old run.new (seen_as walk) item s) }
{
    match item.base {
        Base::Bool => seen_truth(run, walk, item),
        _ => Err(Stop::Memory),
    }
}

fn seen_truth(run: &mut Run, walk: Walk, item: Symbol) -> Result<Symbol, Stop>
    requires { item.base ≡ Bool }
    ensures goes { GoesOnBy 30 run.old run.new }
    ensures seen { IfOk result (λ s. (r : Reading) → Reads r run.new → IsSeen r run.old run.new (seen_as walk) item s) }
{
    match item.occurs {
        None => Ok(item),
        Some(_) => seen_option(run, walk, item),
    }
}

fn seen_option(run: &mut Run, walk: Walk, item: Symbol) -> Result<Symbol, Stop>
    requires { item.base ≡ Bool }
    ensures goes { GoesOnBy 30 run.old run.new }
    ensures seen { IfOk result (λ s. (r : Reading) → Reads r run.new → IsSeen r run.old run.new (seen_as walk) item s) }
{
    match walk {
        Walk::Forall => true_or_absent(run, item),
        Walk::Exists => true_and_there(run, item),
        Walk::Xorall => Err(Stop::Memory),
        Walk::Count => true_and_there(run, item),
    }
}

#[tactic(auto, using(mz_symbol_rows::proofs::GoingOn::goes_most))]
fn true_and_there(run: &mut Run, item: Symbol) -> Result<Symbol, Stop>
    requires { item.base ≡ Bool }
    ensures goes { GoesOnBy 30 run.old run.new }
    ensures seen { IfOk result (λ s. (r : Reading) → Reads r run.new → IsSeen r run.old run.new (truth_or false) item s) }
{
    let there = deopt(run, item)?;
    Ok(there)
}

#[tactic(auto, using(mz_symbol_rows::proofs::GoingOn::goes_both, mz_symbol_rows::proofs::GoingOn::goes_most))]
fn true_or_absent(run: &mut Run, item: Symbol) -> Result<Symbol, Stop>
    requires { item.base ≡ Bool }
    ensures goes { GoesOnBy 30 run.old run.new }
    ensures seen { IfOk result (λ s. (r : Reading) → Reads r run.new → IsSeen r run.old run.new (truth_or true) item s) }
{
    let gone = absent(run, item)?;
    let there = deopt(run, item)?;
    let either = logic(run, Connective::Or, gone, there)?;
    Ok(either)
}

/// What is made of the elements before, with one more.
#[tactic(auto, using(mz_symbol_rows::proofs::GoingOn::goes_both, mz_symbol_rows::proofs::GoingOn::goes_most))]
pub(crate) fn joined(run: &mut Run, walk: Walk, acc: Symbol, truth: Symbol) -> Result<Symbol, Stop>
    ensures goes { GoesOnBy 28 run.old run.new }
    ensures joined { IfOk result (λ s. (r : Reading) → Reads r run.new → IsJoined r run.old run.new walk acc truth s) }
{
    match walk {
        Walk::Forall => {
            let both = logic(run, Connective::And, acc, truth)?;
            Ok(both)
        }
        Walk::Exists => {
            let either = logic(run, Connective::Or, acc, truth)?;
            Ok(either)
        }
        Walk::Xorall => {
            let one = logic(run, Connective::Xor, acc, truth)?;
            Ok(one)
        }
        Walk::Count => {
            let bit = ordinal(run, truth)?;
            let sum = arith(run, Arith::Add, acc, bit)?;
            Ok(sum)
        }
    }
}
