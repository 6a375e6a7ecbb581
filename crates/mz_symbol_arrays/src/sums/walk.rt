// A fold over the elements of a var array, from the first to the last.

ghost use Rattle.std.specs.Prelude.{◌≡◌, ◌*◌, IfOk};
ghost use Rattle.mz_core.specs.declared.types.Base.TheVariants.{Int};
ghost use Rattle.mz_symbol.specs.Readings.{Reading, Reads};
ghost use Rattle.mz_symbol.specs.Makes.{GoesOnBy};
ghost use Rattle.mz_symbol_arrays.specs.StepsSums.{arith_of, Advances, Counts, Folds, Joins};

use mz_base::Stop;
use mz_core::Base;
use mz_operations::{Arith, Fold};
use mz_symbol::{Run, Symbol};
use mz_symbol_rows::arith;
use mz_symbol_rows::options::summand;

/// An element as an integer: an absent one of a sum of options is 0.
fn counted(run: &mut Run, op: Fold, item: Symbol) -> Result<Symbol, Stop>
    ensures goes { GoesOnBy 16 run.old run.new }
    ensures counts { IfOk result (λ s. (r : Reading) → Reads r run.new → Counts r run.old run.new op item s) }
{
    match item.base {
        Base::Int => counted_integer(run, op, item),
        _ => Err(Stop::Memory),
    }
}

fn counted_integer(run: &mut Run, op: Fold, item: Symbol) -> Result<Symbol, Stop>
    requires { item.base ≡ Int }
    ensures goes { GoesOnBy 16 run.old run.new }
    ensures counts { IfOk result (λ s. (r : Reading) → Reads r run.new → Counts r run.old run.new op item s) }
{
    match item.occurs {
        None => Ok(item),
        Some(_) => counted_option(run, op, item),
    }
}

fn counted_option(run: &mut Run, op: Fold, item: Symbol) -> Result<Symbol, Stop>
    requires { item.base ≡ Int }
    ensures goes { GoesOnBy 16 run.old run.new }
    ensures counts { IfOk result (λ s. (r : Reading) → Reads r run.new → Counts r run.old run.new op item s) }
{
    match op {
        Fold::SumOfOptions => {
            let number = summand(run, item)?;
            Ok(number)
        }
        _ => Err(Stop::Memory),
    }
}

fn arith_of(op: Fold) -> Arith
    ensures { result ≡ arith_of op }
{
    match op {
        Fold::Sum => Arith::Add,
        Fold::SumOfOptions => Arith::Add,
        Fold::Product => Arith::Mul,
    }
}

/// What is made of the elements before, with one more.
fn joined(run: &mut Run, op: Fold, acc: Symbol, number: Symbol) -> Result<Symbol, Stop>
    ensures goes { GoesOnBy 24 run.old run.new }
    ensures joins { IfOk result (λ s. (r : Reading) → Reads r run.new → Joins r run.old run.new op acc number s) }
{
    let all = arith(run, arith_of(op), acc, number)?;
    Ok(all)
}

/// An element more.
#[tactic(auto, using(mz_symbol_rows::proofs::GoingOn::goes_both))]
fn advanced(run: &mut Run, op: Fold, line: u64, i: u64, acc: Symbol) -> Result<Symbol, Stop>
    ensures goes { GoesOnBy 40 run.old run.new }
    ensures advances { IfOk result (λ s. (r : Reading) → Reads r run.new → Advances r run.old run.new op line i acc s) }
{
    let Some(item) = run.element(line, i) else {
        return Err(Stop::Memory);
    };
    let number = counted(run, op, item)?;
    let all = joined(run, op, acc, number)?;
    Ok(all)
}

/// The first elements.
pub(crate) fn folded(
    run: &mut Run,
    op: Fold,
    line: u64,
    count: u64,
    first: Symbol,
) -> Result<Symbol, Stop>
    ensures goes { GoesOnBy (40 * count) run.old run.new }
    ensures folds { IfOk result (λ s. (r : Reading) → Reads r run.new → Folds r run.old run.new op line count first s) }
{
    let mut acc = first;
    for i in 0..count {
        acc = advanced(run, op, line, i, acc)?;
    }
    Ok(acc)
}
