// Rows over var arrays.

ghost use Rattle.std.specs.Prelude.{◌≡◌, ◌*◌, ◌+◌, List, slice_get};
ghost use Rattle.mz_value.specs.Ranges.{Range};
ghost use Rattle.mz_operations.specs.declared.row.ScalarRow.TheVariants as row;
ghost use Rattle.mz_operations.specs.Numbers.{quantifier_start};
ghost use Rattle.mz_meaning.specs.Cells.{held};
ghost use Rattle.mz_meaning.specs.Runs.{give};
ghost use Rattle.mz_symbol.specs.Readings.{symbol_seen};
ghost use Rattle.mz_symbol.specs.Makes.{GoesOnBy, Means};
ghost use Rattle.mz_symbol.specs.Arguments.{truth_of};
ghost use Rattle.mz_symbol_arrays.specs.LineValues.{array_row, count_of};
ghost use Rattle.mz_symbol_arrays.specs.StepsLines.{truth_symbol, walk_of};

use crate::lines::walk::{Walk, defined, walked};
use mz_arena::Id;
use mz_base::Stop;
use mz_core::Base;
use mz_operations::{Connective, Quantifier};
use mz_symbol::{Run, Symbol};
use mz_symbol_rows::logic;
use mz_symbol_rows::options::guarded;

/// `forall`, `exists` and `xorall` of an array of truth values. An absent one counts as true for
/// `forall` and as false for `exists`. False where the array is undefined.
///
/// Out of memory too where there is no such array, or an element isn't a truth value.
#[tactic(auto, using(mz_symbol_rows::proofs::GoingOn::goes_both, mz_symbol_rows::proofs::GoingOn::goes_most))]
pub fn quantified(run: &mut Run, op: Quantifier, line: u64) -> Result<Symbol, Stop>
    ensures goes { GoesOnBy (58 * count_of (slice_get run.old.lines line) + 20) run.old run.new }
    ensures means { (ix : List Range) → Means symbol_seen result run.old run.new (λ r. give (held r.mode (truth_of (array_row r (row.Quantified op) ix line)))) }
{
    let found = defined(run, line)?;
    let first = run.truth(starts_true(op))?;
    let Ok(all) = walked(run, walk_of(op), line, found.1, first) else {
        return Err(Stop::Memory);
    };
    let there = truth_symbol(found.0);
    let both = logic(run, Connective::And, there, all)?;
    Ok(both)
}

/// `count` of an array of truth values, of which an absent one counts as false. Undefined where the
/// array is.
///
/// Out of memory too where there is no such array, or an element isn't a truth value.
#[tactic(auto, using(mz_symbol_rows::proofs::GoingOn::goes_both, mz_symbol_rows::proofs::GoingOn::goes_most))]
pub fn count(run: &mut Run, line: u64) -> Result<Symbol, Stop>
    ensures goes { GoesOnBy (58 * count_of (slice_get run.old.lines line) + 20) run.old run.new }
    ensures means { (ix : List Range) → Means symbol_seen result run.old run.new (λ r. give (held r.mode (array_row r row.Count ix line))) }
{
    let found = defined(run, line)?;
    let first = run.integer(0)?;
    let Ok(all) = walked(run, Walk::Count, line, found.1, first) else {
        return Err(Stop::Memory);
    };
    match all.base {
        Base::Int => {
            let number = guarded(run, found.0, all)?;
            Ok(number)
        }
        _ => Err(Stop::Memory),
    }
}

/// The truth value that a Boolean node is.
fn truth_symbol(d: Id) -> Symbol
    ensures { result ≡ truth_symbol d }
{
    Symbol {
        base: Base::Bool,
        occurs: None,
        term: d,
    }
}

fn walk_of(op: Quantifier) -> Walk
    ensures { result ≡ walk_of op }
{
    match op {
        Quantifier::Forall => Walk::Forall,
        Quantifier::Exists => Walk::Exists,
        Quantifier::Xorall => Walk::Xorall,
    }
}

fn starts_true(op: Quantifier) -> bool
    ensures { result ≡ quantifier_start op }
{
    match op {
        Quantifier::Forall => true,
        _ => false,
    }
}
