// Sums and products.

ghost use Rattle.std.specs.Prelude.{◌≡◌, ◌*◌, ◌+◌, List, slice_get};
ghost use Rattle.mz_value.specs.Ranges.{Range};
ghost use Rattle.mz_value.specs.Shown.{Names};
ghost use Rattle.mz_operations.specs.declared.row.ScalarRow.TheVariants as row;
ghost use Rattle.mz_operations.specs.Numbers.{fold_start};
ghost use Rattle.mz_meaning.specs.Cells.{held};
ghost use Rattle.mz_meaning.specs.Runs.{give};
ghost use Rattle.mz_symbol.specs.Readings.{symbol_seen};
ghost use Rattle.mz_symbol.specs.Makes.{GoesOnBy, Means};
ghost use Rattle.mz_symbol_arrays.specs.LineValues.{count_of};
ghost use Rattle.mz_symbol_arrays.specs.SumValues.{exact_row};

use crate::lines::defined;
use crate::sums::walk::folded;
use mz_base::Stop;
use mz_core::Base;
use mz_operations::Fold;
use mz_symbol::{Run, Symbol};
use mz_symbol_rows::options::guarded;

/// `sum` of integers, `sum` of optional integers, and `product`. Undefined where the array is.
///
/// Out of memory too where there is no such array, where an element isn't one that the row takes, or
/// where bounds leave the limit.
#[tactic(auto, using(mz_symbol_rows::proofs::GoingOn::goes_both, mz_symbol_rows::proofs::GoingOn::goes_most))]
pub fn fold(run: &mut Run, op: Fold, line: u64) -> Result<Symbol, Stop>
    ensures goes { GoesOnBy (40 * count_of (slice_get run.old.lines line) + 20) run.old run.new }
    ensures means { (names : Names) (ix : List Range) → Means symbol_seen result run.old run.new (λ r. give (held r.mode (exact_row r names (row.Fold op) ix line))) }
{
    let found = defined(run, line)?;
    let first = run.integer(start(op))?;
    let Ok(all) = folded(run, op, line, found.1, first) else {
        return Err(Stop::Memory);
    };
    match all.base {
        Base::Int => {
            let number = guarded(run, found.0, all)?;
            Ok(number)
        }
        _ => Err(Stop::Memory),
    }
}

fn start(op: Fold) -> i64
    ensures { result ≡ fold_start op }
{
    match op {
        Fold::Sum => 0,
        Fold::SumOfOptions => 0,
        Fold::Product => 1,
    }
}
