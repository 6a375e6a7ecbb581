// Rows over the sets of var arrays.

ghost use Rattle.std.specs.Prelude.{◌≡◌, ◌+◌, ◌*◌, ◌≤◌, ◌∷◌, [], List, true, slice_get};
ghost use Rattle.mz_value.specs.Ranges.{Range};
ghost use Rattle.mz_value.specs.Shown.{Names};
ghost use Rattle.mz_core.specs.Types.{plain_type};
ghost use Rattle.mz_operations.specs.declared.row.Row.TheVariants.{Made};
ghost use Rattle.mz_meaning.specs.Cells.{held};
ghost use Rattle.mz_meaning.specs.Exact.{exact_value};
ghost use Rattle.mz_meaning.specs.Operations.{row_cost};
ghost use Rattle.mz_meaning.specs.Runs.{give};
ghost use Rattle.mz_symbol.specs.Readings.{symbol_seen};
ghost use Rattle.mz_symbol.specs.Makes.{GoesOnBy, Means};
ghost use Rattle.mz_symbol_rows.specs.RowValues.{argument};
ghost use Rattle.mz_symbol_arrays.specs.LineValues.{array_argument, count_of};
ghost use Rattle.mz_eval_symbols.specs.Taken.{cell_value, count_in};
ghost use Rattle.mz_eval_cells.specs.Views.{cell_of};
ghost use Rattle.mz_eval_row_symbols.specs.NodeRows.{row_told};
ghost use Rattle.mz_eval_row_symbols.specs.StepsRows.{takes_sets};

use crate::lines::{count_in, is_few, line_of};
use crate::singles::unbuilt_row;
use crate::stated::stated_set;
use crate::types::Argument;
use mz_base::Stop;
use mz_core::TypeInst;
use mz_eval_cells::Known;
use mz_operations::MadeRow;
use mz_symbol::{Run, Symbol};
use mz_symbol_arrays::unions::{array_intersect, array_union};
use std::alloc::Global;

/// Whether a row goes through the sets of one array.
pub(crate) fn takes_sets(w: MadeRow) -> bool
    ensures { result ≡ takes_sets w }
{
    match w {
        MadeRow::ArrayUnion => true,
        MadeRow::ArrayIntersect => true,
        _ => false,
    }
}

/// `array_union` and `array_intersect` of a line that has as many elements as a cell.
#[tactic(auto, using(mz_symbol_rows::proofs::GoingOn::goes_most))]
fn over_sets(alloc: Global, run: &mut Run, w: MadeRow, n: u64, a: &Argument) -> Result<Symbol, Stop>
    requires { count_of (slice_get run.old.lines n) ≡ count_in a.now.cell }
    ensures goes { GoesOnBy (44 * count_in a.now.cell + 28) run.old run.new }
    ensures means { (names : Names) (ix : List Range) → Means symbol_seen result run.old run.new
        (λ r. give (held r.mode (exact_value names (Made w) (array_argument r ix n ∷ [])))) }
{
    match w {
        MadeRow::ArrayUnion => array_union(alloc, run, n),
        MadeRow::ArrayIntersect => array_intersect(alloc, run, n),
        _ => unbuilt_row(),
    }
}

#[tactic(auto, using(mz_symbol_rows::proofs::GoingOn::goes_both, mz_symbol_rows::proofs::GoingOn::goes_most))]
fn sets_row(
    alloc: Global,
    w: MadeRow,
    t: &TypeInst,
    a: &Argument,
    run: &mut Run,
) -> Result<Symbol, Stop>
    ensures goes { GoesOnBy (64 * count_in a.now.cell + 28) run.old run.new }
    ensures means { (names : Names) → Means argument result run.old run.new
        (λ r. give (row_told r names (Made w) (plain_type t.now) (cell_value r a.now.cell ∷ []))) }
{
    let n = line_of(alloc, run, a)?;
    let Ok(s) = over_sets(alloc, run, w, n, a) else {
        return Err(Stop::Memory);
    };
    let told = stated_set(t, s)?;
    Ok(told)
}

/// Whether a row goes through the sets of an array, and its node pays for them.
fn sets_are_paid(w: MadeRow, k: &Known) -> bool
    ensures { result ≡ true → 64 * count_in k.now + 28 ≤ 64 * (1 + row_cost (Made w) (cell_of k.now ∷ [])) }
{
    if takes_sets(w) {
        is_few(count_in(k))
    } else {
        false
    }
}

/// The symbol of a row of one array of sets, which the row's node pays for. Out of memory too where
/// the array has 2^60 elements or more.
pub(crate) fn symbol_of_sets(
    alloc: Global,
    w: MadeRow,
    t: &TypeInst,
    a: &Argument,
    run: &mut Run,
) -> Result<Symbol, Stop>
    ensures goes { GoesOnBy (64 * (1 + row_cost (Made w) (cell_of a.now.cell ∷ []))) run.old run.new }
    ensures means { (names : Names) → Means argument result run.old run.new
        (λ r. give (row_told r names (Made w) (plain_type t.now) (cell_value r a.now.cell ∷ []))) }
{
    if !sets_are_paid(w, &a.cell) {
        return Err(Stop::Memory);
    }
    sets_row(alloc, w, t, a, run)
}
