// Rows that hand an array on: no element is copied, and no node is made.

ghost use Rattle.std.specs.Prelude.{◌≡◌, ◌∷◌, [], pos, true, IfOk, length, map};
ghost use Rattle.mz_base.specs.declared.fault.Span.{Span as PlainSpan};
ghost use Rattle.mz_value.specs.Shown.{Names};
ghost use Rattle.mz_core.specs.Types.{PlainType};
ghost use Rattle.mz_operations.specs.RowBounds.{line_of};
ghost use Rattle.mz_operations.specs.declared.row.MadeRow.TheVariants as made;
ghost use Rattle.mz_operations.specs.declared.row.Row.TheVariants.{Made};
ghost use Rattle.mz_meaning.specs.Cells.{Var, held};
ghost use Rattle.mz_symbol.specs.Readings.{Reading, Reads};
ghost use Rattle.mz_symbol.specs.Makes.{GoesOn, Means};
ghost use Rattle.mz_eval_cells.specs.Views.{known_bound, origins_value, row_content, seen};
ghost use Rattle.mz_eval_row_symbols.specs.NodeRows.{row_node, stamped};
ghost use Rattle.mz_eval_rows.specs.StepsCells.{HasCount};

use mz_base::{Memory, Stop};
use mz_eval_cells::{Known, Origins, VarItems};
use mz_operations::{MadeRow, Row};
use mz_symbol::Run;
use std::alloc::Global;
use std::rc::Rc;

const MOST: usize = 1 << 60;

/// Whether the run's array with this number has so many elements.
#[tactic(auto, using(crate::proofs::HandedLaws::line_count))]
fn has_count(run: &Run, n: u64, count: usize) -> bool
    ensures { result ≡ true → (r : Reading) → Reads r run.now → HasCount (r.line n) count }
{
    match run.line(n) {
        Some(l) => l.items.len() == count,
        None => false,
    }
}

/// Whether a var array has as many elements as bounds, where it is defined.
#[tactic(auto, using(crate::proofs::HandedLaws::values_count))]
pub(crate) fn is_whole(run: &Run, xs: &Rc<VarItems>) -> bool
    ensures { result ≡ true → (r : Reading) → Reads r run.now
        → HasCount (origins_value r.line xs.now.value.origins) (length xs.now.value.bounds.value.items) }
{
    let count = xs.bounds.len();
    match &xs.origins {
        Origins::Nothing => true,
        Origins::Values(items) => items.len() == count,
        Origins::Line(n) => has_count(run, *n, count),
    }
}

/// A var array under the index range from 1 on.
fn lined(alloc: Global, xs: &Rc<VarItems>) -> Result<Known, Memory>
    ensures { IfOk result (λ k. (r : Reading) → seen r k ≡ Var (line_of (map known_bound xs.now.value.bounds.value.items))
        (held r.mode (row_content r.line ((pos 1, pos (length (map known_bound xs.now.value.bounds.value.items))) ∷ []) xs.now.value))) }
{
    let n = xs.bounds.len();
    if n >= MOST {
        return Err(Memory);
    }
    let mut ranges = Vec::new(alloc);
    ranges.push((1, n as i64))?;
    let held = Rc::new(alloc, ranges)?;
    Ok(Known::Row(held, xs.clone()?))
}

/// Whether a row is `array1d` of an array alone, and the cell a var array.
pub(crate) fn is_lined(row: Row, k: &Known) -> bool
    ensures { result ≡ true → row ≡ Made made.Line }
{
    match row {
        Row::Made(MadeRow::Line) => match k {
            Known::Row(_, _) => true,
            _ => false,
        },
        _ => false,
    }
}

/// `array1d` of a var array alone: the same elements under other index ranges.
pub(crate) fn lined_row(alloc: Global, a: &Known, run: &mut Run) -> Result<Known, Stop>
    ensures goes { GoesOn run.old run.new }
    ensures means { (names : Names) (t : PlainType) (place : PlainSpan) → Means (stamped t) result run.old run.new
        (λ r. row_node r.mode names (Made made.Line) t place (seen r a.now ∷ [])) }
{
    let Known::Row(_ix, xs) = a else {
        return Err(Stop::Memory);
    };
    if !is_whole(run, xs) {
        return Err(Stop::Memory);
    }
    let k = lined(alloc, xs)?;
    Ok(k)
}
