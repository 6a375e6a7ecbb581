// Rows over the elements of var arrays: sums, products, the least and the greatest, quantifiers and counts.

ghost use Rattle.std.specs.Prelude.{◌≡◌, ◌+◌, ◌*◌, ◌^◌, ◌<◌, ◌≤◌, ◌∷◌, [], List, true, IfOk, IfSome, slice_get};
ghost use Rattle.mz_value.specs.Ranges.{Range};
ghost use Rattle.mz_value.specs.Shown.{Names};
ghost use Rattle.mz_core.specs.Types.{plain_type};
ghost use Rattle.mz_operations.specs.declared.row.ScalarRow.TheVariants as row;
ghost use Rattle.mz_operations.specs.declared.row.Row.TheVariants.{Scalar};
ghost use Rattle.mz_meaning.specs.Cells.{held};
ghost use Rattle.mz_meaning.specs.Exact.{exact_value};
ghost use Rattle.mz_meaning.specs.Operations.{row_cost};
ghost use Rattle.mz_meaning.specs.Runs.{give};
ghost use Rattle.mz_symbol.specs.Readings.{Reading, symbol_seen};
ghost use Rattle.mz_symbol.specs.Makes.{GoesOn, GoesOnBy, Means};
ghost use Rattle.mz_symbol.specs.Arguments.{truth_of};
ghost use Rattle.mz_symbol_rows.specs.RowValues.{argument};
ghost use Rattle.mz_symbol_arrays.specs.LineValues.{array_argument, array_row, count_of};
ghost use Rattle.mz_eval_symbols.specs.Taken.{cell_value, count_in, line_seen};
ghost use Rattle.mz_eval_cells.specs.declared.types.Origins.TheVariants as origins;
ghost use Rattle.mz_eval_cells.specs.Views.{cell_of, row_content};
ghost use Rattle.mz_eval_row_symbols.specs.NodeRows.{row_told, told_by};
ghost use Rattle.mz_eval_row_symbols.specs.StepsRows.{gives_truth, takes_array};

use crate::singles::unbuilt_row;
use crate::stated::{gives_truth, stated};
use crate::types::Argument;
use mz_base::{Memory, Stop};
use mz_core::{Base, TypeInst};
use mz_eval_cells::{Known, Origins, VarItems, length_of};
use mz_eval_symbols::{is_line_of_base, line_in};
use mz_operations::{Fold, Quantifier, ScalarRow, Side};
use mz_symbol::{Run, Symbol};
use mz_symbol_arrays::extreme;
use mz_symbol_arrays::lines::{count, defined, quantified};
use mz_symbol_arrays::sums::fold;
use std::alloc::Global;
use std::rc::Rc;

const MOST: u64 = 1 << 60;

/// How many elements an array has.
pub(crate) fn count_in(k: &Known) -> u64
    ensures { result ≡ count_in k.now }
{
    match length_of(k) {
        None => 0,
        Some(n) => n,
    }
}

/// The number of a line.
fn number_of(o: &Origins) -> Option<u64>
    ensures { IfSome result (λ n. o.now ≡ origins.Line n) }
{
    match o {
        Origins::Line(n) => Some(*n),
        _ => None,
    }
}

/// The number of the line that a cell's elements are, where they are one as they are.
fn number_in(ix: &Rc<Vec<(i64, i64)>>, xs: &VarItems) -> Option<u64>
    ensures { IfSome result (λ n. (r : Reading) → array_argument r ix.now.value.items n
        ≡ held r.mode (held r.mode (row_content r.line ix.now.value.items xs.now))) }
{
    match xs.cast {
        None => number_of(&xs.origins),
        Some(_) => None,
    }
}

fn line_number(k: &Known) -> Option<u64>
    ensures { IfSome result (λ n. (r : Reading) → line_seen k.now r n ≡ cell_value r k.now) }
{
    match k {
        Known::Row(ix, xs) => number_in(ix, xs),
        _ => None,
    }
}

/// The same, where the line's elements are of this base.
fn own_line(run: &Run, base: Base, k: &Known) -> Option<u64>
    ensures { IfSome result (λ n. (r : Reading) → line_seen k.now r n ≡ cell_value r k.now) }
{
    let Some(n) = line_number(k) else {
        return None;
    };
    if is_line_of_base(run, base, n) {
        Some(n)
    } else {
        None
    }
}

/// A new line of a cell's elements; what it may cost is drawn.
#[tactic(auto, using(mz_symbol_rows::proofs::GoingOn::goes_drawn))]
fn made_line(alloc: Global, run: &mut Run, base: Base, k: &Known) -> Result<u64, Stop>
    ensures goes { GoesOn run.old run.new }
    ensures means { Means (line_seen k.now) result run.old run.new (λ r. give (cell_value r k.now)) }
{
    let count = count_in(k);
    if count > u64::MAX / 20 {
        return Err(Stop::Memory);
    }
    run.draw(20 * count)?;
    let n = line_in(alloc, run, base, k)?;
    Ok(n)
}

/// The number of the line that a cell's elements are, which are of this base: one that stands, or a
/// new one, for which what it may cost is drawn. Out of memory too of what `line_in` is so.
pub fn drawn_line(alloc: Global, run: &mut Run, base: Base, k: &Known) -> Result<u64, Stop>
    ensures goes { GoesOn run.old run.new }
    ensures means { Means (line_seen k.now) result run.old run.new (λ r. give (cell_value r k.now)) }
{
    match own_line(run, base, k) {
        Some(n) => Ok(n),
        None => made_line(alloc, run, base, k),
    }
}

/// Out of memory where a line hasn't as many elements as an argument's cell says.
pub(crate) fn has_size(run: &Run, n: u64, a: &Argument) -> Result<(), Memory>
    ensures { IfOk result (λ _. count_of (slice_get run.now.lines n) ≡ count_in a.now.cell) }
{
    let found = defined(run, n)?;
    if found.1 != count_in(&a.cell) {
        return Err(Memory);
    }
    Ok(())
}

/// The number of the line that an argument's elements are. Out of memory where it hasn't as many
/// elements as the cell says.
pub(crate) fn line_of(alloc: Global, run: &mut Run, a: &Argument) -> Result<u64, Stop>
    ensures goes { GoesOnBy (20 * count_in a.now.cell) run.old run.new }
    ensures means { Means (line_seen a.now.cell) result run.old run.new (λ r. give (cell_value r a.now.cell)) }
    ensures size { IfOk result (λ n. count_of (slice_get run.new.lines n) ≡ count_in a.now.cell) }
{
    let n = line_in(alloc, run, a.base, &a.cell)?;
    let found = defined(run, n)?;
    if found.1 != count_in(&a.cell) {
        return Err(Stop::Memory);
    }
    Ok(n)
}

/// `sum` and `product` of a line that has as many elements as a cell.
#[tactic(auto, using(mz_symbol_rows::proofs::GoingOn::goes_most))]
fn folded(run: &mut Run, op: Fold, n: u64, a: &Argument) -> Result<Symbol, Stop>
    requires { count_of (slice_get run.old.lines n) ≡ count_in a.now.cell }
    ensures goes { GoesOnBy (44 * count_in a.now.cell + 20) run.old run.new }
    ensures means { (names : Names) (ix : List Range) → Means symbol_seen result run.old run.new
        (λ r. give (held r.mode (exact_value names (Scalar (row.Fold op)) (array_argument r ix n ∷ [])))) }
{
    fold(run, op, n)
}

/// `min` and `max` of a line that has as many elements as a cell.
#[tactic(auto, using(mz_symbol_rows::proofs::GoingOn::goes_most))]
fn extremed(run: &mut Run, side: Side, n: u64, a: &Argument) -> Result<Symbol, Stop>
    requires { count_of (slice_get run.old.lines n) ≡ count_in a.now.cell }
    ensures goes { GoesOnBy (44 * count_in a.now.cell + 28) run.old run.new }
    ensures means { (names : Names) (ix : List Range) → Means symbol_seen result run.old run.new
        (λ r. give (held r.mode (exact_value names (Scalar (row.Extreme side)) (array_argument r ix n ∷ [])))) }
{
    extreme(run, side, n)
}

/// A quantifier over a line that has as many elements as a cell.
#[tactic(auto, using(mz_symbol_rows::proofs::GoingOn::goes_most))]
fn all_quantified(run: &mut Run, op: Quantifier, n: u64, a: &Argument) -> Result<Symbol, Stop>
    requires { count_of (slice_get run.old.lines n) ≡ count_in a.now.cell }
    ensures goes { GoesOnBy (58 * count_in a.now.cell + 20) run.old run.new }
    ensures means { (ix : List Range) → Means symbol_seen result run.old run.new (λ r. give (held r.mode (truth_of (array_row r (row.Quantified op) ix n)))) }
{
    quantified(run, op, n)
}

/// The same of a count.
#[tactic(auto, using(mz_symbol_rows::proofs::GoingOn::goes_most))]
fn counted(run: &mut Run, n: u64, a: &Argument) -> Result<Symbol, Stop>
    requires { count_of (slice_get run.old.lines n) ≡ count_in a.now.cell }
    ensures goes { GoesOnBy (58 * count_in a.now.cell + 20) run.old run.new }
    ensures means { (ix : List Range) → Means symbol_seen result run.old run.new (λ r. give (held r.mode (array_row r row.Count ix n))) }
{
    count(run, n)
}

/// A row of truth values over a line that has as many elements as a cell.
fn over_truths(run: &mut Run, w: ScalarRow, n: u64, a: &Argument) -> Result<Symbol, Stop>
    requires { count_of (slice_get run.old.lines n) ≡ count_in a.now.cell }
    ensures goes { GoesOnBy (58 * count_in a.now.cell + 20) run.old run.new }
    ensures means { (names : Names) (ix : List Range) → Means symbol_seen result run.old run.new
        (λ r. give (held r.mode (told_by (gives_truth w) (exact_value names (Scalar w) (array_argument r ix n ∷ []))))) }
{
    match w {
        ScalarRow::Quantified(op) => all_quantified(run, op, n, a),
        ScalarRow::Count => counted(run, n, a),
        _ => unbuilt_row(),
    }
}

/// `sum` and `product`.
#[tactic(auto, using(mz_symbol_rows::proofs::GoingOn::goes_both, mz_symbol_rows::proofs::GoingOn::goes_most))]
fn symbol_of_fold(
    alloc: Global,
    op: Fold,
    t: &TypeInst,
    a: &Argument,
    run: &mut Run,
) -> Result<Symbol, Stop>
    ensures goes { GoesOnBy (64 * count_in a.now.cell + 20) run.old run.new }
    ensures means { (names : Names) → Means argument result run.old run.new
        (λ r. give (row_told r names (Scalar (row.Fold op)) (plain_type t.now) (cell_value r a.now.cell ∷ []))) }
{
    let n = line_of(alloc, run, a)?;
    let Ok(s) = folded(run, op, n, a) else {
        return Err(Stop::Memory);
    };
    let told = stated(t, false, s)?;
    Ok(told)
}

/// `min` and `max` of an array.
#[tactic(auto, using(mz_symbol_rows::proofs::GoingOn::goes_both, mz_symbol_rows::proofs::GoingOn::goes_most))]
fn symbol_of_extreme(
    alloc: Global,
    side: Side,
    t: &TypeInst,
    a: &Argument,
    run: &mut Run,
) -> Result<Symbol, Stop>
    ensures goes { GoesOnBy (64 * count_in a.now.cell + 28) run.old run.new }
    ensures means { (names : Names) → Means argument result run.old run.new
        (λ r. give (row_told r names (Scalar (row.Extreme side)) (plain_type t.now) (cell_value r a.now.cell ∷ []))) }
{
    let n = line_of(alloc, run, a)?;
    let Ok(s) = extremed(run, side, n, a) else {
        return Err(Stop::Memory);
    };
    let told = stated(t, false, s)?;
    Ok(told)
}

/// `forall`, `exists`, `xorall` and `count`. What a line that is made may cost is drawn.
#[tactic(auto, using(mz_symbol_rows::proofs::GoingOn::goes_both, mz_symbol_rows::proofs::GoingOn::goes_most))]
fn symbol_of_truths(
    alloc: Global,
    w: ScalarRow,
    t: &TypeInst,
    a: &Argument,
    run: &mut Run,
) -> Result<Symbol, Stop>
    ensures goes { GoesOnBy (64 * count_in a.now.cell + 20) run.old run.new }
    ensures means { (names : Names) → Means argument result run.old run.new
        (λ r. give (row_told r names (Scalar w) (plain_type t.now) (cell_value r a.now.cell ∷ []))) }
{
    let n = drawn_line(alloc, run, a.base, &a.cell)?;
    has_size(run, n, a)?;
    let Ok(s) = over_truths(run, w, n, a) else {
        return Err(Stop::Memory);
    };
    let told = stated(t, gives_truth(w), s)?;
    Ok(told)
}

#[tactic(auto, using(mz_symbol_rows::proofs::GoingOn::goes_most))]
fn symbol_of_line(
    alloc: Global,
    w: ScalarRow,
    t: &TypeInst,
    a: &Argument,
    run: &mut Run,
) -> Result<Symbol, Stop>
    ensures goes { GoesOnBy (64 * count_in a.now.cell + 28) run.old run.new }
    ensures means { (names : Names) → Means argument result run.old run.new
        (λ r. give (row_told r names (Scalar w) (plain_type t.now) (cell_value r a.now.cell ∷ []))) }
{
    match w {
        ScalarRow::Fold(op) => symbol_of_fold(alloc, op, t, a, run),
        ScalarRow::Extreme(side) => symbol_of_extreme(alloc, side, t, a, run),
        _ => symbol_of_truths(alloc, w, t, a, run),
    }
}

/// Whether a row goes through the elements of one array.
pub(crate) fn takes_array(w: ScalarRow) -> bool
    ensures { result ≡ takes_array w }
{
    match w {
        ScalarRow::Fold(_) => true,
        ScalarRow::Quantified(_) => true,
        ScalarRow::Count => true,
        ScalarRow::Extreme(_) => true,
        _ => false,
    }
}

pub(crate) fn is_few(n: u64) -> bool
    ensures { result ≡ true → n < 2 ^ 60 }
{
    n < MOST
}

/// Whether a row goes through the elements of an array, and its node pays for them.
fn is_paid(w: ScalarRow, k: &Known) -> bool
    ensures { result ≡ true → 64 * count_in k.now + 28 ≤ 64 * (1 + row_cost (Scalar w) (cell_of k.now ∷ [])) }
{
    if takes_array(w) {
        is_few(count_in(k))
    } else {
        false
    }
}

/// The symbol of a row of one array, which the row's node pays for. Out of memory too where the array
/// has 2^60 elements or more.
pub(crate) fn symbol_of_array(
    alloc: Global,
    w: ScalarRow,
    t: &TypeInst,
    a: &Argument,
    run: &mut Run,
) -> Result<Symbol, Stop>
    ensures goes { GoesOnBy (64 * (1 + row_cost (Scalar w) (cell_of a.now.cell ∷ []))) run.old run.new }
    ensures means { (names : Names) → Means argument result run.old run.new
        (λ r. give (row_told r names (Scalar w) (plain_type t.now) (cell_value r a.now.cell ∷ []))) }
{
    if !is_paid(w, &a.cell) {
        return Err(Stop::Memory);
    }
    symbol_of_line(alloc, w, t, a, run)
}
