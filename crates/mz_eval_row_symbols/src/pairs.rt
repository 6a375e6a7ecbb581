// Rows of two arguments that aren't rows of two symbols: powers, and `clause`.

ghost use Rattle.std.specs.Prelude.{◌≡◌, ◌+◌, ◌*◌, ◌^◌, ◌<◌, ◌∷◌, [], List, IfOk, Some, pos, slice_get};
ghost use Rattle.mz_value.specs.Contents as values;
ghost use Rattle.mz_value.specs.Ranges.{Range};
ghost use Rattle.mz_value.specs.Shown.{Names};
ghost use Rattle.mz_core.specs.Types.{plain_type};
ghost use Rattle.mz_operations.specs.declared.row.ScalarRow.TheVariants as row;
ghost use Rattle.mz_operations.specs.declared.row.Row.TheVariants.{Scalar};
ghost use Rattle.mz_meaning.specs.Cells.{held};
ghost use Rattle.mz_meaning.specs.Exact.{exact_value};
ghost use Rattle.mz_meaning.specs.Operations.{row_cost};
ghost use Rattle.mz_meaning.specs.Runs.{give};
ghost use Rattle.mz_symbol.specs.Readings.{Reading, symbol_seen};
ghost use Rattle.mz_symbol.specs.Makes.{GoesOnBy, Means};
ghost use Rattle.mz_symbol.specs.Arguments.{truth_of};
ghost use Rattle.mz_symbol_rows.specs.RowValues.{argument};
ghost use Rattle.mz_symbol_arrays.specs.LineValues.{array_argument, count_of};
ghost use Rattle.mz_eval_symbols.specs.Taken.{cell_value, count_in};
ghost use Rattle.mz_eval_cells.specs.Views.{cell_of, item_content};
ghost use Rattle.mz_eval_row_symbols.specs.NodeRows.{row_told};

use crate::lines::{count_in, drawn_line, has_size, is_few};
use crate::stated::{stated, taken};
use crate::types::Argument;
use mz_base::{Memory, Stop};
use mz_core::TypeInst;
use mz_eval_cells::{Item, Known};
use mz_symbol::{Run, Symbol};
use mz_symbol_arrays::{clause, power};
use std::alloc::Global;

// ---- powers

/// A number below 2^14.
fn small(n: i64) -> Result<u64, Memory>
    ensures value { IfOk result (λ k. n ≡ pos k) }
    ensures few { IfOk result (λ k. k < 2 ^ 14) }
{
    if n < 0 {
        return Err(Memory);
    }
    if n >= 16384 {
        return Err(Memory);
    }
    Ok(n as u64)
}

fn item_exponent(i: &Item) -> Result<u64, Memory>
    ensures value { IfOk result (λ k. item_content i.now ≡ values.int (pos k)) }
    ensures few { IfOk result (λ k. k < 2 ^ 14) }
{
    match i {
        Item::Int(n) => small(*n),
        _ => Err(Memory),
    }
}

/// A par exponent that a row's node pays for: one below 2^14.
fn exponent_in(k: &Known) -> Result<u64, Memory>
    ensures value { IfOk result (λ n. (r : Reading) → cell_value r k.now ≡ held r.mode (Some (values.int (pos n)))) }
    ensures few { IfOk result (λ n. n < 2 ^ 14) }
{
    match k {
        Known::One(i) => item_exponent(i),
        _ => Err(Memory),
    }
}

fn powered(run: &mut Run, x: Symbol, k: u64) -> Result<Symbol, Stop>
    requires { k < 2 ^ 14 }
    ensures goes { GoesOnBy 120 run.old run.new }
    ensures means { (names : Names) → Means symbol_seen result run.old run.new
        (λ r. give (held r.mode (exact_value names (Scalar row.Power) (argument r x ∷ Some (values.int (pos k)) ∷ [])))) }
{
    power(run, x, k)
}

/// `^` and `pow` of a par exponent. Out of memory too where it isn't par, or 2^14 or more: a row's
/// node doesn't pay for so many products.
#[tactic(auto, using(mz_symbol_rows::proofs::GoingOn::goes_both, mz_symbol_rows::proofs::GoingOn::goes_most))]
pub(crate) fn power_of(
    alloc: Global,
    t: &TypeInst,
    a: &Argument,
    b: &Argument,
    run: &mut Run,
) -> Result<Symbol, Stop>
    ensures goes { GoesOnBy 128 run.old run.new }
    ensures means { (names : Names) → Means argument result run.old run.new
        (λ r. give (row_told r names (Scalar row.Power) (plain_type t.now) (cell_value r a.now.cell ∷ cell_value r b.now.cell ∷ []))) }
{
    let k = exponent_in(&b.cell)?;
    let x = taken(alloc, run, a)?;
    let Ok(s) = powered(run, x, k) else {
        return Err(Stop::Memory);
    };
    let told = stated(t, false, s)?;
    Ok(told)
}

// ---- clauses

/// `clause` of two lines that have as many elements as two cells.
fn clause_over(run: &mut Run, n: u64, m: u64, a: &Argument, b: &Argument) -> Result<Symbol, Stop>
    requires first { count_of (slice_get run.old.lines n) ≡ count_in a.now.cell }
    requires second { count_of (slice_get run.old.lines m) ≡ count_in b.now.cell }
    ensures goes { GoesOnBy (58 * count_in a.now.cell + 58 * count_in b.now.cell + 76) run.old run.new }
    ensures means { (names : Names) (ix jx : List Range) → Means symbol_seen result run.old run.new
        (λ r. give (held r.mode (truth_of (exact_value names (Scalar row.Clause) (array_argument r ix n ∷ array_argument r jx m ∷ []))))) }
{
    clause(run, n, m)
}

#[tactic(auto, using(mz_symbol_rows::proofs::GoingOn::goes_both, mz_symbol_rows::proofs::GoingOn::goes_most))]
fn clause_row(
    alloc: Global,
    t: &TypeInst,
    a: &Argument,
    b: &Argument,
    run: &mut Run,
) -> Result<Symbol, Stop>
    ensures goes { GoesOnBy (58 * count_in a.now.cell + 58 * count_in b.now.cell + 76) run.old run.new }
    ensures means { (names : Names) → Means argument result run.old run.new
        (λ r. give (row_told r names (Scalar row.Clause) (plain_type t.now) (cell_value r a.now.cell ∷ cell_value r b.now.cell ∷ []))) }
{
    let n = drawn_line(alloc, run, a.base, &a.cell)?;
    let m = drawn_line(alloc, run, b.base, &b.cell)?;
    has_size(run, n, a)?;
    has_size(run, m, b)?;
    let Ok(s) = clause_over(run, n, m, a, b) else {
        return Err(Stop::Memory);
    };
    let told = stated(t, true, s)?;
    Ok(told)
}

/// `clause`, which the row's node pays for; what lines that are made may cost is drawn. Out of memory
/// too where an array has 2^60 elements or more.
pub(crate) fn clause_of(
    alloc: Global,
    t: &TypeInst,
    a: &Argument,
    b: &Argument,
    run: &mut Run,
) -> Result<Symbol, Stop>
    ensures goes { GoesOnBy (64 * (1 + row_cost (Scalar row.Clause) (cell_of a.now.cell ∷ cell_of b.now.cell ∷ []))) run.old run.new }
    ensures means { (names : Names) → Means argument result run.old run.new
        (λ r. give (row_told r names (Scalar row.Clause) (plain_type t.now) (cell_value r a.now.cell ∷ cell_value r b.now.cell ∷ []))) }
{
    if !is_few(count_in(&a.cell)) {
        return Err(Stop::Memory);
    }
    if !is_few(count_in(&b.cell)) {
        return Err(Stop::Memory);
    }
    clause_row(alloc, t, a, b, run)
}
