// The symbols of rows over cells.

ghost use Rattle.std.specs.Prelude.{◌≡◌, ◌+◌, ◌*◌, ◌∷◌, [], None, true, ℕ};
ghost use Rattle.mz_value.specs.Shown.{Names};
ghost use Rattle.mz_core.specs.Types.{plain_type};
ghost use Rattle.mz_operations.specs.declared.row.MadeRow.TheVariants as made;
ghost use Rattle.mz_operations.specs.declared.row.ScalarRow.TheVariants as row;
ghost use Rattle.mz_operations.specs.declared.row.Row.TheVariants.{Made, Scalar};
ghost use Rattle.mz_meaning.specs.Cells.{is_bool};
ghost use Rattle.mz_meaning.specs.Operations.{row_cost};
ghost use Rattle.mz_meaning.specs.Runs.{give};
ghost use Rattle.mz_symbol.specs.Makes.{GoesOnBy, Means};
ghost use Rattle.mz_symbol.specs.Readings.{Reading};
ghost use Rattle.mz_symbol_rows.specs.RowValues.{argument};
ghost use Rattle.mz_arena.specs.Values.{Term};
ghost use Rattle.mz_eval_cells.specs.Views.{cell_of, var_content};
ghost use Rattle.mz_eval_symbols.specs.Taken.{cell_value};
ghost use Rattle.mz_eval_row_symbols.specs.NodeRows.{row_told};
ghost use Rattle.mz_eval_row_symbols.specs.StepsNever.{IsNever, is_strict};

use crate::lines::{symbol_of_array, takes_array};
use crate::pairs::{clause_of, power_of};
use crate::sets::{symbol_of_sets, takes_sets};
use crate::singles::{made_over_two, over_one, over_two, unbuilt_row};
use crate::stated::{gives_truth, made_truth, stated, symbol_at, taken};
use crate::types::Argument;
use mz_base::Stop;
use mz_core::{Base, TypeInst};
use mz_eval_cells::{Known, Origin, VarValue};
use mz_operations::{MadeRow, Row, ScalarRow};
use mz_symbol::{Run, Symbol};
use mz_symbol_rows::options::deopt;
use std::alloc::Global;

#[tactic(auto, using(mz_symbol_rows::proofs::GoingOn::goes_both, mz_symbol_rows::proofs::GoingOn::goes_most))]
fn scalar_of_one(
    alloc: Global,
    w: ScalarRow,
    t: &TypeInst,
    a: &Argument,
    run: &mut Run,
) -> Result<Symbol, Stop>
    ensures goes { GoesOnBy 20 run.old run.new }
    ensures means { (names : Names) → Means argument result run.old run.new
        (λ r. give (row_told r names (Scalar w) (plain_type t.now) (cell_value r a.now.cell ∷ []))) }
{
    let x = taken(alloc, run, a)?;
    let s = over_one(run, w, x)?;
    let told = stated(t, gives_truth(w), s)?;
    Ok(told)
}

#[tactic(auto, using(mz_symbol_rows::proofs::GoingOn::goes_both, mz_symbol_rows::proofs::GoingOn::goes_most))]
fn scalar_of_two(
    alloc: Global,
    w: ScalarRow,
    t: &TypeInst,
    a: &Argument,
    b: &Argument,
    run: &mut Run,
) -> Result<Symbol, Stop>
    ensures goes { GoesOnBy 108 run.old run.new }
    ensures means { (names : Names) → Means argument result run.old run.new
        (λ r. give (row_told r names (Scalar w) (plain_type t.now) (cell_value r a.now.cell ∷ cell_value r b.now.cell ∷ []))) }
{
    let x = taken(alloc, run, a)?;
    let y = taken(alloc, run, b)?;
    let s = over_two(run, w, x, y)?;
    let told = stated(t, gives_truth(w), s)?;
    Ok(told)
}

/// Whether a row is a connective or a comparison, which is false where an argument is undefined.
fn is_strict(w: ScalarRow) -> bool
    ensures { result ≡ is_strict w }
{
    match w {
        ScalarRow::Logic(_) => true,
        ScalarRow::Order(_) => true,
        ScalarRow::Equal => true,
        ScalarRow::Unequal => true,
        ScalarRow::SetEqual => true,
        ScalarRow::SetUnequal => true,
        ScalarRow::In => true,
        _ => false,
    }
}

/// Whether a cell is undefined wherever it is read.
fn is_missing(k: &Known) -> bool
    ensures { result ≡ true → (r : Reading) → cell_value r k.now ≡ None }
{
    match k {
        Known::Undefined => true,
        Known::Var(v) => is_nothing(v),
        _ => false,
    }
}

/// Whether nothing tells the value of a var cell.
#[tactic(auto, using(crate::proofs::NeverLaws::none_content))]
fn is_nothing(v: &VarValue) -> bool
    ensures { result ≡ true → (t : ℕ → Term) → var_content t v.now ≡ None }
{
    match &v.origin {
        Origin::Nothing => true,
        Origin::Item(_) => false,
        Origin::Symbol(_) => false,
        Origin::Truth(_, _) => false,
    }
}

/// Whether a row is strict, and an argument is undefined wherever it is read.
fn is_never(w: ScalarRow, a: &Argument, b: &Argument) -> bool
    ensures { result ≡ true → IsNever w a.now.cell b.now.cell }
{
    if !is_strict(w) {
        return false;
    }
    if is_missing(&a.cell) {
        return true;
    }
    is_missing(&b.cell)
}

/// Such a row: it is false, and no node tests it.
fn never(
    w: ScalarRow,
    t: &TypeInst,
    a: &Argument,
    b: &Argument,
    run: &mut Run,
) -> Result<Symbol, Stop>
    requires { IsNever w a.now.cell b.now.cell }
    ensures goes { GoesOnBy 108 run.old run.new }
    ensures means { (names : Names) → Means argument result run.old run.new
        (λ r. give (row_told r names (Scalar w) (plain_type t.now) (cell_value r a.now.cell ∷ cell_value r b.now.cell ∷ []))) }
{
    let _row = w;
    let _first = a.base;
    let _second = b.base;
    let s = run.truth(false)?;
    let told = stated(t, true, s)?;
    Ok(told)
}

/// A power of which the exponent is undefined wherever it is read: it is as undefined, and no node
/// multiplies.
#[tactic(auto, using(mz_symbol_rows::proofs::GoingOn::goes_most))]
fn never_power(
    alloc: Global,
    t: &TypeInst,
    a: &Argument,
    b: &Argument,
    run: &mut Run,
) -> Result<Symbol, Stop>
    requires { (r : Reading) → cell_value r b.now.cell ≡ None }
    ensures goes { GoesOnBy 128 run.old run.new }
    ensures means { (names : Names) → Means argument result run.old run.new
        (λ r. give (row_told r names (Scalar row.Power) (plain_type t.now) (cell_value r a.now.cell ∷ cell_value r b.now.cell ∷ []))) }
{
    let _first = a.base;
    let told = symbol_at(alloc, t, &b.cell, run)?;
    Ok(told)
}

/// `^` and `pow`.
fn power_with_two(
    alloc: Global,
    t: &TypeInst,
    a: &Argument,
    b: &Argument,
    run: &mut Run,
) -> Result<Symbol, Stop>
    ensures goes { GoesOnBy 128 run.old run.new }
    ensures means { (names : Names) → Means argument result run.old run.new
        (λ r. give (row_told r names (Scalar row.Power) (plain_type t.now) (cell_value r a.now.cell ∷ cell_value r b.now.cell ∷ []))) }
{
    if is_missing(&b.cell) {
        return never_power(alloc, t, a, b, run);
    }
    power_of(alloc, t, a, b, run)
}

/// A row of two arguments that are no arrays, which gives a truth value, an integer or a case.
fn plain_of_two(
    alloc: Global,
    w: ScalarRow,
    t: &TypeInst,
    a: &Argument,
    b: &Argument,
    run: &mut Run,
) -> Result<Symbol, Stop>
    ensures goes { GoesOnBy 108 run.old run.new }
    ensures means { (names : Names) → Means argument result run.old run.new
        (λ r. give (row_told r names (Scalar w) (plain_type t.now) (cell_value r a.now.cell ∷ cell_value r b.now.cell ∷ []))) }
{
    if is_never(w, a, b) {
        return never(w, t, a, b, run);
    }
    scalar_of_two(alloc, w, t, a, b, run)
}

#[tactic(auto, using(mz_symbol_rows::proofs::GoingOn::goes_both, mz_symbol_rows::proofs::GoingOn::goes_most))]
fn made_of_two(
    alloc: Global,
    w: MadeRow,
    t: &TypeInst,
    a: &Argument,
    b: &Argument,
    run: &mut Run,
) -> Result<Symbol, Stop>
    ensures goes { GoesOnBy 22 run.old run.new }
    ensures means { (names : Names) → Means argument result run.old run.new
        (λ r. give (row_told r names (Made w) (plain_type t.now) (cell_value r a.now.cell ∷ cell_value r b.now.cell ∷ []))) }
{
    let x = taken(alloc, run, a)?;
    let y = taken(alloc, run, b)?;
    let Ok(s) = made_over_two(run, w, x, y) else {
        return Err(Stop::Memory);
    };
    let told = stated(t, made_truth(w), s)?;
    Ok(told)
}

fn is_bool(b: Base) -> bool
    ensures { result ≡ is_bool b }
{
    matches!(b, Base::Bool)
}

/// `deopt`.
#[tactic(auto, using(mz_symbol_rows::proofs::GoingOn::goes_both, mz_symbol_rows::proofs::GoingOn::goes_most))]
fn deopt_of(alloc: Global, t: &TypeInst, a: &Argument, run: &mut Run) -> Result<Symbol, Stop>
    ensures goes { GoesOnBy 20 run.old run.new }
    ensures means { (names : Names) → Means argument result run.old run.new
        (λ r. give (row_told r names (Made made.Deopt) (plain_type t.now) (cell_value r a.now.cell ∷ []))) }
{
    let x = taken(alloc, run, a)?;
    let s = deopt(run, x)?;
    let told = stated(t, is_bool(x.base), s)?;
    Ok(told)
}

#[tactic(auto, using(mz_symbol_rows::proofs::GoingOn::goes_most))]
fn made_of_one(
    alloc: Global,
    w: MadeRow,
    t: &TypeInst,
    a: &Argument,
    run: &mut Run,
) -> Result<Symbol, Stop>
    ensures goes { GoesOnBy 20 run.old run.new }
    ensures means { (names : Names) → Means argument result run.old run.new
        (λ r. give (row_told r names (Made w) (plain_type t.now) (cell_value r a.now.cell ∷ []))) }
{
    match w {
        MadeRow::Deopt => deopt_of(alloc, t, a, run),
        _ => unbuilt_row(),
    }
}

/// A row of one argument that gives a truth value, an integer or a case.
#[tactic(auto, using(crate::proofs::ToldLaws::goes_paid))]
fn scalar_with_one(
    alloc: Global,
    w: ScalarRow,
    t: &TypeInst,
    a: &Argument,
    run: &mut Run,
) -> Result<Symbol, Stop>
    ensures goes { GoesOnBy (64 * (1 + row_cost (Scalar w) (cell_of a.now.cell ∷ []))) run.old run.new }
    ensures means { (names : Names) → Means argument result run.old run.new (λ r. give (row_told r names (Scalar w) (plain_type t.now) (cell_value r a.now.cell ∷ []))) }
{
    if takes_array(w) {
        symbol_of_array(alloc, w, t, a, run)
    } else {
        scalar_of_one(alloc, w, t, a, run)
    }
}

/// A row of one argument that makes its value.
#[tactic(auto, using(crate::proofs::ToldLaws::goes_paid))]
fn made_with_one(
    alloc: Global,
    w: MadeRow,
    t: &TypeInst,
    a: &Argument,
    run: &mut Run,
) -> Result<Symbol, Stop>
    ensures goes { GoesOnBy (64 * (1 + row_cost (Made w) (cell_of a.now.cell ∷ []))) run.old run.new }
    ensures means { (names : Names) → Means argument result run.old run.new (λ r. give (row_told r names (Made w) (plain_type t.now) (cell_value r a.now.cell ∷ []))) }
{
    if takes_sets(w) {
        symbol_of_sets(alloc, w, t, a, run)
    } else {
        made_of_one(alloc, w, t, a, run)
    }
}

/// A row of two arguments that gives a truth value, an integer or a case.
#[tactic(auto, using(crate::proofs::ToldLaws::goes_paid))]
fn scalar_with_two(
    alloc: Global,
    w: ScalarRow,
    t: &TypeInst,
    a: &Argument,
    b: &Argument,
    run: &mut Run,
) -> Result<Symbol, Stop>
    ensures goes { GoesOnBy (64 * (1 + row_cost (Scalar w) (cell_of a.now.cell ∷ cell_of b.now.cell ∷ []))) run.old run.new }
    ensures means { (names : Names) → Means argument result run.old run.new
        (λ r. give (row_told r names (Scalar w) (plain_type t.now) (cell_value r a.now.cell ∷ cell_value r b.now.cell ∷ []))) }
{
    match w {
        ScalarRow::Power => power_with_two(alloc, t, a, b, run),
        ScalarRow::Clause => clause_of(alloc, t, a, b, run),
        _ => plain_of_two(alloc, w, t, a, b, run),
    }
}

/// The symbol of a row of one argument.
#[tactic(auto, using(crate::proofs::ToldLaws::goes_paid))]
pub(crate) fn symbol_of_one(
    alloc: Global,
    row: Row,
    t: &TypeInst,
    a: &Argument,
    run: &mut Run,
) -> Result<Symbol, Stop>
    ensures goes { GoesOnBy (64 * (1 + row_cost row (cell_of a.now.cell ∷ []))) run.old run.new }
    ensures means { (names : Names) → Means argument result run.old run.new
        (λ r. give (row_told r names row (plain_type t.now) (cell_value r a.now.cell ∷ []))) }
{
    match row {
        Row::Scalar(w) => scalar_with_one(alloc, w, t, a, run),
        Row::Made(w) => made_with_one(alloc, w, t, a, run),
        _ => unbuilt_row(),
    }
}

/// The symbol of a row of two arguments.
#[tactic(auto, using(crate::proofs::ToldLaws::goes_paid))]
pub(crate) fn symbol_of_two(
    alloc: Global,
    row: Row,
    t: &TypeInst,
    a: &Argument,
    b: &Argument,
    run: &mut Run,
) -> Result<Symbol, Stop>
    ensures goes { GoesOnBy (64 * (1 + row_cost row (cell_of a.now.cell ∷ cell_of b.now.cell ∷ []))) run.old run.new }
    ensures means { (names : Names) → Means argument result run.old run.new
        (λ r. give (row_told r names row (plain_type t.now) (cell_value r a.now.cell ∷ cell_value r b.now.cell ∷ []))) }
{
    match row {
        Row::Scalar(w) => scalar_with_two(alloc, w, t, a, b, run),
        Row::Made(w) => made_of_two(alloc, w, t, a, b, run),
        _ => unbuilt_row(),
    }
}
