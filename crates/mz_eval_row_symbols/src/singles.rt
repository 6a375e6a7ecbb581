// Rows over symbols: single values, options and sets.

ghost use Rattle.std.specs.Prelude.{◌≡◌, ◌∷◌, [], Err};
ghost use Rattle.mz_base.specs.declared.stop.Stop.TheVariants.{Memory as MemoryStop};
ghost use Rattle.mz_value.specs.Shown.{Names};
ghost use Rattle.mz_operations.specs.declared.row.ScalarRow.TheVariants as row;
ghost use Rattle.mz_operations.specs.declared.row.Row.TheVariants.{Made, Scalar};
ghost use Rattle.mz_meaning.specs.Cells.{held};
ghost use Rattle.mz_meaning.specs.Exact.{exact_value};
ghost use Rattle.mz_meaning.specs.Runs.{give};
ghost use Rattle.mz_symbol.specs.Readings.{symbol_seen};
ghost use Rattle.mz_symbol.specs.Makes.{GoesOnBy, Means};
ghost use Rattle.mz_symbol.specs.Arguments.{truth_of};
ghost use Rattle.mz_symbol_rows.specs.RowValues.{argument, row_value};
ghost use Rattle.mz_eval_row_symbols.specs.NodeRows.{told_by};
ghost use Rattle.mz_eval_row_symbols.specs.StepsRows.{gives_truth, made_truth};

use mz_base::Stop;
use mz_operations::{MadeRow, ScalarRow};
use mz_symbol::{Run, Symbol};
use mz_symbol_rows as rows;
use mz_symbol_rows::options::{absent, occurs};
use mz_symbol_rows::sets::{beside, card, member, set_op, subset, superset};
use mz_symbol_rows::{arith, logic, negation, options, order, ordinal, sets, sign};

/// A row whose term isn't made yet.
pub(crate) fn unbuilt_row() -> Result<Symbol, Stop>
    ensures { result ≡ Err MemoryStop }
{
    Err(Stop::Memory)
}

/// A row of one symbol. Out of memory too where it isn't one that the row takes.
#[tactic(auto, using(mz_symbol_rows::proofs::GoingOn::goes_most))]
pub(crate) fn over_one(run: &mut Run, w: ScalarRow, a: Symbol) -> Result<Symbol, Stop>
    ensures goes { GoesOnBy 12 run.old run.new }
    ensures means { (names : Names) → Means symbol_seen result run.old run.new
        (λ r. give (held r.mode (told_by (gives_truth w) (exact_value names (Scalar w) (argument r a ∷ []))))) }
{
    match w {
        ScalarRow::Not => negation(run, a),
        ScalarRow::Sign(op) => sign(run, op, a),
        ScalarRow::Ordinal => ordinal(run, a),
        ScalarRow::Occurs => occurs(run, a),
        ScalarRow::Absent => absent(run, a),
        ScalarRow::Card => card(run, a),
        _ => unbuilt_row(),
    }
}

/// `=` of single values, or of options of these.
#[tactic(auto, using(mz_symbol_rows::proofs::GoingOn::goes_most))]
fn equal(run: &mut Run, a: Symbol, b: Symbol) -> Result<Symbol, Stop>
    ensures goes { GoesOnBy 70 run.old run.new }
    ensures means { Means symbol_seen result run.old run.new (λ r. give (held r.mode (truth_of (row_value r row.Equal (a ∷ b ∷ []))))) }
{
    match a.occurs {
        None => rows::equal(run, a, b),
        Some(_) => options::equal(run, a, b),
    }
}

/// `!=` of the same.
#[tactic(auto, using(mz_symbol_rows::proofs::GoingOn::goes_most))]
fn unequal(run: &mut Run, a: Symbol, b: Symbol) -> Result<Symbol, Stop>
    ensures goes { GoesOnBy 92 run.old run.new }
    ensures means { Means symbol_seen result run.old run.new (λ r. give (held r.mode (truth_of (row_value r row.Unequal (a ∷ b ∷ []))))) }
{
    match a.occurs {
        None => rows::unequal(run, a, b),
        Some(_) => options::unequal(run, a, b),
    }
}

/// A row of two symbols. Out of memory too where they aren't such as the row takes.
#[tactic(auto, using(mz_symbol_rows::proofs::GoingOn::goes_most))]
pub(crate) fn over_two(run: &mut Run, w: ScalarRow, a: Symbol, b: Symbol) -> Result<Symbol, Stop>
    ensures goes { GoesOnBy 92 run.old run.new }
    ensures means { (names : Names) → Means symbol_seen result run.old run.new
        (λ r. give (held r.mode (told_by (gives_truth w) (exact_value names (Scalar w) (argument r a ∷ argument r b ∷ []))))) }
{
    match w {
        ScalarRow::Logic(op) => logic(run, op, a, b),
        ScalarRow::Order(op) => order(run, op, a, b),
        ScalarRow::Equal => equal(run, a, b),
        ScalarRow::Unequal => unequal(run, a, b),
        ScalarRow::SetEqual => sets::equal(run, a, b),
        ScalarRow::SetUnequal => sets::unequal(run, a, b),
        ScalarRow::In => member(run, a, b),
        ScalarRow::Arith(op) => arith(run, op, a, b),
        ScalarRow::Beside(side) => beside(run, side, a, b),
        _ => unbuilt_row(),
    }
}

/// A row of two sets that makes its value.
#[tactic(auto, using(mz_symbol_rows::proofs::GoingOn::goes_most))]
pub(crate) fn made_over_two(run: &mut Run, w: MadeRow, a: Symbol, b: Symbol) -> Result<Symbol, Stop>
    ensures goes { GoesOnBy 6 run.old run.new }
    ensures means { (names : Names) → Means symbol_seen result run.old run.new
        (λ r. give (held r.mode (told_by (made_truth w) (exact_value names (Made w) (argument r a ∷ argument r b ∷ []))))) }
{
    match w {
        MadeRow::SetOf(op) => set_op(run, op, a, b),
        MadeRow::Subset => subset(run, a, b),
        MadeRow::Superset => superset(run, a, b),
        _ => unbuilt_row(),
    }
}
