// Orders and equality of single values.

ghost use Rattle.std.specs.Prelude.{[], ◌∷◌};
ghost use Rattle.mz_operations.specs.declared.row.ScalarRow.TheVariants as row;
ghost use Rattle.mz_meaning.specs.Cells.{held};
ghost use Rattle.mz_meaning.specs.Runs.{give};
ghost use Rattle.mz_symbol.specs.Readings.{symbol_seen};
ghost use Rattle.mz_symbol.specs.Makes.{GoesOnBy, Means};
ghost use Rattle.mz_symbol.specs.Arguments.{truth_of};
ghost use Rattle.mz_symbol_rows.specs.RowValues.{row_value};

use crate::nodes::{equal_node, number_node, order_node, unequal_node};
use crate::sorts::{is_pair, symbol};
use mz_base::Stop;
use mz_core::Base;
use mz_operations::Comparison;
use mz_symbol::{Run, Symbol};

/// `<`, `<=`, `>` and `>=` of two truth values, integers, or cases of one enum. False where one of
/// them is undefined; a truth value counts as false there.
///
/// Out of memory too where they are no such pair.
#[tactic(auto, using(crate::proofs::GoingOn::goes_both, crate::proofs::GoingOn::goes_most))]
pub fn order(run: &mut Run, op: Comparison, a: Symbol, b: Symbol) -> Result<Symbol, Stop>
    ensures goes { GoesOnBy 14 run.old run.new }
    ensures means { Means symbol_seen result run.old run.new (λ r. give (held r.mode (truth_of (row_value r (row.Order op) (a ∷ b ∷ []))))) }
{
    if !is_pair(a, b) {
        return Err(Stop::Memory);
    }
    let x = number_node(run, a.base, a.term)?;
    let y = number_node(run, a.base, b.term)?;
    let term = order_node(run, op, x, y)?;
    Ok(symbol(Base::Bool, term))
}

/// `=` of two truth values, integers, or cases of one enum, which are no options. False where one of
/// them is undefined; a truth value counts as false there.
///
/// Out of memory too where they are no such pair.
pub fn equal(run: &mut Run, a: Symbol, b: Symbol) -> Result<Symbol, Stop>
    ensures goes { GoesOnBy 6 run.old run.new }
    ensures means { Means symbol_seen result run.old run.new (λ r. give (held r.mode (truth_of (row_value r row.Equal (a ∷ b ∷ []))))) }
{
    if !is_pair(a, b) {
        return Err(Stop::Memory);
    }
    let term = equal_node(run, a.base, a.term, b.term)?;
    Ok(symbol(Base::Bool, term))
}

/// `!=` of the same.
///
/// Out of memory too where they are no such pair.
pub fn unequal(run: &mut Run, a: Symbol, b: Symbol) -> Result<Symbol, Stop>
    ensures goes { GoesOnBy 12 run.old run.new }
    ensures means { Means symbol_seen result run.old run.new (λ r. give (held r.mode (truth_of (row_value r row.Unequal (a ∷ b ∷ []))))) }
{
    if !is_pair(a, b) {
        return Err(Stop::Memory);
    }
    let term = unequal_node(run, a.base, a.term, b.term)?;
    Ok(symbol(Base::Bool, term))
}
