// Equality of options.

ghost use Rattle.std.specs.Prelude.{[], ◌∷◌};
ghost use Rattle.mz_operations.specs.declared.row.ScalarRow.TheVariants as row;
ghost use Rattle.mz_meaning.specs.Cells.{held};
ghost use Rattle.mz_meaning.specs.Runs.{give};
ghost use Rattle.mz_symbol.specs.Readings.{symbol_seen};
ghost use Rattle.mz_symbol.specs.Makes.{GoesOnBy, Means};
ghost use Rattle.mz_symbol.specs.Arguments.{truth_of};
ghost use Rattle.mz_symbol_rows.specs.RowValues.{row_value};

use crate::options::nodes::{equal_node, unequal_node};
use crate::options::sorts::{occurrences, symbol};
use mz_base::Stop;
use mz_core::Base;
use mz_symbol::{Run, Symbol};

/// `=` of two options of one base: true where both are absent, or both are there and equal. False
/// where one of them is undefined.
///
/// Out of memory too where they are no such pair.
pub fn equal(run: &mut Run, a: Symbol, b: Symbol) -> Result<Symbol, Stop>
    ensures goes { GoesOnBy 70 run.old run.new }
    ensures means { Means symbol_seen result run.old run.new (λ r. give (held r.mode (truth_of (row_value r row.Equal (a ∷ b ∷ []))))) }
{
    let both = occurrences(a, b)?;
    let term = equal_node(run, a.base, both.0, a.term, both.1, b.term)?;
    Ok(symbol(Base::Bool, None, term))
}

/// `!=` of the same: false too where one of them is undefined.
///
/// Out of memory too where they are no such pair.
pub fn unequal(run: &mut Run, a: Symbol, b: Symbol) -> Result<Symbol, Stop>
    ensures goes { GoesOnBy 92 run.old run.new }
    ensures means { Means symbol_seen result run.old run.new (λ r. give (held r.mode (truth_of (row_value r row.Unequal (a ∷ b ∷ []))))) }
{
    let both = occurrences(a, b)?;
    let term = unequal_node(run, a.base, both.0, a.term, both.1, b.term)?;
    Ok(symbol(Base::Bool, None, term))
}
