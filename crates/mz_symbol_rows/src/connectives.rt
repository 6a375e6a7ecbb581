// Connectives of truth values.

ghost use Rattle.std.specs.Prelude.{[], ◌∷◌};
ghost use Rattle.mz_operations.specs.declared.row.ScalarRow.TheVariants as row;
ghost use Rattle.mz_meaning.specs.Cells.{held};
ghost use Rattle.mz_meaning.specs.Runs.{give};
ghost use Rattle.mz_symbol.specs.Readings.{symbol_seen};
ghost use Rattle.mz_symbol.specs.Makes.{GoesOnBy, Means};
ghost use Rattle.mz_symbol.specs.Arguments.{truth_of};
ghost use Rattle.mz_symbol_rows.specs.RowValues.{row_value};

use crate::nodes::{logic_node, made};
use crate::sorts::{symbol, truth};
use mz_arena::NodeKind;
use mz_base::Stop;
use mz_core::Base;
use mz_operations::Connective;
use mz_symbol::{Run, Symbol};

/// `<->`, `->`, `<-`, `\/`, `xor` and `/\`. An undefined truth value counts as false.
///
/// Out of memory too where one of them is no truth value.
pub fn logic(run: &mut Run, op: Connective, a: Symbol, b: Symbol) -> Result<Symbol, Stop>
    ensures goes { GoesOnBy 12 run.old run.new }
    ensures means { Means symbol_seen result run.old run.new (λ r. give (held r.mode (truth_of (row_value r (row.Logic op) (a ∷ b ∷ []))))) }
{
    let x = truth(a)?;
    let y = truth(b)?;
    let term = logic_node(run, op, x, y)?;
    Ok(symbol(Base::Bool, term))
}

/// `not`. An undefined truth value counts as false.
///
/// Out of memory too where it is no truth value.
pub fn negation(run: &mut Run, a: Symbol) -> Result<Symbol, Stop>
    ensures goes { GoesOnBy 6 run.old run.new }
    ensures means { Means symbol_seen result run.old run.new (λ r. give (held r.mode (truth_of (row_value r row.Not (a ∷ []))))) }
{
    let x = truth(a)?;
    let term = made(run, NodeKind::Not, x, 0)?;
    Ok(symbol(Base::Bool, term))
}
