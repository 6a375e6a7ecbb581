// Operations on integers.

ghost use Rattle.std.specs.Prelude.{[], ◌∷◌};
ghost use Rattle.mz_operations.specs.declared.row.ScalarRow.TheVariants as row;
ghost use Rattle.mz_meaning.specs.Cells.{held};
ghost use Rattle.mz_meaning.specs.Runs.{give};
ghost use Rattle.mz_symbol.specs.Readings.{symbol_seen};
ghost use Rattle.mz_symbol.specs.Makes.{GoesOnBy, Means};
ghost use Rattle.mz_symbol_rows.specs.RowValues.{row_value};

use crate::nodes::{arith_node, number_node, sign_node};
use crate::sorts::{integer, symbol, with_ordinal};
use mz_base::Stop;
use mz_core::Base;
use mz_operations::{Arith, Sign};
use mz_symbol::{Run, Symbol};

/// `+`, `-`, `*`, `div`, `mod`, and `min` and `max` of two integers. Undefined where one of them is,
/// or the divisor is 0.
///
/// Out of memory too where one of them is no integer, or where bounds leave the limit.
pub fn arith(run: &mut Run, op: Arith, a: Symbol, b: Symbol) -> Result<Symbol, Stop>
    ensures goes { GoesOnBy 24 run.old run.new }
    ensures means { Means symbol_seen result run.old run.new (λ r. give (held r.mode (row_value r (row.Arith op) (a ∷ b ∷ [])))) }
{
    let x = integer(a)?;
    let y = integer(b)?;
    let term = arith_node(run, op, x, y)?;
    Ok(symbol(Base::Int, term))
}

/// Prefix `+` and `-`, and `abs`. Undefined where the integer is.
///
/// Out of memory too where it is no integer, or where bounds leave the limit.
pub fn sign(run: &mut Run, op: Sign, a: Symbol) -> Result<Symbol, Stop>
    ensures goes { GoesOnBy 4 run.old run.new }
    ensures means { Means symbol_seen result run.old run.new (λ r. give (held r.mode (row_value r (row.Sign op) (a ∷ [])))) }
{
    let x = integer(a)?;
    let term = sign_node(run, op, x)?;
    Ok(symbol(Base::Int, term))
}

/// `bool2int` and `enum2int`: a truth value as 0 or 1, or the number of a case.
///
/// Out of memory too where it is neither.
pub fn ordinal(run: &mut Run, a: Symbol) -> Result<Symbol, Stop>
    ensures goes { GoesOnBy 4 run.old run.new }
    ensures means { Means symbol_seen result run.old run.new (λ r. give (held r.mode (row_value r row.Ordinal (a ∷ [])))) }
{
    let x = with_ordinal(a)?;
    let term = number_node(run, a.base, x)?;
    Ok(symbol(Base::Int, term))
}
