// What is asked of options.

ghost use Rattle.std.specs.Prelude.{[], ◌∷◌, None};
ghost use Rattle.mz_operations.specs.declared.row.ScalarRow.TheVariants as row;
ghost use Rattle.mz_operations.specs.declared.row.MadeRow.TheVariants as made_row;
ghost use Rattle.mz_meaning.specs.Cells.{held};
ghost use Rattle.mz_meaning.specs.Runs.{give};
ghost use Rattle.mz_symbol.specs.Readings.{symbol_seen};
ghost use Rattle.mz_symbol.specs.Makes.{GoesOnBy, Means};
ghost use Rattle.mz_symbol.specs.Arguments.{as_argument, truth_of};
ghost use Rattle.mz_symbol_rows.specs.RowValues.{argument, row_value};
ghost use Rattle.mz_symbol_rows.specs.OptionValues.{counted_as, made_row_value};

use crate::options::nodes::{equal_where, made, summand_node, value_node};
use crate::options::sorts::{occurrence, symbol};
use mz_arena::NodeKind;
use mz_base::Stop;
use mz_core::Base;
use mz_symbol::{Run, Symbol};

/// `occurs`: false where the option is absent or undefined.
///
/// Out of memory too where it is no option.
pub fn occurs(run: &mut Run, a: Symbol) -> Result<Symbol, Stop>
    ensures goes { GoesOnBy 12 run.old run.new }
    ensures means { Means symbol_seen result run.old run.new (λ r. give (held r.mode (truth_of (row_value r row.Occurs (a ∷ []))))) }
{
    let o = occurrence(a)?;
    let term = equal_where(run, o, a.term, a.term)?;
    Ok(symbol(Base::Bool, None, term))
}

/// `absent`: false where the option occurs or is undefined.
///
/// Out of memory too where it is no option.
pub fn absent(run: &mut Run, a: Symbol) -> Result<Symbol, Stop>
    ensures goes { GoesOnBy 6 run.old run.new }
    ensures means { Means symbol_seen result run.old run.new (λ r. give (held r.mode (truth_of (row_value r row.Absent (a ∷ []))))) }
{
    let o = occurrence(a)?;
    let term = made(run, NodeKind::Not, o, 0, 0)?;
    Ok(symbol(Base::Bool, None, term))
}

/// `deopt`: undefined where the option is absent or undefined; a truth value is false there.
///
/// Out of memory too where it is no option.
pub fn deopt(run: &mut Run, a: Symbol) -> Result<Symbol, Stop>
    ensures goes { GoesOnBy 12 run.old run.new }
    ensures means { Means symbol_seen result run.old run.new (λ r. give (held r.mode (as_argument a.base None (made_row_value r made_row.Deopt (a ∷ []))))) }
{
    let o = occurrence(a)?;
    let term = value_node(run, a.base, o, a.term)?;
    Ok(symbol(a.base, None, term))
}

/// What an element of a sum of options counts as: 0 where it is absent. Undefined where the option
/// is.
///
/// Out of memory too where it is no option of an integer.
pub fn summand(run: &mut Run, a: Symbol) -> Result<Symbol, Stop>
    ensures goes { GoesOnBy 16 run.old run.new }
    ensures means { Means symbol_seen result run.old run.new (λ r. give (held r.mode (counted_as (argument r a)))) }
{
    let o = occurrence(a)?;
    match a.base {
        Base::Int => {
            let term = summand_node(run, o, a.term)?;
            Ok(symbol(Base::Int, None, term))
        }
        _ => Err(Stop::Memory),
    }
}
