// Rows over sets.

ghost use Rattle.std.specs.Prelude.{[], ◌∷◌};
ghost use Rattle.mz_operations.specs.declared.row.ScalarRow.TheVariants as row;
ghost use Rattle.mz_operations.specs.declared.row.MadeRow.TheVariants as made_row;
ghost use Rattle.mz_meaning.specs.Cells.{held};
ghost use Rattle.mz_meaning.specs.Runs.{give};
ghost use Rattle.mz_symbol.specs.Readings.{symbol_seen};
ghost use Rattle.mz_symbol.specs.Makes.{GoesOnBy, Means};
ghost use Rattle.mz_symbol.specs.Arguments.{truth_of};
ghost use Rattle.mz_symbol_rows.specs.RowValues.{row_value};
ghost use Rattle.mz_symbol_rows.specs.OptionValues.{made_row_value};

use crate::sets::nodes::{
    beside_node, card_node, combined_node, equal_node, member_node, subset_node, unequal_node,
};
use crate::sets::sorts::{case_node, combined_base, element_node, set_node, symbol};
use mz_base::Stop;
use mz_core::Base;
use mz_operations::{SetOp, Side};
use mz_symbol::{Run, Symbol};

/// `in`: whether an integer or a case is an element of a set. False where one of them is undefined.
///
/// Out of memory too where they are no such pair.
pub fn member(run: &mut Run, a: Symbol, s: Symbol) -> Result<Symbol, Stop>
    ensures goes { GoesOnBy 6 run.old run.new }
    ensures means { Means symbol_seen result run.old run.new (λ r. give (held r.mode (truth_of (row_value r row.In (a ∷ s ∷ []))))) }
{
    let x = element_node(a)?;
    let set = set_node(s)?;
    let term = member_node(run, x, set)?;
    Ok(symbol(Base::Bool, term))
}

/// `union`, `intersect`, `diff` and `symdiff`. Undefined where one of the sets is.
///
/// Out of memory too where they are no sets.
pub fn set_op(run: &mut Run, op: SetOp, a: Symbol, b: Symbol) -> Result<Symbol, Stop>
    ensures goes { GoesOnBy 4 run.old run.new }
    ensures means { Means symbol_seen result run.old run.new (λ r. give (held r.mode (made_row_value r (made_row.SetOf op) (a ∷ b ∷ [])))) }
{
    let x = set_node(a)?;
    let y = set_node(b)?;
    let term = combined_node(run, op, x, y)?;
    Ok(symbol(combined_base(a.base, b.base), term))
}

/// `card`: how many elements a set has. Undefined where the set is.
///
/// Out of memory too where it is no set.
pub fn card(run: &mut Run, a: Symbol) -> Result<Symbol, Stop>
    ensures goes { GoesOnBy 4 run.old run.new }
    ensures means { Means symbol_seen result run.old run.new (λ r. give (held r.mode (row_value r row.Card (a ∷ [])))) }
{
    let x = set_node(a)?;
    let term = card_node(run, x)?;
    Ok(symbol(Base::Int, term))
}

/// `subset`. False where one of the sets is undefined.
///
/// Out of memory too where they are no sets.
pub fn subset(run: &mut Run, a: Symbol, b: Symbol) -> Result<Symbol, Stop>
    ensures goes { GoesOnBy 6 run.old run.new }
    ensures means { Means symbol_seen result run.old run.new (λ r. give (held r.mode (truth_of (made_row_value r made_row.Subset (a ∷ b ∷ []))))) }
{
    let x = set_node(a)?;
    let y = set_node(b)?;
    let term = subset_node(run, x, y)?;
    Ok(symbol(Base::Bool, term))
}

/// `superset`. False where one of the sets is undefined.
///
/// Out of memory too where they are no sets.
pub fn superset(run: &mut Run, a: Symbol, b: Symbol) -> Result<Symbol, Stop>
    ensures goes { GoesOnBy 6 run.old run.new }
    ensures means { Means symbol_seen result run.old run.new (λ r. give (held r.mode (truth_of (made_row_value r made_row.Superset (a ∷ b ∷ []))))) }
{
    let x = set_node(a)?;
    let y = set_node(b)?;
    let term = subset_node(run, y, x)?;
    Ok(symbol(Base::Bool, term))
}

/// `=` of sets. False where one of them is undefined.
///
/// Out of memory too where they are no sets.
pub fn equal(run: &mut Run, a: Symbol, b: Symbol) -> Result<Symbol, Stop>
    ensures goes { GoesOnBy 6 run.old run.new }
    ensures means { Means symbol_seen result run.old run.new (λ r. give (held r.mode (truth_of (row_value r row.SetEqual (a ∷ b ∷ []))))) }
{
    let x = set_node(a)?;
    let y = set_node(b)?;
    let term = equal_node(run, x, y)?;
    Ok(symbol(Base::Bool, term))
}

/// `!=` of sets. False too where one of them is undefined.
///
/// Out of memory too where they are no sets.
pub fn unequal(run: &mut Run, a: Symbol, b: Symbol) -> Result<Symbol, Stop>
    ensures goes { GoesOnBy 36 run.old run.new }
    ensures means { Means symbol_seen result run.old run.new (λ r. give (held r.mode (truth_of (row_value r row.SetUnequal (a ∷ b ∷ []))))) }
{
    let x = set_node(a)?;
    let y = set_node(b)?;
    let term = unequal_node(run, x, y)?;
    Ok(symbol(Base::Bool, term))
}

/// `enum_prev` and `enum_next`: the case before or after a case, where the set has it, else
/// undefined.
///
/// Out of memory too where they are no set and no case.
pub fn beside(run: &mut Run, side: Side, s: Symbol, a: Symbol) -> Result<Symbol, Stop>
    ensures goes { GoesOnBy 18 run.old run.new }
    ensures means { Means symbol_seen result run.old run.new (λ r. give (held r.mode (row_value r (row.Beside side) (s ∷ a ∷ [])))) }
{
    let set = set_node(s)?;
    let case = case_node(a)?;
    let term = beside_node(run, side, set, case.1)?;
    Ok(symbol(Base::Enum(case.0), term))
}
