// Symbols at nodes: whether a symbol is what a type says.

ghost use Rattle.std.specs.Prelude.{◌≡◌, true, IfOk};
ghost use Rattle.std.specs.Option.{option_map};
ghost use Rattle.mz_core.specs.declared.types.Base.TheVariants as base;
ghost use Rattle.mz_core.specs.Types.{plain_type};
ghost use Rattle.mz_meaning.specs.Cells.{held};
ghost use Rattle.mz_meaning.specs.Coerced.{recast};
ghost use Rattle.mz_meaning.specs.Runs.{give};
ghost use Rattle.mz_symbol.specs.Makes.{GoesOnBy, Means};
ghost use Rattle.mz_symbol_rows.specs.RowValues.{argument};
ghost use Rattle.mz_eval_symbols.specs.Taken.{cell_value};
ghost use Rattle.mz_eval_row_symbols.specs.NodeRows.{told};
ghost use Rattle.mz_eval_row_symbols.specs.StepsRows.{IsAt, IsFree, IsOwn, IsSetTold, IsTold, gives_truth, is_own_base, is_set_sort, made_truth};

use crate::types::Argument;
use mz_base::{Memory, Stop};
use mz_core::{Base, TypeInst};
use mz_eval_cells::{Known, is_truth};
use mz_eval_symbols::symbol_in;
use mz_operations::{MadeRow, ScalarRow};
use mz_symbol::{Run, Symbol};
use std::alloc::Global;

/// The symbol of an argument that is no array.
pub(crate) fn taken(alloc: Global, run: &mut Run, a: &Argument) -> Result<Symbol, Stop>
    ensures goes { GoesOnBy 8 run.old run.new }
    ensures means { Means argument result run.old run.new (λ r. give (cell_value r a.now.cell)) }
{
    symbol_in(alloc, run, a.base, a.opt, &a.cell)
}

/// Whether a row gives truth values.
pub(crate) fn gives_truth(w: ScalarRow) -> bool
    ensures { result ≡ gives_truth w }
{
    match w {
        ScalarRow::Logic(_) => true,
        ScalarRow::Not => true,
        ScalarRow::Order(_) => true,
        ScalarRow::Equal => true,
        ScalarRow::Unequal => true,
        ScalarRow::SetEqual => true,
        ScalarRow::SetUnequal => true,
        ScalarRow::In => true,
        ScalarRow::Quantified(_) => true,
        ScalarRow::Clause => true,
        ScalarRow::Occurs => true,
        ScalarRow::Absent => true,
        _ => false,
    }
}

/// The same of rows that make their values.
pub(crate) fn made_truth(w: MadeRow) -> bool
    ensures { result ≡ made_truth w }
{
    match w {
        MadeRow::Subset => true,
        MadeRow::Superset => true,
        _ => false,
    }
}

/// Whether a symbol's base is that of a type, and no truth value's.
#[tactic(auto, unfolding(mz_core::specs::Types::plain_type))]
fn is_own(t: &TypeInst, b: Base) -> bool
    ensures { result ≡ true → IsOwn (plain_type t.now).base b }
{
    match b {
        Base::Int => match t.base {
            Base::Int => true,
            _ => false,
        },
        Base::Enum(e) => match t.base {
            Base::Enum(d) => d == e,
            _ => false,
        },
        Base::SetInt => match t.base {
            Base::SetInt => true,
            _ => false,
        },
        Base::SetEnum(e) => match t.base {
            Base::SetEnum(d) => d == e,
            _ => false,
        },
        _ => false,
    }
}

/// Whether a type has no base of its own, and a base is no truth value's.
#[tactic(auto, unfolding(mz_core::specs::Types::plain_type))]
fn is_free(t: &TypeInst, b: Base) -> bool
    ensures { result ≡ true → IsFree (plain_type t.now).base b }
{
    match t.base {
        Base::Bottom => is_own_base(b),
        _ => false,
    }
}

fn is_own_base(b: Base) -> bool
    ensures { result ≡ is_own_base b }
{
    match b {
        Base::Int => true,
        Base::Enum(_) => true,
        Base::SetInt => true,
        Base::SetEnum(_) => true,
        _ => false,
    }
}

/// A symbol of a row's node, which is a truth value or isn't. Out of memory where its type says
/// something else.
#[tactic(auto, using(crate::proofs::ValueLaws::tells_truth, crate::proofs::ValueLaws::tells_own, crate::proofs::ValueLaws::tells_free))]
pub(crate) fn stated(t: &TypeInst, truth: bool, s: Symbol) -> Result<Symbol, Memory>
    ensures told { IfOk result (IsTold truth (plain_type t.now)) }
    ensures same { IfOk result (λ x. x ≡ s) }
{
    if truth {
        if is_truth(t) { Ok(s) } else { Err(Memory) }
    } else if is_own(t, s.base) {
        Ok(s)
    } else if is_free(t, s.base) {
        Ok(s)
    } else {
        Err(Memory)
    }
}

fn is_set_sort(b: Base) -> bool
    ensures { result ≡ is_set_sort b }
{
    match b {
        Base::SetInt => true,
        Base::SetEnum(_) => true,
        _ => false,
    }
}

/// A set as one of a type. Out of memory where either is no set.
#[tactic(auto, unfolding(mz_core::specs::Types::plain_type), using(crate::proofs::ValueLaws::set_told))]
pub(crate) fn stated_set(t: &TypeInst, s: Symbol) -> Result<Symbol, Memory>
    ensures { IfOk result (IsSetTold (plain_type t.now) s) }
{
    if !is_set_sort(t.base) {
        return Err(Memory);
    }
    if !is_set_sort(s.base) {
        return Err(Memory);
    }
    match s.occurs {
        None => Ok(Symbol {
            base: t.base,
            occurs: None,
            term: s.term,
        }),
        Some(_) => Err(Memory),
    }
}

fn is_bool(b: Base) -> bool
    ensures { result ≡ true → b ≡ base.Bool }
{
    match b {
        Base::Bool => true,
        _ => false,
    }
}

/// A truth value, or an option of one, that is what a type says.
#[tactic(auto, unfolding(mz_core::specs::Types::plain_type), using(crate::proofs::ValueLaws::at_truth, crate::proofs::ValueLaws::at_option))]
fn truth_as_it_is(t: &TypeInst, s: Symbol) -> Result<Symbol, Memory>
    requires { s.base ≡ base.Bool }
    ensures same { IfOk result (λ x. x ≡ s) }
    ensures at { IfOk result (IsAt (plain_type t.now)) }
{
    let truth = is_truth(t);
    match s.occurs {
        None => { if truth { Ok(s) } else { Err(Memory) } }
        Some(_) => {
            if truth {
                Err(Memory)
            } else if is_bool(t.base) {
                Ok(s)
            } else {
                Err(Memory)
            }
        }
    }
}

/// A symbol that is what a type says.
#[tactic(auto, using(crate::proofs::ValueLaws::at_own, crate::proofs::ValueLaws::at_free))]
fn as_it_is(t: &TypeInst, s: Symbol) -> Result<Symbol, Memory>
    ensures same { IfOk result (λ x. x ≡ s) }
    ensures at { IfOk result (IsAt (plain_type t.now)) }
{
    if is_own(t, s.base) {
        return Ok(s);
    }
    if is_free(t, s.base) {
        return Ok(s);
    }
    if is_bool(s.base) {
        truth_as_it_is(t, s)
    } else {
        Err(Memory)
    }
}

/// The symbol of a cell that is handed on to a node of this type. Out of memory too where its base
/// is another.
pub fn symbol_at(alloc: Global, t: &TypeInst, k: &Known, run: &mut Run) -> Result<Symbol, Stop>
    ensures goes { GoesOnBy 8 run.old run.new }
    ensures means { Means argument result run.old run.new
        (λ r. give (held r.mode (told (plain_type t.now) (option_map (recast (plain_type t.now).base) (cell_value r k.now))))) }
{
    let s = symbol_in(alloc, run, t.base, t.opt, k)?;
    let x = as_it_is(t, s)?;
    Ok(x)
}
