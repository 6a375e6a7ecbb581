// Rows of two numbers or truth values, by what tells these: nodes that stand as they are, and integers.

ghost use Rattle.std.specs.Prelude.{◌≡◌, ◌∷◌, [], IfOk, MatchOption, Option, Some, None, true, ℕ};
ghost use Rattle.mz_value.specs.Contents.{case_names};
ghost use Rattle.mz_value.specs.Shown.{Names};
ghost use Rattle.mz_core.specs.Types.{plain_type};
ghost use Rattle.mz_operations.specs.declared.row.Row.TheVariants.{Scalar};
ghost use Rattle.mz_operations.specs.Bounds as bounds;
ghost use Rattle.mz_arena.specs.Values.{Term};
ghost use Rattle.mz_meaning.specs.Cells.{Cell};
ghost use Rattle.mz_meaning.specs.Runs.{give};
ghost use Rattle.mz_symbol.specs.Makes.{GoesOn, GoesOnBy, Means};
ghost use Rattle.mz_symbol.specs.Readings.{Reading};
ghost use Rattle.mz_symbol_rows.specs.RowValues.{argument};
ghost use Rattle.mz_eval_cells.specs.Views.{item_content, known_bound, origin_value, seen, var_content};
ghost use Rattle.mz_eval_symbols.specs.Steps.{argued};
ghost use Rattle.mz_eval_row_symbols.specs.declared.types.Operand.TheVariants as operand;
ghost use Rattle.mz_eval_row_symbols.specs.NodeRows.{row_node, row_told, stamped};
ghost use Rattle.mz_eval_row_symbols.specs.Numbers.{AreNumbers, IsNumber, is_node, operand_seen, operand_value};

use crate::cells::{bounded, number_bound};
use crate::ends::row_ends;
use crate::singles::over_two;
use crate::stated::{gives_truth, stated};
use crate::types::{Number, NumberRow, Operand};
use mz_arena::Id;
use mz_base::{Span, Stop};
use mz_core::{Base, TypeInst};
use mz_eval_cells::{Bound, Item, Known, Origin, VarValue};
use mz_operations::Row;
use mz_symbol::{Run, Symbol};
use mz_value::Cases;
use std::alloc::Global;

// ---- what tells a cell

fn symbol_operand(s: &Symbol) -> Option<Operand>
    ensures { MatchOption result (Unit {0}) (λ o. (t : ℕ → Term) → operand_seen t o ≡ argued t s.now) }
{
    if s.occurs.is_some() {
        return None;
    }
    match s.base {
        Base::Int => Some(Operand::Number(s.term)),
        Base::Bool => Some(Operand::Truth(s.term)),
        _ => None,
    }
}

fn item_operand(i: &Item) -> Option<Operand>
    ensures { MatchOption result (Unit {0}) (λ o. (t : ℕ → Term) → operand_seen t o ≡ Some (item_content i.now)) }
{
    match i {
        Item::Int(n) => Some(Operand::Integer(*n)),
        _ => None,
    }
}

fn origin_operand(o: &Origin) -> Option<Operand>
    ensures { MatchOption result (Unit {0}) (λ x. (t : ℕ → Term) → operand_seen t x ≡ origin_value t o.now) }
{
    match o {
        Origin::Symbol(s) => symbol_operand(s),
        Origin::Item(i) => item_operand(i),
        _ => None,
    }
}

fn value_number(v: &VarValue) -> Option<Number>
    ensures operand { MatchOption result (Unit {0}) (λ n. (t : ℕ → Term) → operand_seen t n.operand ≡ var_content t v.now) }
    ensures ends { MatchOption result (Unit {0}) (λ n. known_bound v.now.bound ≡ bounds.number n.ends) }
{
    if v.cast.is_some() {
        return None;
    }
    match v.bound {
        Bound::Number(low, high) => {
            let operand = origin_operand(&v.origin)?;
            Some(Number {
                operand,
                ends: (low, high),
            })
        }
        Bound::Sets(_, _) => None,
    }
}

/// The number that a var cell is, where it stands as it is and is no option.
pub fn number_in(k: &Known) -> Option<Number>
    ensures { MatchOption result (Unit {0}) (IsNumber (λ r. seen r k.now)) }
{
    match k {
        Known::Var(v) => value_number(v),
        _ => None,
    }
}

/// A number that is an integer.
pub fn integer(n: i64) -> Number
    ensures { result ≡ record { operand = operand.Integer n; ends = (n, n) } }
{
    Number {
        operand: Operand::Integer(n),
        ends: (n, n),
    }
}

fn is_node(o: Operand) -> bool
    ensures { result ≡ is_node o }
{
    match o {
        Operand::Integer(_) => false,
        _ => true,
    }
}

/// The row of two numbers of which a node tells one, where the bounds of these tell its bounds: of
/// arithmetic in the limit, of connectives and comparisons. None of other rows.
pub fn row_of_numbers(row: Option<Row>, a: &Number, b: &Number) -> Option<NumberRow>
    ensures row { MatchOption result (Unit {0}) (λ n. row ≡ Some (Scalar n.row)) }
    ensures numbers { MatchOption result (Unit {0}) (λ n. (x y : Reading → Cell) → IsNumber x a.now → IsNumber y b.now → AreNumbers x y n) }
{
    if !is_node(a.operand) && !is_node(b.operand) {
        return None;
    }
    match row {
        Some(Row::Scalar(w)) => {
            let ends = row_ends(w, a.ends, b.ends)?;
            Some(NumberRow {
                row: w,
                left: a.operand,
                right: b.operand,
                ends,
            })
        }
        _ => None,
    }
}

// ---- the cell of the row

fn node_symbol(base: Base, term: Id) -> Symbol
    ensures { result ≡ record { base = base; occurs = None; term = term } }
{
    Symbol {
        base,
        occurs: None,
        term,
    }
}

fn operand_symbol(run: &mut Run, o: Operand) -> Result<Symbol, Stop>
    ensures goes { GoesOn run.old run.new }
    ensures means { Means argument result run.old run.new (λ r. give (operand_value r o)) }
{
    match o {
        Operand::Number(n) => Ok(node_symbol(Base::Int, n)),
        Operand::Truth(n) => Ok(node_symbol(Base::Bool, n)),
        Operand::Integer(n) => run.integer(n),
    }
}

fn row_symbol(t: &TypeInst, n: &NumberRow, run: &mut Run) -> Result<Symbol, Stop>
    ensures goes { GoesOnBy 92 run.old run.new }
    ensures means { (names : Names) → Means argument result run.old run.new
        (λ r. give (row_told r names (Scalar n.now.row) (plain_type t.now) (operand_value r n.now.left ∷ operand_value r n.now.right ∷ []))) }
{
    let x = operand_symbol(run, n.left)?;
    let y = operand_symbol(run, n.right)?;
    let s = over_two(run, n.row, x, y)?;
    let told = stated(t, gives_truth(n.row), s)?;
    Ok(told)
}

/// The cell of such a row over numbers, at a node of this type, which pays for it. Out of memory too
/// where the type says something else.
#[tactic(auto, using(mz_symbol_rows::proofs::GoingOn::goes_most))]
pub fn cell_of_numbers(
    alloc: Global,
    cases: &Cases,
    t: &TypeInst,
    at: Span,
    n: &NumberRow,
    run: &mut Run,
) -> Result<Known, Stop>
    ensures goes { GoesOnBy 128 run.old run.new }
    ensures means { (x y : Reading → Cell) → AreNumbers x y n.now → Means (stamped (plain_type t.now)) result run.old run.new
        (λ r. row_node r.mode (case_names cases.now) (Scalar n.now.row) (plain_type t.now) at (x r ∷ y r ∷ [])) }
{
    let s = row_symbol(t, n, run)?;
    let bound = number_bound(n.ends);
    let k = bounded(alloc, &bound, s)?;
    Ok(k)
}
