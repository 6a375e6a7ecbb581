// The cells of rows: the shape without values, and the symbol that tells the value.

ghost use Rattle.std.specs.Prelude.{◌≡◌, ◌+◌, ◌*◌, ◌∷◌, [], false, IfOk, Option};
ghost use Rattle.mz_value.specs.Contents.{Content, case_names};
ghost use Rattle.mz_value.specs.Shown.{Names};
ghost use Rattle.mz_core.specs.Types.{plain_type};
ghost use Rattle.mz_operations.specs.Bounds as bounds;
ghost use Rattle.mz_meaning.specs.Cells.{Var, typed};
ghost use Rattle.mz_meaning.specs.Operations.{row_cost};
ghost use Rattle.mz_meaning.specs.Runs.{give};
ghost use Rattle.mz_symbol.specs.Runs.{ReadsNodes};
ghost use Rattle.mz_symbol.specs.Readings.{Reading};
ghost use Rattle.mz_symbol.specs.Makes.{GoesOnBy, Means};
ghost use Rattle.mz_symbol_rows.specs.RowValues.{argument};
ghost use Rattle.mz_eval_cells.specs.Views.{cell_of, known_bound, seen};
ghost use Rattle.mz_eval_row_symbols.specs.NodeRows.{is_open, row_node, shape_stamped, stamped, var_value, with_value};
ghost use Rattle.mz_eval_row_symbols.specs.Ends.{HasEnds};

use crate::told::{symbol_of_one, symbol_of_two};
use crate::types::Argument;
use mz_arena::Arena;
use mz_base::{Memory, Span, Stop};
use mz_core::{Base, TypeInst};
use mz_eval_cells::{Bound, Known, share, share_bound, var_value};
use mz_eval_symbols::{cell_of_symbol, is_gone};
use mz_operations::Row;
use mz_symbol::{Run, Symbol};
use mz_value::Cases;
use std::alloc::{AllocError, Global};

/// The var cell of a symbol, with these bounds.
pub fn bounded(alloc: Global, bound: &Bound, s: Symbol) -> Result<Known, AllocError>
    ensures { IfOk result (λ k. (r : Reading) → seen r k ≡ Var (bounds.one (known_bound bound.now)) (argument r s)) }
{
    let same = share_bound(bound)?;
    cell_of_symbol(alloc, same, s)
}

/// The same at a node of a type; where that has no base of its own, and the symbol is surely undefined,
/// the cell has no value.
fn told_cell(
    alloc: Global,
    nodes: &Arena,
    t: &TypeInst,
    bound: &Bound,
    s: Symbol,
) -> Result<Known, AllocError>
    ensures { IfOk result (λ k. (r : Reading) → ReadsNodes r.term nodes.now → seen r k ≡ Var (bounds.one (known_bound bound.now)) (argument r s)) }
{
    match t.base {
        Base::Bottom => free_cell(alloc, nodes, bound, s),
        _ => {
            let k = bounded(alloc, bound, s)?;
            Ok(k)
        }
    }
}

fn free_cell(alloc: Global, nodes: &Arena, bound: &Bound, s: Symbol) -> Result<Known, AllocError>
    ensures { IfOk result (λ k. (r : Reading) → ReadsNodes r.term nodes.now → seen r k ≡ Var (bounds.one (known_bound bound.now)) (argument r s)) }
{
    let gone = is_gone(alloc, nodes, s)?;
    if gone {
        let same = share_bound(bound)?;
        let none = var_value(alloc, same)?;
        return Ok(none);
    }
    let k = bounded(alloc, bound, s)?;
    Ok(k)
}

/// The cell of a row of one argument that is no array.
fn single_of_one(
    alloc: Global,
    row: Row,
    t: &TypeInst,
    bound: &Bound,
    a: &Argument,
    run: &mut Run,
) -> Result<Known, Stop>
    ensures goes { GoesOnBy (64 * (1 + row_cost row (cell_of a.now.cell ∷ []))) run.old run.new }
    ensures means { (names : Names) → Means (stamped (plain_type t.now)) result run.old run.new
        (λ r. give (typed r.mode false (plain_type t.now) (Var (bounds.one (known_bound bound.now)) (var_value r.mode names row (plain_type t.now) (seen r a.now.cell ∷ []))))) }
{
    let s = symbol_of_one(alloc, row, t, a, run)?;
    let k = told_cell(alloc, run.arena(), t, bound, s)?;
    Ok(k)
}

/// The cell of a row of two arguments that is no array.
fn single_of_two(
    alloc: Global,
    row: Row,
    t: &TypeInst,
    bound: &Bound,
    a: &Argument,
    b: &Argument,
    run: &mut Run,
) -> Result<Known, Stop>
    ensures goes { GoesOnBy (64 * (1 + row_cost row (cell_of a.now.cell ∷ cell_of b.now.cell ∷ []))) run.old run.new }
    ensures means { (names : Names) → Means (stamped (plain_type t.now)) result run.old run.new
        (λ r. give (typed r.mode false (plain_type t.now)
        (Var (bounds.one (known_bound bound.now)) (var_value r.mode names row (plain_type t.now) (seen r a.now.cell ∷ seen r b.now.cell ∷ []))))) }
{
    let s = symbol_of_two(alloc, row, t, a, b, run)?;
    let k = bounded(alloc, bound, s)?;
    Ok(k)
}

/// Whether a cell may have a var value.
fn is_open(k: &Known) -> bool
    ensures { result ≡ is_open k.now }
{
    match k {
        Known::Var(_) => true,
        Known::Row(_, _) => true,
        _ => false,
    }
}

/// A cell that has no var value. Out of memory where it may have one.
#[tactic(auto, using(crate::proofs::ToldLaws::known_whole))]
pub fn whole(k: Known) -> Result<Known, Memory>
    ensures { IfOk result (λ x. (r : Reading) (v : Option Content) → with_value v (cell_of k) ≡ seen r x) }
{
    if is_open(&k) { Err(Memory) } else { Ok(k) }
}

/// The same of a cell that others hold.
fn whole_shape(k: &Known) -> Result<Known, Memory>
    ensures { IfOk result (λ x. (r : Reading) (v : Option Content) → with_value v (cell_of k.now) ≡ seen r x) }
{
    let same = share(k)?;
    whole(same)
}

/// The cell of a row of one argument, from its shape.
pub fn cell_of_one(
    alloc: Global,
    row: Row,
    t: &TypeInst,
    shape: &Known,
    a: &Argument,
    run: &mut Run,
) -> Result<Known, Stop>
    ensures goes { GoesOnBy (64 * (1 + row_cost row (cell_of a.now.cell ∷ []))) run.old run.new }
    ensures means { (names : Names) → Means (stamped (plain_type t.now)) result run.old run.new
        (λ r. give (shape_stamped r names row (plain_type t.now) (seen r a.now.cell ∷ []) shape.now)) }
{
    match shape {
        Known::Var(x) => single_of_one(alloc, row, t, &x.bound, a, run),
        _ => {
            let k = whole_shape(shape)?;
            Ok(k)
        }
    }
}

/// The cell of a row of two arguments, from its shape.
pub fn cell_of_two(
    alloc: Global,
    row: Row,
    t: &TypeInst,
    shape: &Known,
    a: &Argument,
    b: &Argument,
    run: &mut Run,
) -> Result<Known, Stop>
    ensures goes { GoesOnBy (64 * (1 + row_cost row (cell_of a.now.cell ∷ cell_of b.now.cell ∷ []))) run.old run.new }
    ensures means { (names : Names) → Means (stamped (plain_type t.now)) result run.old run.new
        (λ r. give (shape_stamped r names row (plain_type t.now) (seen r a.now.cell ∷ seen r b.now.cell ∷ []) shape.now)) }
{
    match shape {
        Known::Var(x) => single_of_two(alloc, row, t, &x.bound, a, b, run),
        _ => {
            let k = whole_shape(shape)?;
            Ok(k)
        }
    }
}

/// The bound with these ends.
pub(crate) fn number_bound(e: (i64, i64)) -> Bound
    ensures { known_bound result ≡ bounds.number e }
{
    Bound::Number(e.0, e.1)
}

/// The cell of a row of two arguments whose bounds have these ends.
pub fn cell_by_ends(
    alloc: Global,
    cases: &Cases,
    row: Row,
    t: &TypeInst,
    at: Span,
    ends: (i64, i64),
    a: &Argument,
    b: &Argument,
    run: &mut Run,
) -> Result<Known, Stop>
    requires { (r : Reading) → HasEnds row (seen r a.now.cell ∷ seen r b.now.cell ∷ []) ends }
    ensures goes { GoesOnBy (64 * (1 + row_cost row (cell_of a.now.cell ∷ cell_of b.now.cell ∷ []))) run.old run.new }
    ensures means { Means (stamped (plain_type t.now)) result run.old run.new
        (λ r. row_node r.mode (case_names cases.now) row (plain_type t.now) at (seen r a.now.cell ∷ seen r b.now.cell ∷ [])) }
{
    let bound = number_bound(ends);
    let k = single_of_two(alloc, row, t, &bound, a, b, run)?;
    Ok(k)
}
