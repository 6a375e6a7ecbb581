// `assert` of three arguments: its third, where the condition and the message are there.

ghost use Rattle.std.specs.Prelude.{◌≡◌, IfOk, IsSome, None, false, map, true};
ghost use Rattle.std.specs.Option.{option_and_then, option_map};
ghost use Rattle.mz_value.specs.Contents.{case_names, content};
ghost use Rattle.mz_core.specs.declared.types.Base.{Base as PlainBase};
ghost use Rattle.mz_core.specs.Types.{plain_type};
ghost use Rattle.mz_operations.specs.Arguments as words;
ghost use Rattle.mz_operations.specs.Bounds as bounds;
ghost use Rattle.mz_operations.specs.Views as views;
ghost use Rattle.mz_operations.specs.declared.row.MadeRow.TheVariants as made;
ghost use Rattle.mz_operations.specs.Values.{made_value};
ghost use Rattle.mz_meaning.specs.Cells.{Var, held, typed, value_of};
ghost use Rattle.mz_meaning.specs.Coerced as meant;
ghost use Rattle.mz_meaning.specs.Runs.{give};
ghost use Rattle.mz_symbol.specs.Readings.{Reading};
ghost use Rattle.mz_symbol.specs.Makes.{GoesOnBy, Means};
ghost use Rattle.mz_eval_cells.specs.Views.{all_seen, cell_of, item_content, known_bound, seen};
ghost use Rattle.mz_eval_row_symbols.specs.NodeRows.{row_node, stamped, with_value};
ghost use Rattle.mz_eval_rows.specs.Settled.{is_assert};

use crate::reshaped::{handed_as, nth};
use crate::settled::{same_index, settled, valued, whole_again};
use mz_base::{Memory, Span, Stop};
use mz_core::{Base, TypeInst};
use mz_eval_cells::{Bound, Item, Known, given, known_of, recast, share};
use mz_eval_row_symbols::{bounded, shape_of_all, symbol_at};
use mz_operations::{MadeRow, Row};
use mz_symbol::Run;
use mz_value::{Cases, Value};
use std::alloc::Global;
use std::rc::Rc;

/// Whether a row is `assert` of three arguments.
pub(crate) fn is_assert(row: Row) -> bool
    ensures { result ≡ is_assert row }
{
    match row {
        Row::Made(MadeRow::AssertValue) => true,
        Row::Made(MadeRow::AssertArray) => true,
        _ => false,
    }
}

// ---- the condition and the message

#[tactic(auto, unfolding(mz_operations::specs::Views::as_bool))]
fn is_truth_item(i: &Item) -> bool
    ensures { result ≡ true → IsSome (views.as_bool (item_content i.now)) }
{
    match i {
        Item::Bool(_) => true,
        _ => false,
    }
}

fn is_truth(k: &Known) -> bool
    ensures { result ≡ true → (r : Reading) → IsSome (option_and_then views.as_bool (value_of (seen r k.now))) }
{
    match k {
        Known::One(i) => is_truth_item(i),
        _ => false,
    }
}

#[tactic(auto, unfolding(mz_operations::specs::Views::as_text))]
fn is_text_item(i: &Item) -> bool
    ensures { result ≡ true → IsSome (views.as_text (item_content i.now)) }
{
    match i {
        Item::Text(_) => true,
        _ => false,
    }
}

fn is_text(k: &Known) -> bool
    ensures { result ≡ true → (r : Reading) → IsSome (option_and_then views.as_text (value_of (seen r k.now))) }
{
    match k {
        Known::One(i) => is_text_item(i),
        _ => false,
    }
}

/// Whether the condition and the message are there.
fn are_there(cells: &[Known]) -> bool
    ensures { result ≡ true → (r : Reading) → made_value made.AssertValue (map value_of (all_seen r cells.now)) ≡ words.at (map value_of (all_seen r cells.now)) 2 }
{
    let Some(a) = nth(cells, 0) else {
        return false;
    };
    let Some(b) = nth(cells, 1) else {
        return false;
    };
    if !is_truth(a) {
        return false;
    }
    is_text(b)
}

fn is_nothing(k: &Known) -> bool
    ensures { result ≡ true → (r : Reading) → value_of (seen r k.now) ≡ None }
{
    match k {
        Known::Undefined => true,
        _ => false,
    }
}

/// Whether the condition or the message is undefined.
fn one_lacks(cells: &[Known]) -> bool
    ensures { result ≡ true → (r : Reading) → made_value made.AssertValue (map value_of (all_seen r cells.now)) ≡ None }
{
    let Some(a) = nth(cells, 0) else {
        return false;
    };
    let Some(b) = nth(cells, 1) else {
        return false;
    };
    if is_nothing(a) {
        return true;
    }
    is_nothing(b)
}

fn third_of(cells: &[Known]) -> Result<Known, Memory>
    ensures { IfOk result (λ k. (r : Reading) → words.at (map value_of (all_seen r cells.now)) 2 ≡ value_of (seen r k)) }
{
    let Some(k) = nth(cells, 2) else {
        return Err(Memory);
    };
    let same = share(k)?;
    Ok(same)
}

/// The cell whose value the row has.
fn asserted(cells: &[Known]) -> Result<Known, Memory>
    ensures { IfOk result (λ k. (r : Reading) → made_value made.AssertValue (map value_of (all_seen r cells.now)) ≡ value_of (seen r k)) }
{
    if are_there(cells) {
        let k = third_of(cells)?;
        return Ok(k);
    }
    if one_lacks(cells) {
        return Ok(Known::Undefined);
    }
    Err(Memory)
}

// ---- the third argument's value in the row's cell

fn recast_value(b: Base, v: Option<Value>) -> Option<Value>
    ensures { option_map content result ≡ option_map (meant.recast b) (option_map content v) }
{
    match v {
        None => None,
        Some(x) => Some(recast(b, x)),
    }
}

/// A par cell as one of a base.
fn recast_par(alloc: Global, b: Base, x: Known) -> Result<Known, Memory>
    ensures { IfOk result (λ c. option_map (meant.recast b) (value_of (cell_of x)) ≡ value_of (cell_of c)) }
{
    let v = given(alloc, x)?;
    let y = recast_value(b, v);
    let c = known_of(alloc, y)?;
    Ok(c)
}

fn third_single(
    alloc: Global,
    t: &TypeInst,
    bound: &Bound,
    k: &Known,
    run: &mut Run,
) -> Result<Known, Stop>
    ensures goes { GoesOnBy 8 run.old run.new }
    ensures means { Means (stamped (plain_type t.now)) result run.old run.new (λ r. give (typed r.mode false (plain_type t.now)
        (Var (bounds.one (known_bound bound.now)) (held r.mode (option_map (meant.recast (plain_type t.now).base) (value_of (seen r k.now))))))) }
{
    let s = symbol_at(alloc, t, k, run)?;
    let x = bounded(alloc, bound, s)?;
    Ok(x)
}

fn third_array(
    alloc: Global,
    ix: &Rc<Vec<(i64, i64)>>,
    all: &Rc<Vec<Bound>>,
    k: &Known,
) -> Result<Known, Memory>
    ensures { IfOk result (λ x. (r : Reading) (b : PlainBase) → Var (bounds.many ix.now.value.items (map known_bound all.now.value.items))
        (held r.mode (option_map (meant.recast b) (value_of (seen r k.now)))) ≡ seen r x) }
{
    let Known::Row(jx, xs) = k else {
        return Err(Memory);
    };
    if !same_index(jx, ix) {
        return Err(Memory);
    }
    let x = handed_as(alloc, ix, all, xs)?;
    Ok(x)
}

fn third_var(
    alloc: Global,
    t: &TypeInst,
    shape: &Known,
    k: &Known,
    run: &mut Run,
) -> Result<Known, Stop>
    ensures goes { GoesOnBy 8 run.old run.new }
    ensures means { Means (stamped (plain_type t.now)) result run.old run.new (λ r. give (typed r.mode false (plain_type t.now)
        (with_value (held r.mode (option_map (meant.recast (plain_type t.now).base) (value_of (seen r k.now)))) (cell_of shape.now)))) }
{
    match shape {
        Known::Var(x) => third_single(alloc, t, &x.bound, k, run),
        Known::Row(ix, ys) => {
            let x = third_array(alloc, ix, &ys.bounds, k)?;
            Ok(x)
        }
        _ => {
            let x = whole_again(shape)?;
            Ok(x)
        }
    }
}

/// A cell without values, with the value of another, recast to the type's base.
#[tactic(auto, unfolding(mz_core::specs::Types::plain_type))]
fn third_cell(
    alloc: Global,
    t: &TypeInst,
    shape: &Known,
    k: &Known,
    run: &mut Run,
) -> Result<Known, Stop>
    ensures goes { GoesOnBy 8 run.old run.new }
    ensures means { Means (stamped (plain_type t.now)) result run.old run.new (λ r. give (typed r.mode false (plain_type t.now)
        (with_value (held r.mode (option_map (meant.recast (plain_type t.now).base) (value_of (seen r k.now)))) (cell_of shape.now)))) }
{
    let Ok(x) = settled(k) else {
        return third_var(alloc, t, shape, k, run);
    };
    let par = recast_par(alloc, t.base, x)?;
    let z = valued(alloc, shape, &par)?;
    Ok(z)
}

/// `assert` of three arguments. Out of memory too where the third's base isn't the type's.
pub(crate) fn row_of_asserted(
    alloc: Global,
    cases: &Cases,
    row: Row,
    t: &TypeInst,
    at: Span,
    cells: Vec<Known>,
    run: &mut Run,
) -> Result<Known, Stop>
    requires { is_assert row ≡ true }
    ensures goes { GoesOnBy 8 run.old run.new }
    ensures means { Means (stamped (plain_type t.now)) result run.old run.new
        (λ r. row_node r.mode (case_names cases.now) row (plain_type t.now) at (all_seen r cells.items)) }
{
    let k = asserted(&cells)?;
    let shape = shape_of_all(alloc, cases, row, t, at, cells)?;
    third_cell(alloc, t, &shape, &k, run)
}
