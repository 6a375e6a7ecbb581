// `array1d` to `array6d` with index sets: the elements of a var array under other index ranges. No element is copied, and no node is made.

ghost use Rattle.std.specs.Prelude.{◌≡◌, IfOk, List, MatchOption, None, Option, Some, length, map, slice_get, true, ℕ};
ghost use Rattle.mz_value.specs.Contents.{Content, case_names};
ghost use Rattle.mz_core.specs.Types.{plain_type};
ghost use Rattle.mz_operations.specs.Arguments as words;
ghost use Rattle.mz_operations.specs.Arguments.{arguments};
ghost use Rattle.mz_operations.specs.Bounds as bounds;
ghost use Rattle.mz_operations.specs.declared.row.MadeRow.TheVariants as made;
ghost use Rattle.mz_operations.specs.declared.row.Row.TheVariants.{Made};
ghost use Rattle.mz_builtin_values.specs.Shapes.{shape_of};
ghost use Rattle.mz_meaning.specs.Cells.{Var, held, value_of};
ghost use Rattle.mz_symbol.specs.Readings.{Reading, Reads};
ghost use Rattle.mz_symbol.specs.Makes.{GoesOn, Means};
ghost use Rattle.mz_eval_cells.specs.Views.{all_seen, cell_of, cells_of, known_bound, origins_value, row_content, seen};
ghost use Rattle.mz_eval_row_symbols.specs.NodeRows.{row_node, stamped};
ghost use Rattle.mz_eval_rows.specs.StepsCells.{IsReshaped, ReshapedAt};

use crate::handed::is_whole;
use crate::settled::{same_ranges, whole_again};
use mz_base::{Memory, Span, Stop};
use mz_builtin_values::{IndexShape, fits, shape};
use mz_core::TypeInst;
use mz_eval_cells::{Bound, Known, Origins, VarItems, copied_value};
use mz_eval_row_symbols::{shape_of_all, whole};
use mz_operations::{MadeRow, Row};
use mz_symbol::Run;
use mz_value::{Cases, Value};
use std::alloc::{AllocError, Global};
use std::rc::Rc;

const MOST: u64 = 1 << 60;

/// The same origin of an array's elements once more.
fn origins_again(o: &Origins) -> Result<Origins, AllocError>
    ensures { IfOk result (λ x. (l : ℕ → Option (List Content)) → origins_value l x ≡ origins_value l o.now) }
{
    match o {
        Origins::Nothing => Ok(Origins::Nothing),
        Origins::Values(items) => Ok(Origins::Values(items.clone()?)),
        Origins::Line(k) => Ok(Origins::Line(*k)),
    }
}

fn handed_by(
    alloc: Global,
    ix: Rc<Vec<(i64, i64)>>,
    all: Rc<Vec<Bound>>,
    xs: &VarItems,
) -> Result<Known, AllocError>
    ensures { IfOk result (λ k. (r : Reading) → Var (bounds.many ix.value.items (map known_bound all.value.items)) (held r.mode (row_content r.line ix.value.items xs.now)) ≡ seen r k) }
{
    let origins = origins_again(&xs.origins)?;
    let items = VarItems {
        bounds: all,
        origins,
        cast: xs.cast,
    };
    let held = Rc::new(alloc, items)?;
    Ok(Known::Row(ix, held))
}

/// The elements of a var array under other index ranges, with these bounds.
pub(crate) fn handed_as(
    alloc: Global,
    ix: &Rc<Vec<(i64, i64)>>,
    all: &Rc<Vec<Bound>>,
    xs: &Rc<VarItems>,
) -> Result<Known, AllocError>
    ensures { IfOk result (λ k. (r : Reading) → Var (bounds.many ix.now.value.items (map known_bound all.now.value.items))
        (held r.mode (row_content r.line ix.now.value.items xs.now.value)) ≡ seen r k) }
{
    let ranges = ix.clone()?;
    let bounds = all.clone()?;
    handed_by(alloc, ranges, bounds, xs)
}

/// The values of cells, `None` of an undefined or var one.
fn values_of(alloc: Global, cells: &[Known]) -> Result<Vec<Option<Value>>, AllocError>
    ensures { IfOk result (λ vs. arguments vs.items ≡ map value_of (cells_of cells.now)) }
{
    let mut all = Vec::new(alloc);
    for k in cells {
        let v = copied_value(alloc, k)?;
        all.push(v)?;
    }
    Ok(all)
}

pub(crate) fn nth(cells: &[Known], n: u64) -> Option<&Known>
    ensures { MatchOption result (slice_get cells.now n ≡ None) (λ k. slice_get cells.now n ≡ Some k.now) }
{
    cells.get(n as usize)
}

/// The index ranges and the elements of a var array.
fn array_of_cell(k: &Known) -> Result<(Rc<Vec<(i64, i64)>>, Rc<VarItems>), Memory>
    ensures { IfOk result (λ p. (r : Reading) → value_of (seen r k.now) ≡ held r.mode (row_content r.line p.0.value.items p.1.value)) }
{
    match k {
        Known::Row(jx, xs) => {
            let ranges = jx.clone()?;
            let items = xs.clone()?;
            Ok((ranges, items))
        }
        _ => Err(Memory),
    }
}

/// The var array at a place of a row's arguments.
fn array_at(cells: &[Known], d: u64) -> Result<(Rc<Vec<(i64, i64)>>, Rc<VarItems>), Memory>
    ensures { IfOk result (λ p. (r : Reading) → words.at (map value_of (all_seen r cells.now)) d ≡ held r.mode (row_content r.line p.0.value.items p.1.value)) }
{
    let Some(k) = nth(cells, d) else {
        return Err(Memory);
    };
    let p = array_of_cell(k)?;
    Ok(p)
}

/// The var array at a place of a row's arguments, and the values of all.
fn parts_of(
    alloc: Global,
    cells: &[Known],
    d: u64,
) -> Result<(Rc<Vec<(i64, i64)>>, Rc<VarItems>, Vec<Option<Value>>), Memory>
    ensures array { IfOk result (λ p. (r : Reading) → words.at (map value_of (all_seen r cells.now)) d ≡ held r.mode (row_content r.line p.0.value.items p.1.value)) }
    ensures values { IfOk result (λ p. arguments p.2.items ≡ map value_of (cells_of cells.now)) }
{
    let found = array_at(cells, d)?;
    let args = values_of(alloc, cells)?;
    Ok((found.0, found.1, args))
}

fn has_ranges(w: &IndexShape, ix: &Rc<Vec<(i64, i64)>>) -> bool
    ensures { result ≡ true → (shape_of w.now).ranges ≡ ix.now.value.items }
{
    same_ranges(&w.ranges, ix.as_slice())
}

fn count_of(xs: &Rc<VarItems>) -> u64
    ensures { result ≡ length xs.now.value.bounds.value.items }
{
    xs.bounds.len() as u64
}

/// The elements of a var array under the index ranges of the row's shape, where these are the index
/// sets among the row's arguments and have as many places.
fn reshaped_items(
    alloc: Global,
    run: &Run,
    d: u64,
    args: &[Option<Value>],
    ix: &Rc<Vec<(i64, i64)>>,
    all: &Rc<Vec<Bound>>,
    xs: &Rc<VarItems>,
) -> Result<Known, Memory>
    ensures { IfOk result (λ k. (r : Reading) → Reads r run.now → ReshapedAt r d (arguments args.now) ix.now.value.items (map known_bound all.now.value.items) xs.now.value k) }
{
    let found = shape(alloc, d, args)?;
    let Some(w) = found else {
        return Err(Memory);
    };
    if !has_ranges(&w, ix) {
        return Err(Memory);
    }
    if !is_whole(run, xs) {
        return Err(Memory);
    }
    let n = count_of(xs);
    if n >= MOST {
        return Err(Memory);
    }
    if !fits(&w, n) {
        return Err(Memory);
    }
    let k = handed_as(alloc, ix, all, xs)?;
    Ok(k)
}

/// The cell of the row, from its shape.
fn reshaped_cell(
    alloc: Global,
    run: &Run,
    d: u64,
    args: &[Option<Value>],
    shape: &Known,
    xs: &Rc<VarItems>,
) -> Result<Known, Memory>
    ensures { IfOk result (λ k. (r : Reading) → Reads r run.now → IsReshaped r d (arguments args.now) (cell_of shape.now) xs.now.value k) }
{
    match shape {
        Known::Row(ix, ys) => reshaped_items(alloc, run, d, args, ix, &ys.bounds, xs),
        _ => {
            let k = whole_again(shape)?;
            Ok(k)
        }
    }
}

/// A row whose cell has no var value. Out of memory too where it may have one.
pub(crate) fn row_of_whole(
    alloc: Global,
    cases: &Cases,
    row: Row,
    t: &TypeInst,
    at: Span,
    cells: Vec<Known>,
    run: &mut Run,
) -> Result<Known, Stop>
    ensures goes { GoesOn run.old run.new }
    ensures means { Means (stamped (plain_type t.now)) result run.old run.new
        (λ r. row_node r.mode (case_names cases.now) row (plain_type t.now) at (all_seen r cells.items)) }
{
    let shape = shape_of_all(alloc, cases, row, t, at, cells)?;
    let k = whole(shape)?;
    Ok(k)
}

/// `array1d` to `array6d` with this many index sets.
pub(crate) fn row_of_shaped(
    alloc: Global,
    cases: &Cases,
    d: u64,
    t: &TypeInst,
    at: Span,
    cells: Vec<Known>,
    run: &mut Run,
) -> Result<Known, Stop>
    ensures goes { GoesOn run.old run.new }
    ensures means { Means (stamped (plain_type t.now)) result run.old run.new
        (λ r. row_node r.mode (case_names cases.now) (Made (made.Shaped d)) (plain_type t.now) at (all_seen r cells.items)) }
{
    let Ok(parts) = parts_of(alloc, &cells, d) else {
        return row_of_whole(
            alloc,
            cases,
            Row::Made(MadeRow::Shaped(d)),
            t,
            at,
            cells,
            run,
        );
    };
    let shape = shape_of_all(alloc, cases, Row::Made(MadeRow::Shaped(d)), t, at, cells)?;
    let k = reshaped_cell(alloc, run, d, &parts.2, &shape, &parts.1)?;
    Ok(k)
}
