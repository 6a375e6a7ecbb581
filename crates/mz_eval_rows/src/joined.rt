// `++` of two arrays of which one is a run's: the elements of both as a new array of the run.

ghost use Rattle.std.specs.Prelude.{◌≡◌, ◌+◌, ◌*◌, ◌^◌, ◌<◌, ◌&&◌, ◌∷◌, [], pos, false, true, IfOk, None, Option, length, map, slice_get};
ghost use Rattle.mz_base.specs.declared.fault.Span.{Span as PlainSpan};
ghost use Rattle.mz_value.specs.Contents.{Content, case_names};
ghost use Rattle.mz_value.specs.Shown.{Names};
ghost use Rattle.mz_core.specs.Types.{PlainType, plain_type};
ghost use Rattle.mz_operations.specs.Bounds as bounds;
ghost use Rattle.mz_operations.specs.declared.row.MadeRow.TheVariants as made;
ghost use Rattle.mz_operations.specs.declared.row.Row.TheVariants.{Made};
ghost use Rattle.mz_meaning.specs.Cells.{Var, typed};
ghost use Rattle.mz_meaning.specs.Operations.{row_cost};
ghost use Rattle.mz_meaning.specs.Runs.{give};
ghost use Rattle.mz_symbol.specs.Readings.{Reading, Reads};
ghost use Rattle.mz_symbol.specs.Makes.{GoesOnBy, Means};
ghost use Rattle.mz_symbol_arrays.specs.LineValues.{array_argument, count_of};
ghost use Rattle.mz_eval_symbols.specs.Taken.{count_in, ranges_in};
ghost use Rattle.mz_eval_cells.specs.Views.{cell_of, known_bound, seen};
ghost use Rattle.mz_eval_arrays.specs.Told.{is_told};
ghost use Rattle.mz_eval_row_symbols.specs.NodeRows.{row_node, shape_stamped, stamped, var_value, with_value};
ghost use Rattle.mz_eval_rows.specs.StepsJoined.{line_as, line_cell};

use crate::rows;
use mz_base::{Memory, Span, Stop};
use mz_core::TypeInst;
use mz_eval_arrays::is_told;
use mz_eval_cells::{Bound, Known, Origins, VarItems, length_of, row_of, share};
use mz_eval_row_symbols::{Argument, shape_of_two, whole};
use mz_eval_symbols::{cell_of_line, line_in};
use mz_operations::{MadeRow, Row};
use mz_symbol::Run;
use mz_symbol_access::join;
use mz_symbol_arrays::lines::defined;
use mz_value::Cases;
use std::alloc::{AllocError, Global};
use std::rc::Rc;

const MOST: u64 = 1 << 60;

// ---- the elements of both

/// How many elements an array has.
fn count_in(k: &Known) -> u64
    ensures { result ≡ count_in k.now }
{
    match length_of(k) {
        None => 0,
        Some(n) => n,
    }
}

fn is_few(n: u64) -> bool
    ensures { result ≡ true → n < 2 ^ 60 }
{
    n < MOST
}

fn dimensions(ix: &Rc<Vec<(i64, i64)>>) -> u64
    ensures { result ≡ length ix.now.value.items }
{
    ix.len() as u64
}

fn is_one(ix: &Rc<Vec<(i64, i64)>>) -> bool
    ensures { result ≡ true → length ix.now.value.items ≡ 1 }
{
    dimensions(ix) == 1
}

/// Whether a cell is an array of one dimension.
fn is_list(k: &Known) -> bool
    ensures { result ≡ true → length (ranges_in k.now) ≡ 1 }
{
    match k {
        Known::Array(ix, _) => is_one(ix),
        Known::Row(ix, _) => is_one(ix),
        _ => false,
    }
}

/// Out of memory where the run's array with this number hasn't as many elements as a cell says.
fn sized(run: &Run, line: u64, k: &Known) -> Result<(), Memory>
    ensures { IfOk result (λ _. count_of (slice_get run.now.lines line) ≡ count_in k.now) }
{
    let found = defined(run, line)?;
    if found.1 != count_in(k) {
        return Err(Memory);
    }
    Ok(())
}

/// The elements of both as an array of the run.
fn joined_line(alloc: Global, a: &Argument, b: &Argument, run: &mut Run) -> Result<u64, Stop>
    requires first { length (ranges_in a.now.cell) ≡ 1 }
    requires second { length (ranges_in b.now.cell) ≡ 1 }
    ensures goes { GoesOnBy (40 * count_in a.now.cell + 40 * count_in b.now.cell + 6) run.old run.new }
    ensures means { (names : Names) (t : PlainType) → Means (line_as t) result run.old run.new
        (λ r. give (var_value r.mode names (Made made.Concat) t (seen r a.now.cell ∷ seen r b.now.cell ∷ []))) }
{
    let x = line_in(alloc, run, a.base, &a.cell)?;
    let Ok(y) = line_in(alloc, run, b.base, &b.cell) else {
        return Err(Stop::Memory);
    };
    sized(run, x, &a.cell)?;
    sized(run, y, &b.cell)?;
    let line = join(alloc, run, x, y)?;
    Ok(line)
}

// ---- the cell

/// The index range from 1 on of so many elements.
fn one_range(alloc: Global, n: u64) -> Result<Vec<(i64, i64)>, Memory>
    ensures { IfOk result (λ v. v.items ≡ (pos 1, pos n) ∷ []) }
{
    if n >= MOST {
        return Err(Memory);
    }
    let mut ranges = Vec::new(alloc);
    ranges.push((1, n as i64))?;
    Ok(ranges)
}

fn same_ranges(a: &[(i64, i64)], b: &[(i64, i64)]) -> bool
    ensures { result ≡ true → a.now ≡ b.now }
{
    a == b
}

fn has_ranges(ix: &Rc<Vec<(i64, i64)>>, ranges: &[(i64, i64)]) -> bool
    ensures { result ≡ true → ix.now.value.items ≡ ranges.now }
{
    same_ranges(ix.as_slice(), ranges)
}

/// Whether index ranges are one alone, from 1 on, of so many elements.
fn is_from_one(alloc: Global, ix: &Rc<Vec<(i64, i64)>>, n: u64) -> Result<bool, Memory>
    ensures { IfOk result (λ b. b ≡ true → ix.now.value.items ≡ (pos 1, pos n) ∷ []) }
{
    let ranges = one_range(alloc, n)?;
    Ok(has_ranges(ix, &ranges))
}

/// The cell of a run's array, with index ranges and bounds that others hold.
fn cell_of_shared(
    alloc: Global,
    ix: &Rc<Vec<(i64, i64)>>,
    all: &Rc<Vec<Bound>>,
    line: u64,
) -> Result<Known, AllocError>
    ensures { IfOk result (λ k. (r : Reading) → seen r k
        ≡ Var (bounds.many ix.now.value.items (map known_bound all.now.value.items)) (array_argument r ix.now.value.items line)) }
{
    let ranges = ix.clone()?;
    let bounds = all.clone()?;
    let k = cell_of_line(alloc, ranges, bounds, line)?;
    Ok(k)
}

/// The cell of a run's array under index ranges that fit it, with these bounds.
fn cell_on(
    alloc: Global,
    run: &Run,
    ix: &Rc<Vec<(i64, i64)>>,
    all: &Rc<Vec<Bound>>,
    line: u64,
) -> Result<Known, Memory>
    ensures { IfOk result (λ k. (r : Reading) (t : PlainType) → Reads r run.now
        → line_cell ix.now.value.items (map known_bound all.now.value.items) t r line ≡ seen r k) }
{
    let found = defined(run, line)?;
    let fits = is_from_one(alloc, ix, found.1)?;
    if !fits {
        return Err(Memory);
    }
    let k = cell_of_shared(alloc, ix, all, line)?;
    Ok(k)
}

/// The cell of both under these index ranges, with these bounds.
fn joined_items(
    alloc: Global,
    ix: &Rc<Vec<(i64, i64)>>,
    all: &Rc<Vec<Bound>>,
    a: &Argument,
    b: &Argument,
    run: &mut Run,
) -> Result<Known, Stop>
    requires first { length (ranges_in a.now.cell) ≡ 1 }
    requires second { length (ranges_in b.now.cell) ≡ 1 }
    ensures goes { GoesOnBy (40 * count_in a.now.cell + 40 * count_in b.now.cell + 6) run.old run.new }
    ensures means { (names : Names) (t : PlainType) → Means (stamped t) result run.old run.new
        (λ r. give (typed r.mode false t (Var (bounds.many ix.now.value.items (map known_bound all.now.value.items))
        (var_value r.mode names (Made made.Concat) t (seen r a.now.cell ∷ seen r b.now.cell ∷ []))))) }
{
    let Ok(line) = joined_line(alloc, a, b, run) else {
        return Err(Stop::Memory);
    };
    let k = cell_on(alloc, run, ix, all, line)?;
    Ok(k)
}

fn bounds_of(ys: &Rc<VarItems>) -> Result<Rc<Vec<Bound>>, AllocError>
    ensures { IfOk result (λ all. all.value.items ≡ ys.now.value.bounds.value.items) }
{
    let all = ys.bounds.clone()?;
    Ok(all)
}

/// The same with the bounds of the row's shape, which the row's node pays for.
fn joined_row(
    alloc: Global,
    ix: &Rc<Vec<(i64, i64)>>,
    ys: &Rc<VarItems>,
    a: &Argument,
    b: &Argument,
    run: &mut Run,
) -> Result<Known, Stop>
    ensures goes { GoesOnBy (64 * (1 + row_cost (Made made.Concat) (cell_of a.now.cell ∷ cell_of b.now.cell ∷ []))) run.old run.new }
    ensures means { (names : Names) (t : PlainType) → Means (stamped t) result run.old run.new
        (λ r. give (typed r.mode false t (Var (bounds.many ix.now.value.items (map known_bound ys.now.value.bounds.value.items))
        (var_value r.mode names (Made made.Concat) t (seen r a.now.cell ∷ seen r b.now.cell ∷ []))))) }
{
    if !is_list(&a.cell) {
        return Err(Stop::Memory);
    }
    if !is_list(&b.cell) {
        return Err(Stop::Memory);
    }
    if !is_few(count_in(&a.cell)) {
        return Err(Stop::Memory);
    }
    if !is_few(count_in(&b.cell)) {
        return Err(Stop::Memory);
    }
    let all = bounds_of(ys)?;
    joined_items(alloc, ix, &all, a, b, run)
}

/// A shape that has no var value.
fn whole_shape(k: &Known) -> Result<Known, Memory>
    ensures { IfOk result (λ x. (r : Reading) (v : Option Content) → with_value v (cell_of k.now) ≡ seen r x) }
{
    let same = share(k)?;
    whole(same)
}

/// The cell of both, from the row's shape.
fn joined_cell(
    alloc: Global,
    shape: &Known,
    a: &Argument,
    b: &Argument,
    run: &mut Run,
) -> Result<Known, Stop>
    ensures goes { GoesOnBy (64 * (1 + row_cost (Made made.Concat) (cell_of a.now.cell ∷ cell_of b.now.cell ∷ []))) run.old run.new }
    ensures means { (names : Names) (t : PlainType) → Means (stamped t) result run.old run.new
        (λ r. give (shape_stamped r names (Made made.Concat) t (seen r a.now.cell ∷ seen r b.now.cell ∷ []) shape.now)) }
{
    match shape {
        Known::Row(ix, ys) => joined_row(alloc, ix, ys, a, b, run),
        _ => {
            let k = whole_shape(shape)?;
            Ok(k)
        }
    }
}

/// An array without a value, with these index ranges and its elements' bounds.
fn untold_row(
    alloc: Global,
    index: Rc<Vec<(i64, i64)>>,
    all: Rc<Vec<Bound>>,
) -> Result<Known, AllocError>
    ensures { IfOk result (λ x. (r : Reading) → seen r x ≡ Var (bounds.many index.value.items (map known_bound all.value.items)) None) }
{
    let k = row_of(alloc, index, all, Origins::Nothing)?;
    Ok(k)
}

/// The row's shape as an array without a value.
fn blank_row(
    alloc: Global,
    ix: &Rc<Vec<(i64, i64)>>,
    ys: &Rc<VarItems>,
) -> Result<Known, AllocError>
    ensures { IfOk result (λ x. (r : Reading) → seen r x
        ≡ Var (bounds.many ix.now.value.items (map known_bound ys.now.value.bounds.value.items)) None) }
{
    let ranges = ix.clone()?;
    let all = ys.bounds.clone()?;
    let k = untold_row(alloc, ranges, all)?;
    Ok(k)
}

/// The row's shape as a cell without a value.
fn blank_cell(alloc: Global, shape: &Known) -> Result<Known, Memory>
    ensures { IfOk result (λ x. (r : Reading) → with_value None (cell_of shape.now) ≡ seen r x) }
{
    match shape {
        Known::Row(ix, ys) => {
            let k = blank_row(alloc, ix, ys)?;
            Ok(k)
        }
        _ => {
            let k = whole_shape(shape)?;
            Ok(k)
        }
    }
}

/// Whether something tells the values of both.
fn are_told(a: &Argument, b: &Argument) -> bool
    ensures { result ≡ (is_told a.now.cell && is_told b.now.cell) }
{
    is_told(&a.cell) && is_told(&b.cell)
}

/// The cell of both where nothing tells one of them: it has no value.
fn untold_cell(alloc: Global, shape: &Known, a: &Argument, b: &Argument) -> Result<Known, Memory>
    requires { (is_told a.now.cell && is_told b.now.cell) ≡ false }
    ensures { (names : Names) (t : PlainType) → IfOk result (λ x. (r : Reading)
        → shape_stamped r names (Made made.Concat) t (seen r a.now.cell ∷ seen r b.now.cell ∷ []) shape.now ≡ stamped t r x) }
{
    let _first = a.base;
    let _second = b.base;
    let k = blank_cell(alloc, shape)?;
    Ok(k)
}

/// The cell of both, which may be undefined wherever it is read.
fn both_cell(
    alloc: Global,
    shape: &Known,
    a: &Argument,
    b: &Argument,
    run: &mut Run,
) -> Result<Known, Stop>
    ensures goes { GoesOnBy (64 * (1 + row_cost (Made made.Concat) (cell_of a.now.cell ∷ cell_of b.now.cell ∷ []))) run.old run.new }
    ensures means { (names : Names) (t : PlainType) → Means (stamped t) result run.old run.new
        (λ r. give (shape_stamped r names (Made made.Concat) t (seen r a.now.cell ∷ seen r b.now.cell ∷ []) shape.now)) }
{
    if are_told(a, b) {
        return joined_cell(alloc, shape, a, b, run);
    }
    let k = untold_cell(alloc, shape, a, b)?;
    Ok(k)
}

/// `++` of two arrays. Out of memory too where one has 2^60 elements or more, or hasn't as many as
/// its cell says.
fn row_of_joined(
    alloc: Global,
    cases: &Cases,
    t: &TypeInst,
    at: Span,
    a: &Argument,
    b: &Argument,
    run: &mut Run,
) -> Result<Known, Stop>
    ensures goes { GoesOnBy (64 * (1 + row_cost (Made made.Concat) (cell_of a.now.cell ∷ cell_of b.now.cell ∷ []))) run.old run.new }
    ensures means { Means (stamped (plain_type t.now)) result run.old run.new
        (λ r. row_node r.mode (case_names cases.now) (Made made.Concat) (plain_type t.now) at (seen r a.now.cell ∷ seen r b.now.cell ∷ [])) }
{
    let x = share(&a.cell)?;
    let y = share(&b.cell)?;
    let shape = shape_of_two(alloc, cases, Row::Made(MadeRow::Concat), t, at, x, y)?;
    both_cell(alloc, &shape, a, b, run)
}

// ---- rows of two arguments

/// Whether a cell's elements are an array of the run.
fn is_line(k: &Known) -> bool {
    match k {
        Known::Row(_, xs) => match &xs.origins {
            Origins::Line(_) => true,
            _ => false,
        },
        _ => false,
    }
}

/// Whether a row is `++`, and one of its arguments an array of the run.
fn is_joined(row: Row, a: &Known, b: &Known) -> bool
    ensures { result ≡ true → row ≡ Made made.Concat }
{
    match row {
        Row::Made(MadeRow::Concat) => is_line(a) || is_line(b),
        _ => false,
    }
}

/// What a row gives of these two arguments in a run, at a node of this type, before its type is
/// stamped on it. What its nodes may cost, the work of the row's node pays for.
///
/// The refusals are those of `row_of_all`. Out of memory too where an argument
/// isn't of its type, or the row's term isn't made yet.
pub fn row_of_two(
    alloc: Global,
    cases: &Cases,
    row: Row,
    t: &TypeInst,
    at: Span,
    a: Argument,
    b: Argument,
    run: &mut Run,
) -> Result<Known, Stop>
    ensures goes { GoesOnBy (64 * (1 + row_cost row (cell_of a.cell ∷ cell_of b.cell ∷ []))) run.old run.new }
    ensures means { Means (stamped (plain_type t.now)) result run.old run.new
        (λ r. row_node r.mode (case_names cases.now) row (plain_type t.now) at (seen r a.cell ∷ seen r b.cell ∷ [])) }
{
    if is_joined(row, &a.cell, &b.cell) {
        return row_of_joined(alloc, cases, t, at, &a, &b, run);
    }
    rows::row_of_two(alloc, cases, row, t, at, a, b, run)
}
