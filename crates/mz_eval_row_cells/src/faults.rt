// The faults of rows with a var argument, which go by par values and shapes alone.

ghost use Rattle.std.specs.Prelude.{◌≡◌, ◌&&◌, ◌<◌, ◌^◌, IfOk, IfSome, MatchOption, None, Some, int_lt, length, map, not, pos, slice_get, unwrap_or, false, true};
ghost use Rattle.std.specs.Option.{option_and_then, option_map};
ghost use Rattle.mz_value.specs.Contents.{absent, content, contents};
ghost use Rattle.mz_operations.specs.Views as views;
ghost use Rattle.mz_operations.specs.Views.{items_in};
ghost use Rattle.mz_operations.specs.Arguments as words;
ghost use Rattle.mz_operations.specs.Answers as answers;
ghost use Rattle.mz_operations.specs.Arrays as arrays;
ghost use Rattle.mz_builtin_values.specs.Shapes.{shape_of};
ghost use Rattle.mz_meaning.specs.Operations as operations;
ghost use Rattle.mz_meaning.specs.Operations.{known};
ghost use Rattle.mz_eval_cells.specs.Views.{cell_of, item_content, known_bound};
ghost use Rattle.mz_eval_cells.specs.Meets.{Tells};
ghost use Rattle.mz_eval_row_cells.specs.Steps.{all_known, asserted};

use mz_base::{Fault, Kind, Span, Stop};
use mz_builtin_arguments::end_of;
use mz_builtin_values::{IndexShape, fits};
use mz_eval_cells::{Bound, Item, Known, set_in};
use mz_operations::{MadeRow, Row, ScalarRow, Side};
use mz_value::{RangeSet, Value};
use std::alloc::{AllocError, Global};

#[tactic(auto, unfolding(mz_operations::specs::Views::as_int))]
fn int_of_item(i: &Item) -> Option<i64>
    ensures { result ≡ views.as_int (item_content i.now) }
{
    match i {
        Item::Int(n) => Some(*n),
        _ => None,
    }
}

#[tactic(auto, unfolding(mz_operations::specs::Views::as_int))]
fn int_of(k: &Known) -> Option<i64>
    ensures { result ≡ option_and_then views.as_int (known (cell_of k.now)) }
{
    match k {
        Known::One(i) => int_of_item(i),
        _ => None,
    }
}

#[tactic(auto, unfolding(mz_operations::specs::Views::as_bool))]
fn bool_of_item(i: &Item) -> Option<bool>
    ensures { result ≡ views.as_bool (item_content i.now) }
{
    match i {
        Item::Bool(b) => Some(*b),
        _ => None,
    }
}

#[tactic(auto, unfolding(mz_operations::specs::Views::as_bool))]
fn bool_of(k: &Known) -> Option<bool>
    ensures { result ≡ option_and_then views.as_bool (known (cell_of k.now)) }
{
    match k {
        Known::One(i) => bool_of_item(i),
        _ => None,
    }
}

#[tactic(auto, using(mz_eval_cells::proofs::Items::items_length))]
fn item_count(items: &[Value]) -> u64
    ensures count { result ≡ length (items_in (contents (map content items.now))) }
    ensures bound { result < 2 ^ 63 }
{
    items.len() as u64
}

#[tactic(auto, using(crate::proofs::Knowing::absent_count))]
fn bound_count(all: &[Bound]) -> u64
    ensures count { result ≡ length (items_in (contents (map (λ _. absent) (map known_bound all.now)))) }
    ensures bound { result < 2 ^ 63 }
{
    all.len() as u64
}

/// How many elements an array has.
#[tactic(auto, unfolding(mz_operations::specs::Views::as_items))]
fn count_of(k: &Known) -> Option<u64>
    ensures count { result ≡ option_map (λ xs. length xs) (option_and_then views.as_items (known (cell_of k.now))) }
    ensures bound { IfSome result (λ n. n < 2 ^ 63) }
{
    match k {
        Known::Array(_, items) => Some(item_count(items.as_slice())),
        Known::Row(_, xs) => Some(bound_count(xs.bounds.as_slice())),
        _ => None,
    }
}

/// The argument at this place.
pub(crate) fn nth(cells: &[Known], k: usize) -> Option<&Known>
    ensures { MatchOption result (slice_get cells.now k ≡ None) (λ c. slice_get cells.now k ≡ Some c.now) }
{
    cells.get(k)
}

/// The integer at this place, where it is par.
#[tactic(auto, unfolding(mz_operations::specs::Arguments::int_at), using(crate::proofs::Knowing::known_there, crate::proofs::Knowing::known_missing))]
fn int_at(cells: &[Known], k: usize) -> Option<i64>
    ensures { result ≡ words.int_at (all_known cells.now) k }
{
    match nth(cells, k) {
        None => None,
        Some(cell) => int_of(cell),
    }
}

/// The truth value at this place, where it is par.
#[tactic(auto, unfolding(mz_operations::specs::Arguments::bool_at), using(crate::proofs::Knowing::known_there, crate::proofs::Knowing::known_missing))]
fn bool_at(cells: &[Known], k: usize) -> Option<bool>
    ensures { result ≡ words.bool_at (all_known cells.now) k }
{
    match nth(cells, k) {
        None => None,
        Some(cell) => bool_of(cell),
    }
}

/// The set at this place, where it is par.
#[tactic(auto, unfolding(mz_operations::specs::Arguments::set_at), using(crate::proofs::Knowing::known_there, crate::proofs::Knowing::known_missing, crate::proofs::Knowing::set_known))]
fn set_at(cells: &[Known], k: usize) -> Option<&RangeSet>
    ensures { option_map (λ s. s.now) result ≡ words.set_at (all_known cells.now) k }
{
    match nth(cells, k) {
        None => None,
        Some(cell) => set_in(cell),
    }
}

/// How many elements the array at this place has.
#[tactic(auto, unfolding(mz_operations::specs::Arguments::items_at), using(crate::proofs::Knowing::known_there, crate::proofs::Knowing::known_missing))]
fn count_at(cells: &[Known], k: usize) -> Option<u64>
    ensures count { result ≡ option_map (λ xs. length xs) (words.items_at (all_known cells.now) k) }
    ensures bound { IfSome result (λ n. n < 2 ^ 63) }
{
    match nth(cells, k) {
        None => None,
        Some(cell) => count_of(cell),
    }
}

/// A set as an index range, 1..0 where it is empty.
fn index_range(s: &RangeSet) -> (i64, i64)
    ensures { result ≡ arrays.index_range s.now }
{
    let lo = end_of(Side::Least, s);
    let hi = end_of(Side::Greatest, s);
    (lo.unwrap_or(1), hi.unwrap_or(0))
}

fn is_contiguous(s: &RangeSet) -> bool
    ensures { result ≡ arrays.is_contiguous s.now }
{
    s.ranges().len() <= 1
}

fn both(a: bool, b: bool) -> bool
    ensures { result ≡ (a && b) }
{
    a && b
}

/// Index ranges with one more.
#[tactic(auto, unfolding(mz_operations::specs::Arrays::with_index))]
fn with_index(mut w: IndexShape, s: &RangeSet) -> Result<IndexShape, AllocError>
    ensures { IfOk result (λ t. shape_of t ≡ arrays.with_index (shape_of w) s.now) }
{
    let contiguous = both(w.contiguous, is_contiguous(s));
    w.ranges.push(index_range(s))?;
    Ok(IndexShape {
        contiguous,
        ranges: w.ranges,
    })
}

/// The first `d` arguments as index sets; `None` where one is none.
fn shape(alloc: Global, d: u64, cells: &[Known]) -> Result<Option<IndexShape>, AllocError>
    ensures { IfOk result (λ w. option_map shape_of w ≡ arrays.shape d (all_known cells.now)) }
{
    let mut w = IndexShape {
        contiguous: true,
        ranges: Vec::new(alloc),
    };
    let mut k = 0;
    while k < d {
        let Some(s) = set_at(cells, k as usize) else {
            return Ok(None);
        };
        w = with_index(w, s)?;
        k += 1;
    }
    Ok(Some(w))
}

/// Whether the index sets and the array are defined and don't fit.
#[tactic(auto, using(crate::proofs::Knowing::misfit_none, crate::proofs::Knowing::misfit_some))]
fn is_misfit(alloc: Global, d: u64, cells: &[Known]) -> Result<bool, AllocError>
    ensures { IfOk result (λ b. b ≡ unwrap_or (answers.misfit d (all_known cells.now)) false) }
{
    let Some(w) = shape(alloc, d, cells)? else {
        return Ok(false);
    };
    let Some(n) = count_at(cells, d as usize) else {
        return Ok(false);
    };
    Ok(!fits(&w, n))
}

#[tactic(auto, unfolding(mz_operations::specs::Answers::is_mismatched, mz_operations::specs::Answers::negative, mz_operations::specs::Answers::is_failed))]
fn fitting(alloc: Global, d: u64, at: Span, cells: &[Known]) -> Result<(), Stop>
    ensures { Tells (λ _. tt) result (operations.tested (Row.Made (MadeRow.Shaped d)) at (all_known cells.now)) }
{
    if is_misfit(alloc, d, cells)? {
        Err(Stop::Refused(Fault::at(Kind::IndexMismatch, at)))
    } else {
        Ok(())
    }
}

fn is_negative(k: i64) -> bool
    ensures { result ≡ int_lt k (pos 0) }
{
    k < 0
}

/// A negative exponent.
#[tactic(auto, unfolding(mz_operations::specs::Answers::negative))]
fn negative_exponent(cells: &[Known]) -> Option<i64>
    ensures { result ≡ answers.negative (Row.Scalar ScalarRow.Power) (all_known cells.now) }
{
    let k = int_at(cells, 1)?;
    if is_negative(k) { Some(k) } else { None }
}

#[tactic(auto, unfolding(mz_operations::specs::Answers::is_mismatched, mz_operations::specs::Answers::is_failed))]
fn power_tested(at: Span, cells: &[Known]) -> Result<(), Stop>
    ensures { Tells (λ _. tt) result (operations.tested (Row.Scalar ScalarRow.Power) at (all_known cells.now)) }
{
    match negative_exponent(cells) {
        None => Ok(()),
        Some(k) => Err(Stop::Refused(Fault {
            kind: Kind::NegativeArgument,
            span: at,
            number: k as i128,
        })),
    }
}

fn is_unmet(cells: &[Known]) -> bool
    ensures { result ≡ not (unwrap_or (words.bool_at (all_known cells.now) 0) true) }
{
    match bool_at(cells, 0) {
        Some(holds) => !holds,
        None => false,
    }
}

fn asserted(at: Span, cells: &[Known]) -> Result<(), Stop>
    ensures { Tells (λ _. tt) result (asserted at (all_known cells.now)) }
{
    if is_unmet(cells) {
        Err(Stop::Refused(Fault::at(Kind::AssertFailed, at)))
    } else {
        Ok(())
    }
}

/// The faults of a row. Refused IndexMismatch where index sets that are given to an array are
/// defined and don't fit it; NegativeArgument where an exponent is negative, with the exponent;
/// AssertFailed where the condition of an `assert` is false.
#[tactic(auto, unfolding(mz_operations::specs::Answers::is_mismatched, mz_operations::specs::Answers::negative, mz_operations::specs::Answers::is_failed))]
pub(crate) fn tested(alloc: Global, row: Row, at: Span, cells: &[Known]) -> Result<(), Stop>
    ensures { Tells (λ _. tt) result (operations.tested row at (all_known cells.now)) }
{
    match row {
        Row::Made(MadeRow::Shaped(d)) => fitting(alloc, d, at, cells),
        Row::Scalar(ScalarRow::Power) => power_tested(at, cells),
        Row::Scalar(ScalarRow::Assert) => asserted(at, cells),
        Row::Made(MadeRow::AssertValue) => asserted(at, cells),
        Row::Made(MadeRow::AssertArray) => asserted(at, cells),
        _ => Ok(()),
    }
}
