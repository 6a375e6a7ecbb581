// Values that take their declared index sets.

ghost use Rattle.std.specs.Prelude.{◌≡◌, ◌<◌, ◌^◌, ◌&&◌, ◌||◌, IfOk, IfSome, None, Some, [], if◌then◌else◌, length, map, nat_eq, not};
ghost use Rattle.std.specs.List.{list_all};
ghost use Rattle.mz_value.specs.Contents as values;
ghost use Rattle.mz_value.specs.Contents.{content, contents};
ghost use Rattle.mz_operations.specs.Arrays as operations;
ghost use Rattle.mz_operations.specs.Bounds as bounds;
ghost use Rattle.mz_operations.specs.Views.{items_in};
ghost use Rattle.mz_meaning.specs.Arrays as arrays;
ghost use Rattle.mz_meaning.specs.Cells as cells;
ghost use Rattle.mz_meaning.specs.Lets as lets;
ghost use Rattle.mz_meaning.specs.Runs.{give};
ghost use Rattle.mz_symbol.specs.Readings.{Reading};
ghost use Rattle.mz_eval_cells.specs.Views.{cell_of, known_bound, row_content, seen};
ghost use Rattle.mz_eval_cells.specs.Meets.{Tells};
ghost use Rattle.mz_eval_declared.specs.Wants.{local_of, wanted, wants_of};
ghost use Rattle.mz_eval_declared.specs.Steps.{fitted_whole};

use crate::ranges::{declared_ranges, own_ranges, place_count};
use crate::suiting::suits;
use crate::want::{Want, all_have_sets};
use mz_base::{Fault, Kind, Span, Stop};
use mz_eval_cells::{Bound, Known, Sure, VarItems, both_sure, share};
use mz_value::Value;
use std::alloc::{AllocError, Global};
use std::rc::Rc;

fn is_missing(w: &Want) -> bool
    ensures { result ≡ arrays.is_missing (wanted w.now) }
{
    match w {
        Want::Anything => false,
        Want::Missing => true,
        Want::Within(_) => false,
    }
}

/// Whether all declared index sets are defined.
fn no_missing(ws: &[Want]) -> bool
    ensures { result ≡ arrays.no_missing (wants_of ws.now) }
{
    for w in ws {
        if is_missing(w) {
            return false;
        }
    }
    true
}

fn is_own(w: &Want) -> bool
    ensures { result ≡ arrays.is_own (wanted w.now) }
{
    match w {
        Want::Anything => true,
        Want::Missing => false,
        Want::Within(_) => false,
    }
}

/// Whether no index is `int`.
fn no_own(ws: &[Want]) -> bool
    ensures { result ≡ list_all (λ x. not (arrays.is_own x)) (wants_of ws.now) }
{
    for w in ws {
        if is_own(w) {
            return false;
        }
    }
    true
}

/// Whether index ranges have this many places.
#[tactic(auto, using(mz_builtin_values::proofs::Places::same_test))]
fn has_places(ranges: &[(i64, i64)], n: u64) -> bool
    requires { n < 2 ^ 63 }
    ensures { result ≡ nat_eq (operations.place_count ranges.now) n }
{
    place_count(ranges) == n
}

#[tactic(auto, using(crate::proofs::Ranging::as_many))]
fn same_dimensions(ws: &[Want], own: &[(i64, i64)]) -> bool
    ensures { result ≡ (list_all (λ x. not (arrays.is_own x)) (wants_of ws.now) || nat_eq (length (wants_of ws.now)) (length own.now)) }
{
    no_own(ws) || ws.len() == own.len()
}

fn both(a: bool, b: bool) -> bool
    ensures { result ≡ (a && b) }
{
    a && b
}

#[tactic(auto, using(mz_eval_cells::proofs::Items::items_length))]
fn item_count(items: &[Value]) -> u64
    ensures count { result ≡ length (items_in (contents (map content items.now))) }
    ensures bound { result < 2 ^ 63 }
{
    items.len() as u64
}

#[tactic(auto, using(crate::proofs::Ranging::as_many))]
fn bound_count(all: &[Bound]) -> u64
    ensures count { result ≡ length (map known_bound all.now) }
    ensures bound { result < 2 ^ 63 }
{
    all.len() as u64
}

/// How many elements an array has.
#[tactic(auto, unfolding(mz_operations::specs::Views::as_items))]
fn length_of(k: &Known) -> Option<u64>
    ensures count { result ≡ cells.length_of (cell_of k.now) }
    ensures seen { (r : Reading) → result ≡ cells.length_of (seen r k.now) }
    ensures bound { IfSome result (λ n. n < 2 ^ 63) }
{
    match k {
        Known::Array(_, items) => Some(item_count(items.as_slice())),
        Known::Row(_, xs) => Some(bound_count(xs.bounds.as_slice())),
        _ => None,
    }
}

/// The cell with other index ranges, which leave its elements alone. Out of memory too of a var cell
/// that is no array.
#[tactic(auto, using(crate::proofs::Ranging::item_moved, crate::proofs::Seeing::row_moved))]
fn moved(alloc: Global, ranges: Vec<(i64, i64)>, k: &Known) -> Result<Known, AllocError>
    ensures of { IfOk result (λ x. cell_of x ≡ arrays.moved ranges.items (cell_of k.now)) }
    ensures seen { IfOk result (λ x. (r : Reading) → seen r x ≡ arrays.moved ranges.items (seen r k.now)) }
{
    match k {
        Known::Undefined => Ok(Known::Undefined),
        Known::One(_) => share(k),
        Known::Array(_, items) => array_moved(alloc, ranges, items),
        Known::Var(_) => Err(AllocError),
        Known::Row(_, xs) => row_moved(alloc, ranges, xs),
        Known::Unshaped(d) => Ok(Known::Unshaped(*d)),
    }
}

fn array_moved(
    alloc: Global,
    ranges: Vec<(i64, i64)>,
    items: &Rc<Vec<Value>>,
) -> Result<Known, AllocError>
    ensures of { IfOk result (λ x. cell_of x ≡ cells.par_value (values.array ranges.items (contents (map content items.now.value.items)))) }
    ensures seen { IfOk result (λ x. (r : Reading) → seen r x ≡ cells.par_value (values.array ranges.items (contents (map content items.now.value.items)))) }
{
    let index = Rc::new(alloc, ranges)?;
    Ok(Known::Array(index, items.clone()?))
}

fn row_moved(
    alloc: Global,
    ranges: Vec<(i64, i64)>,
    all: &Rc<VarItems>,
) -> Result<Known, AllocError>
    ensures of { IfOk result (λ x. cell_of x ≡ cells.Var (bounds.many ranges.items (map known_bound all.now.value.bounds.value.items)) None) }
    ensures seen { IfOk result (λ x. (r : Reading) → seen r x
        ≡ cells.Var (bounds.many ranges.items (map known_bound all.now.value.bounds.value.items)) (cells.held r.mode (row_content r.line ranges.items all.now.value))) }
{
    let index = Rc::new(alloc, ranges)?;
    Ok(Known::Row(index, all.clone()?))
}

fn fits_shape(ws: &[Want], own: &[(i64, i64)], ranges: &[(i64, i64)], n: u64) -> bool
    requires declared { ranges.now ≡ arrays.declared_ranges (wants_of ws.now) own.now }
    requires bound { n < 2 ^ 63 }
    ensures { result ≡ arrays.fits_shape (wants_of ws.now) own.now n }
{
    both(has_places(ranges, n), same_dimensions(ws, own))
}

fn told_moved(alloc: Global, ranges: Vec<(i64, i64)>, k: &Known) -> Result<Known, Stop>
    ensures of { Tells cell_of result (give (arrays.moved ranges.items (cell_of k.now))) }
    ensures seen { (r : Reading) → Tells (seen r) result (give (arrays.moved ranges.items (seen r k.now))) }
{
    let x = moved(alloc, ranges, k)?;
    Ok(x)
}

fn array_fitted(alloc: Global, at: Span, ws: &[Want], n: u64, k: &Known) -> Result<Known, Stop>
    requires { n < 2 ^ 63 }
    ensures of { Tells cell_of result (arrays.fitted_to at (wants_of ws.now) (arrays.own_ranges (cell_of k.now)) (Some n) (cell_of k.now)) }
    ensures seen { (r : Reading) → Tells (seen r) result (arrays.fitted_to at (wants_of ws.now) (arrays.own_ranges (seen r k.now)) (Some n) (seen r k.now)) }
{
    let own = own_ranges(k);
    let ranges = declared_ranges(alloc, ws, own)?;
    if fits_shape(ws, own, ranges.as_slice(), n) {
        told_moved(alloc, ranges, k)
    } else {
        Err(Stop::Refused(Fault::at(Kind::IndexMismatch, at)))
    }
}

fn fitted_to(alloc: Global, at: Span, ws: &[Want], k: Known) -> Result<Known, Stop>
    ensures of { Tells cell_of result (fitted_whole at (wants_of ws.now) (cell_of k)) }
    ensures seen { (r : Reading) → Tells (seen r) result (fitted_whole at (wants_of ws.now) (seen r k)) }
{
    match length_of(&k) {
        None => Ok(k),
        Some(n) => array_fitted(alloc, at, ws, n, &k),
    }
}

fn some_fitted(alloc: Global, at: Span, ws: &[Want], k: Known) -> Result<Known, Stop>
    ensures of { Tells cell_of result (if arrays.no_missing (wants_of ws.now) then fitted_whole at (wants_of ws.now) (cell_of k) else give (cell_of k)) }
    ensures seen { (r : Reading) → Tells (seen r) result (if arrays.no_missing (wants_of ws.now) then fitted_whole at (wants_of ws.now) (seen r k) else give (seen r k)) }
{
    if no_missing(ws) {
        fitted_to(alloc, at, ws, k)
    } else {
        Ok(k)
    }
}

/// An array under its declared index sets, which it takes; its elements aren't copied. An undefined
/// par array, one whose declared sets are undefined, and what has no declared index sets stay as
/// they are. Refused IndexMismatch at `at` where the array hasn't as many elements as the index
/// sets have places, or an index is `int` and it hasn't as many dimensions.
pub fn fitted(alloc: Global, at: Span, ws: &[Want], k: Known) -> Result<Known, Stop>
    ensures of { Tells cell_of result (arrays.fitted at (wants_of ws.now) (cell_of k)) }
    ensures seen { (r : Reading) → Tells (seen r) result (arrays.fitted at (wants_of ws.now) (seen r k)) }
{
    match ws {
        [] => Ok(k),
        [_, ..] => some_fitted(alloc, at, ws, k),
    }
}

fn suited(alloc: Global, ws: &[Want], w: &Want, k: Known) -> Result<(Known, Sure), AllocError>
    ensures { IfOk result (λ p. local_of p ≡ (cell_of k, cells.both_sure (lets.all_have_sets (wants_of ws.now)) (arrays.suits (wanted w.now) (cell_of k)))) }
{
    let s = suits(alloc, w, &k)?;
    Ok((k, both_sure(all_have_sets(ws), s)))
}

/// A value under its declared index sets and its declared set: the cell, as `fitted` gives it, and
/// whether all these sets are there and the value is there and lies in its set. The refusal is that
/// of `fitted`.
pub fn kept(alloc: Global, at: Span, ws: &[Want], w: &Want, k: Known) -> Result<(Known, Sure), Stop>
    ensures { Tells local_of result (lets.kept at (wants_of ws.now) (wanted w.now) (cell_of k)) }
{
    let f = fitted(alloc, at, ws, k)?;
    let p = suited(alloc, ws, w, f)?;
    Ok(p)
}
