// Accesses to arrays.

ghost use Rattle.std.specs.Prelude.{◌≡◌, ◌≤ℤ◌, ◌∷◌, [], IfOk, MatchOption, None, Some, map, slice_get, true};
ghost use Rattle.std.specs.Option.{option_and_then};
ghost use Rattle.mz_value.specs.Contents as values;
ghost use Rattle.mz_value.specs.Contents.{content, contents};
ghost use Rattle.mz_core.specs.Types.{plain_type};
ghost use Rattle.mz_interval.specs.Ends as ends;
ghost use Rattle.mz_operations.specs.Bounds as bounds;
ghost use Rattle.mz_operations.specs.Sets as sets;
ghost use Rattle.mz_meaning.specs.Arrays as arrays;
ghost use Rattle.mz_meaning.specs.Cells as cells;
ghost use Rattle.mz_meaning.specs.Cells.{Par, value_of};
ghost use Rattle.mz_eval_cells.specs.Views.{cell_of, cells_of, item_content, known_bound};
ghost use Rattle.mz_eval_access.specs.Places.{ReachesOne, element_in, places_of, reached_bound};

use crate::indexing::place_of;
use crate::placing::{Places, distance, with_reached};
use mz_builtin_arguments::union;
use mz_core::TypeInst;
use mz_eval_cells::{Bound, Item, Known, copied_cell, is_set_base, scalar_bound, undefined};
use mz_value::{RangeSet, Value};
use std::alloc::{AllocError, Global};
use std::rc::Rc;

fn nth(items: &[Value], n: u64) -> Option<&Value>
    ensures { MatchOption result (slice_get items.now n ≡ None) (λ v. slice_get items.now n ≡ Some v.now) }
{
    items.get(n as usize)
}

fn value_at(alloc: Global, items: &[Value], n: u64) -> Result<Known, AllocError>
    ensures { IfOk result (λ k. cell_of k ≡ Par (slice_get (map content items.now) n)) }
{
    match nth(items, n) {
        None => Ok(undefined()),
        Some(v) => copied_cell(alloc, v),
    }
}

fn value_of_place(alloc: Global, items: &[Value], place: Option<u64>) -> Result<Known, AllocError>
    ensures { IfOk result (λ k. cell_of k ≡ Par (option_and_then (slice_get (map content items.now)) place)) }
{
    match place {
        None => Ok(undefined()),
        Some(n) => value_at(alloc, items, n),
    }
}

fn element(
    alloc: Global,
    index: &[(i64, i64)],
    items: &[Value],
    at: &[Known],
) -> Result<Known, AllocError>
    ensures { IfOk result (λ k. cell_of k ≡ Par (element_in index.now (map content items.now) (cells_of at.now))) }
{
    let _count = items.len();
    let place = place_of(alloc, index, at)?;
    let k = value_of_place(alloc, items, place)?;
    Ok(k)
}

/// The element of a par array at par indices: undefined where the array or an index is undefined, or
/// an index lies outside its range.
#[tactic(auto, using(crate::proofs::Places::no_element))]
pub fn par_element(alloc: Global, a: &Known, at: &[Known]) -> Result<Known, AllocError>
    ensures { IfOk result (λ k. cell_of k ≡ Par (arrays.accessed (value_of (cell_of a.now)) (map value_of (cells_of at.now)))) }
{
    match a {
        Known::Undefined => Ok(undefined()),
        Known::One(_) => Ok(undefined()),
        Known::Array(index, items) => { element(alloc, index.as_slice(), items.as_slice(), at) }
        Known::Var(_) => Ok(undefined()),
        Known::Row(_, _) => Ok(undefined()),
        Known::Unshaped(_) => Ok(undefined()),
    }
}

/// The ends of a number's bounds, 0..0 of a set's.
pub(crate) fn ends_in(b: &Bound) -> (i64, i64)
    ensures { result ≡ arrays.ends_in (known_bound b.now) }
{
    match b {
        Bound::Number(low, high) => (*low, *high),
        Bound::Sets(_, _) => (0, 0),
    }
}

fn index_ends(alloc: Global, at: &[Known]) -> Result<Vec<(i64, i64)>, AllocError>
    ensures { IfOk result (λ v. v.items ≡ map (λ c. arrays.ends_in (cells.scalar_bound (cells.bounds_in c))) (cells_of at.now)) }
{
    let mut all = Vec::new(alloc);
    for k in at {
        let b = scalar_bound(alloc, k)?;
        all.push(ends_in(&b))?;
    }
    Ok(all)
}

fn reached_in(
    alloc: Global,
    ranges: &[(i64, i64)],
    ends: &[(i64, i64)],
    p: Places<'_>,
) -> Result<Vec<Bound>, AllocError>
    ensures { IfOk result (λ v. map known_bound v.items ≡ bounds.reached ranges.now ends.now (places_of p.entry)) }
{
    let all = with_reached(alloc, ranges, ends, p, Vec::new(alloc))?;
    Ok(all)
}

fn array_reached(
    alloc: Global,
    index: &[(i64, i64)],
    items: &[Value],
    ends: &[(i64, i64)],
) -> Result<Vec<Bound>, AllocError>
    ensures { IfOk result (λ v. map known_bound v.items ≡ arrays.elements_reached (bounds.bounds_of (values.array index.now (contents (map content items.now)))) ends.now) }
{
    let all = reached_in(alloc, index, ends, Places::Items(items))?;
    Ok(all)
}

/// What is no array has no element.
#[tactic(auto, unfolding(mz_operations::specs::Bounds::bounds_of))]
fn item_reached(alloc: Global, i: &Item, ends: &[(i64, i64)]) -> Vec<Bound>
    ensures { map known_bound result.items ≡ arrays.elements_reached (bounds.bounds_of (item_content i.now)) ends.now }
{
    match i {
        Item::Bool(_) => Vec::new(alloc),
        Item::Int(_) => Vec::new(alloc),
        Item::Enum(_, _) => Vec::new(alloc),
        Item::Absent => Vec::new(alloc),
        Item::Set(_) => Vec::new(alloc),
        Item::Text(_) => Vec::new(alloc),
    }
}

/// An array without a shape has no element.
#[tactic(auto, using(crate::proofs::Reached::nothing_reached))]
fn unshaped_reached(alloc: Global, count: u64, ends: &[(i64, i64)]) -> Vec<Bound>
    ensures { map known_bound result.items ≡ arrays.elements_reached (bounds.no_array count) ends.now }
{
    Vec::new(alloc)
}

/// The bounds of the elements that indices of these bounds reach.
fn elements_reached(alloc: Global, a: &Known, ends: &[(i64, i64)]) -> Result<Vec<Bound>, AllocError>
    ensures { IfOk result (λ v. map known_bound v.items ≡ arrays.elements_reached (cells.bounds_in (cell_of a.now)) ends.now) }
{
    match a {
        Known::Undefined => Ok(Vec::new(alloc)),
        Known::One(i) => Ok(item_reached(alloc, i, ends)),
        Known::Array(index, items) => {
            array_reached(alloc, index.as_slice(), items.as_slice(), ends)
        }
        Known::Var(_) => Ok(Vec::new(alloc)),
        Known::Row(index, xs) => reached_in(
            alloc,
            index.as_slice(),
            ends,
            Places::Bounds(xs.bounds.as_slice()),
        ),
        Known::Unshaped(d) => Ok(unshaped_reached(alloc, *d, ends)),
    }
}

fn hull(bs: &[Bound]) -> (i64, i64)
    ensures { result ≡ bounds.hull_of_all (map arrays.ends_in (map known_bound bs.now)) }
{
    match bs {
        [] => (0, 0),
        [first, rest @ ..] => hull_from(ends_in(first), rest),
    }
}

/// What holds the numbers of both.
fn wider(whole: (i64, i64), e: (i64, i64)) -> (i64, i64)
    ensures { result ≡ ends.hull_of whole e }
{
    (whole.0.min(e.0), whole.1.max(e.1))
}

fn hull_from(first: (i64, i64), rest: &[Bound]) -> (i64, i64)
    ensures { result ≡ bounds.hull_from first (map arrays.ends_in (map known_bound rest.now)) }
{
    let mut whole = first;
    for b in rest {
        whole = wider(whole, ends_in(b));
    }
    whole
}

fn union_with(alloc: Global, acc: RangeSet, b: &Bound) -> Result<RangeSet, AllocError>
    ensures { IfOk result (λ s. s ≡ sets.union acc (arrays.upper_in (known_bound b.now))) }
{
    match b {
        Bound::Number(_, _) => {
            let none = RangeSet::range(alloc, 1, 0)?;
            let all = union(alloc, &acc, &none)?;
            Ok(all)
        }
        Bound::Sets(_, upper) => {
            let all = union(alloc, &acc, upper)?;
            Ok(all)
        }
    }
}

#[tactic(auto, unfolding(mz_operations::specs::Bounds::union_from))]
fn union_of(alloc: Global, bs: &[Bound]) -> Result<RangeSet, AllocError>
    ensures { IfOk result (λ s. s ≡ bounds.union_of_all (map arrays.upper_in (map known_bound bs.now))) }
{
    let mut acc = RangeSet::range(alloc, 1, 0)?;
    for b in bs {
        acc = union_with(alloc, acc, b)?;
    }
    Ok(acc)
}

fn at_most(alloc: Global, upper: RangeSet) -> Result<Bound, AllocError>
    ensures { IfOk result (λ b. known_bound b ≡ bounds.sets [] upper) }
{
    let none = RangeSet::range(alloc, 1, 0)?;
    let lower = Rc::new(alloc, none)?;
    Ok(Bound::Sets(lower, Rc::new(alloc, upper)?))
}

/// The bounds of one of several values of this type.
#[tactic(auto, unfolding(mz_core::specs::Types::plain_type))]
fn hull_over(alloc: Global, t: &TypeInst, bs: &[Bound]) -> Result<Bound, AllocError>
    ensures { IfOk result (λ b. known_bound b ≡ arrays.hull_over (plain_type t.now) (map known_bound bs.now)) }
{
    if is_set_base(t.base) {
        let all = union_of(alloc, bs)?;
        at_most(alloc, all)
    } else {
        let e = hull(bs);
        Ok(Bound::Number(e.0, e.1))
    }
}

/// The bound of one of the elements that these indices reach.
fn bound_of_all(alloc: Global, t: &TypeInst, a: &Known, at: &[Known]) -> Result<Bound, AllocError>
    ensures { IfOk result (λ b. known_bound b ≡ reached_bound (plain_type t.now) (cell_of a.now) (cells_of at.now)) }
{
    let ends = index_ends(alloc, at)?;
    let reached = elements_reached(alloc, a, &ends)?;
    hull_over(alloc, t, &reached)
}

// ---- at one index that is known, without a list

/// Whether these are the bounds of one index alone, which lies in the range.
fn is_one_in(r: (i64, i64), e: (i64, i64)) -> bool
    ensures { result ≡ true → (e.0 ≡ e.1) × (r.0 ≤ℤ e.0) × (e.0 ≤ℤ r.1) }
{
    e.0 == e.1 && (r.0 <= e.0 && e.0 <= r.1)
}

pub(crate) fn bound_nth(all: &[Bound], n: u64) -> Option<&Bound>
    ensures { MatchOption result (Unit {0}) (λ b. slice_get all.now n ≡ Some b.now) }
{
    all.get(n as usize)
}

/// The ends of what stands at an index of this range; none where the bounds are those of several
/// indices, or of one outside.
#[tactic(auto, using(crate::proofs::Reached::one_reached))]
fn ends_at(r: (i64, i64), all: &[Bound], e: (i64, i64)) -> Option<(i64, i64)>
    ensures { MatchOption result (Unit {0}) (λ n. map arrays.ends_in (bounds.reached (r ∷ []) (e ∷ []) (map known_bound all.now)) ≡ n ∷ []) }
{
    if !is_one_in(r, e) {
        return None;
    }
    match bound_nth(all, distance(r.0, e.0)) {
        None => None,
        Some(b) => Some(ends_in(b)),
    }
}

/// The same in an array, which may have more dimensions than one.
fn ends_in_list(ranges: &[(i64, i64)], all: &[Bound], e: (i64, i64)) -> Option<(i64, i64)>
    ensures { MatchOption result (Unit {0}) (λ n. map arrays.ends_in (bounds.reached ranges.now (e ∷ []) (map known_bound all.now)) ≡ n ∷ []) }
{
    match ranges {
        [r] => ends_at(*r, all, e),
        _ => None,
    }
}

/// The ends of the number that stands in an array at this index, where its bounds tell the place.
fn ends_of_one(alloc: Global, a: &Known, i: &Known) -> Result<Option<(i64, i64)>, AllocError>
    ensures { IfOk result (λ o. MatchOption o (Unit {0}) (ReachesOne (cell_of a.now) (cell_of i.now))) }
{
    match a {
        Known::Row(index, xs) => {
            let b = scalar_bound(alloc, i)?;
            Ok(ends_in_list(index.as_slice(), xs.bounds.as_slice(), ends_in(&b)))
        }
        _ => Ok(None),
    }
}

/// The bound of the elements that one index reaches.
#[tactic(auto, unfolding(mz_core::specs::Types::plain_type))]
fn bound_of_one(
    alloc: Global,
    t: &TypeInst,
    a: &Known,
    at: &[Known],
    i: &Known,
) -> Result<Bound, AllocError>
    requires { at.now ≡ i.now ∷ [] }
    ensures { IfOk result (λ b. known_bound b ≡ reached_bound (plain_type t.now) (cell_of a.now) (cells_of at.now)) }
{
    if is_set_base(t.base) {
        return bound_of_all(alloc, t, a, at);
    }
    match ends_of_one(alloc, a, i)? {
        None => bound_of_all(alloc, t, a, at),
        Some(e) => Ok(Bound::Number(e.0, e.1)),
    }
}

/// The bound of the element of an array at indices of which one is var, or of a var array, of this
/// type: that of all elements which indices of these bounds reach, the hull of numbers, and of sets
/// the union of what they may have.
pub fn access_bound(
    alloc: Global,
    t: &TypeInst,
    a: &Known,
    at: &[Known],
) -> Result<Bound, AllocError>
    ensures { IfOk result (λ b. known_bound b ≡ reached_bound (plain_type t.now) (cell_of a.now) (cells_of at.now)) }
{
    match at {
        [i] => bound_of_one(alloc, t, a, at, i),
        _ => bound_of_all(alloc, t, a, at),
    }
}
