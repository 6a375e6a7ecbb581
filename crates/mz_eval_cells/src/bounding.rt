// The bounds of values and of cells.

ghost use Rattle.std.specs.Prelude.{◌≡◌, [], IfOk, map, pos, replicate};
ghost use Rattle.mz_value.specs.Contents as values;
ghost use Rattle.mz_value.specs.Contents.{content, contents};
ghost use Rattle.mz_core.specs.Types.{is_set, plain_type};
ghost use Rattle.mz_operations.specs.Bounds as bounds;
ghost use Rattle.mz_meaning.specs.Cells as cells;
ghost use Rattle.mz_eval_cells.specs.Views.{cell_of, item_content, known_bound, known_bounds};

use crate::reading::ranges_of;
use crate::sharing::{many_shared, share_bound};
use crate::types::{Bound, Bounds, Item, Known};
use mz_core::{Base, TypeInst};
use mz_value::{RangeSet, Value};
use std::alloc::{AllocError, Global};
use std::rc::Rc;

/// The bounds of a set: at least and at most itself.
fn set_bound(alloc: Global, s: &RangeSet) -> Result<Bound, AllocError>
    ensures { IfOk result (λ b. known_bound b ≡ bounds.sets s.now s.now) }
{
    let copy = s.copy(alloc)?;
    let lower = Rc::new(alloc, copy)?;
    let upper = lower.clone()?;
    Ok(Bound::Sets(lower, upper))
}

/// The bounds of a value: of a truth value 0 or 1, of a case its number, of a set itself, and 0..0
/// of what has no number.
#[tactic(auto, unfolding(mz_operations::specs::Bounds::bound_of))]
pub fn bound_of(alloc: Global, v: &Value) -> Result<Bound, AllocError>
    ensures { IfOk result (λ b. known_bound b ≡ bounds.bound_of (content v.now)) }
{
    match v {
        Value::Bool(true) => Ok(Bound::Number(1, 1)),
        Value::Bool(false) => Ok(Bound::Number(0, 0)),
        Value::Int(n) => Ok(Bound::Number(*n, *n)),
        Value::Enum(_, k) => Ok(Bound::Number(*k, *k)),
        Value::Set(s) => set_bound(alloc, &s.ranges),
        Value::Absent => Ok(Bound::Number(0, 0)),
        Value::Text(_) => Ok(Bound::Number(0, 0)),
        Value::Array(_) => Ok(Bound::Number(0, 0)),
    }
}

/// The bounds of each value.
pub fn all_bounds(alloc: Global, xs: &[Value]) -> Result<Vec<Bound>, AllocError>
    ensures { IfOk result (λ all. map known_bound all.items ≡ map bounds.bound_of (map content xs.now)) }
{
    let mut all = Vec::new(alloc);
    for x in xs {
        let b = bound_of(alloc, x)?;
        all.push(b)?;
    }
    Ok(all)
}

/// The bounds of an item, as `bound_of` says.
#[tactic(auto, unfolding(mz_operations::specs::Bounds::bound_of))]
pub(crate) fn item_bound(alloc: Global, i: &Item) -> Result<Bound, AllocError>
    ensures { IfOk result (λ b. known_bound b ≡ bounds.bound_of (item_content i.now)) }
{
    match i {
        Item::Bool(true) => Ok(Bound::Number(1, 1)),
        Item::Bool(false) => Ok(Bound::Number(0, 0)),
        Item::Int(n) => Ok(Bound::Number(*n, *n)),
        Item::Enum(_, k) => Ok(Bound::Number(*k, *k)),
        Item::Absent => Ok(Bound::Number(0, 0)),
        Item::Set(s) => set_bound(alloc, ranges_of(s)),
        Item::Text(_) => Ok(Bound::Number(0, 0)),
    }
}

#[tactic(auto, using(crate::proofs::Items::item_bounds))]
fn item_bounds(alloc: Global, i: &Item) -> Result<Bounds, AllocError>
    ensures { IfOk result (λ b. known_bounds b ≡ bounds.bounds_of (item_content i.now)) }
{
    let bound = item_bound(alloc, i)?;
    Ok(Bounds::One(bound))
}

/// The bounds of an array's elements, under its index ranges.
#[tactic(auto, using(crate::proofs::Items::array_bounds))]
pub(crate) fn array_bounds(
    alloc: Global,
    index: &Rc<Vec<(i64, i64)>>,
    items: &Rc<Vec<Value>>,
) -> Result<Bounds, AllocError>
    ensures { IfOk result (λ b. known_bounds b ≡ bounds.bounds_of (values.array index.now.value.items (contents (map content items.now.value.items)))) }
{
    let all = all_bounds(alloc, items.as_slice())?;
    let held = Rc::new(alloc, all)?;
    Ok(Bounds::Many(index.clone()?, held))
}

/// This many empty index ranges.
#[tactic(auto, using(std::proofs::lemmas::List::replicate_more))]
fn empty_ranges(alloc: Global, count: u64) -> Result<Vec<(i64, i64)>, AllocError>
    ensures { IfOk result (λ all. all.items ≡ replicate count (pos 1, pos 0)) }
{
    let mut all = Vec::new(alloc);
    for k in 0..count {
        all.push((1, 0))?;
    }
    Ok(all)
}

/// The bounds of an undefined array of this many dimensions: it has no element.
pub(crate) fn no_array(alloc: Global, count: u64) -> Result<Bounds, AllocError>
    ensures { IfOk result (λ b. known_bounds b ≡ bounds.no_array count) }
{
    let ranges = empty_ranges(alloc, count)?;
    let index = Rc::new(alloc, ranges)?;
    let none = Rc::new(alloc, Vec::new(alloc))?;
    Ok(Bounds::Many(index, none))
}

/// Whether this is the base of a set.
pub fn is_set_base(b: Base) -> bool
    ensures { result ≡ is_set b }
{
    matches!(b, Base::SetInt | Base::SetEnum(_) | Base::SetBottom)
}

fn no_set(alloc: Global) -> Result<Bound, AllocError>
    ensures { IfOk result (λ b. known_bound b ≡ bounds.sets [] []) }
{
    let empty = RangeSet::range(alloc, 1, 0)?;
    set_bound(alloc, &empty)
}

/// The bounds of an undefined value of this base, or of an array's undefined element: 0..0, or no
/// element that a set may have.
#[tactic(auto, unfolding(mz_core::specs::Types::plain_type))]
pub fn empty_bound(alloc: Global, t: &TypeInst) -> Result<Bound, AllocError>
    ensures { IfOk result (λ b. known_bound b ≡ cells.empty_bound (plain_type t.now)) }
{
    if is_set_base(t.base) {
        no_set(alloc)
    } else {
        Ok(Bound::Number(0, 0))
    }
}

/// The bounds of an undefined value of this type: an array has as many dimensions, and no element.
#[tactic(auto, unfolding(mz_core::specs::Types::plain_type))]
pub fn no_bounds(alloc: Global, t: &TypeInst) -> Result<Bounds, AllocError>
    ensures { IfOk result (λ b. known_bounds b ≡ cells.no_bounds (plain_type t.now)) }
{
    if t.dims.is_empty() {
        let bound = empty_bound(alloc, t)?;
        Ok(Bounds::One(bound))
    } else {
        no_array(alloc, t.dims.len() as u64)
    }
}

/// The bounds of a cell: of a par one its value's, 0..0 of an undefined one.
pub fn bounds_in(alloc: Global, k: &Known) -> Result<Bounds, AllocError>
    ensures { IfOk result (λ b. known_bounds b ≡ cells.bounds_in (cell_of k.now)) }
{
    match k {
        Known::Undefined => Ok(Bounds::One(Bound::Number(0, 0))),
        Known::One(i) => item_bounds(alloc, i),
        Known::Array(index, items) => array_bounds(alloc, index, items),
        Known::Var(v) => Ok(Bounds::One(share_bound(&v.bound)?)),
        Known::Row(index, xs) => many_shared(index, &xs.bounds),
        Known::Unshaped(d) => no_array(alloc, *d),
    }
}

/// The bounds of a cell of this type: of an undefined par one those that `no_bounds` gives.
pub fn bounds_as(alloc: Global, t: &TypeInst, k: &Known) -> Result<Bounds, AllocError>
    ensures { IfOk result (λ b. known_bounds b ≡ cells.bounds_as (plain_type t.now) (cell_of k.now)) }
{
    match k {
        Known::Undefined => no_bounds(alloc, t),
        Known::One(_) => bounds_in(alloc, k),
        Known::Array(_, _) => bounds_in(alloc, k),
        Known::Var(_) => bounds_in(alloc, k),
        Known::Row(_, _) => bounds_in(alloc, k),
        Known::Unshaped(_) => bounds_in(alloc, k),
    }
}

/// The bounds of a cell that is no array; 0..0 of an array.
#[tactic(auto, using(crate::proofs::Items::item_bounds, crate::proofs::Items::no_scalar))]
pub fn scalar_bound(alloc: Global, k: &Known) -> Result<Bound, AllocError>
    ensures { IfOk result (λ b. known_bound b ≡ cells.scalar_bound (cells.bounds_in (cell_of k.now))) }
{
    match k {
        Known::Undefined => Ok(Bound::Number(0, 0)),
        Known::One(i) => item_bound(alloc, i),
        Known::Array(_, _) => Ok(Bound::Number(0, 0)),
        Known::Var(v) => share_bound(&v.bound),
        Known::Row(_, _) => Ok(Bound::Number(0, 0)),
        Known::Unshaped(_) => Ok(Bound::Number(0, 0)),
    }
}
