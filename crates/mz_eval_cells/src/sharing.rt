// The same cell once more: what is large is held by both.

ghost use Rattle.std.specs.Prelude.{◌≡◌, IfOk, List, None, Option, map, ℕ};
ghost use Rattle.std.specs.Option.{option_map};
ghost use Rattle.mz_value.specs.Contents as values;
ghost use Rattle.mz_value.specs.Contents.{Content, content, contents};
ghost use Rattle.mz_operations.specs.Bounds as bounds;
ghost use Rattle.mz_arena.specs.Values.{Term};
ghost use Rattle.mz_meaning.specs.Cells.{Var, held, par_value, value_of};
ghost use Rattle.mz_symbol.specs.Readings.{Reading};
ghost use Rattle.mz_eval_cells.specs.Views.{cell_of, item_content, known_bound, known_bounds, origin_value, origins_value, row_content, seen};

use crate::types::{Bound, Bounds, Item, Known, Origin, Origins, VarItems};
use mz_value::Value;
use std::alloc::{AllocError, Global};
use std::rc::Rc;

/// The same value once more.
pub fn share_item(i: &Item) -> Result<Item, AllocError>
    ensures { IfOk result (λ x. item_content x ≡ item_content i.now) }
{
    match i {
        Item::Bool(b) => Ok(Item::Bool(*b)),
        Item::Int(n) => Ok(Item::Int(*n)),
        Item::Enum(e, k) => Ok(Item::Enum(*e, *k)),
        Item::Absent => Ok(Item::Absent),
        Item::Set(s) => Ok(Item::Set(s.clone()?)),
        Item::Text(t) => Ok(Item::Text(t.clone()?)),
    }
}

/// The same origin of a value once more.
pub(crate) fn share_origin(o: &Origin) -> Result<Origin, AllocError>
    ensures { IfOk result (λ x. (t : ℕ → Term) → origin_value t x ≡ origin_value t o.now) }
{
    match o {
        Origin::Nothing => Ok(Origin::Nothing),
        Origin::Item(i) => Ok(Origin::Item(share_item(i)?)),
        Origin::Symbol(s) => Ok(Origin::Symbol(*s)),
        Origin::Truth(yes, defined) => Ok(Origin::Truth(*yes, *defined)),
    }
}

/// The same origin of an array's elements once more.
pub(crate) fn share_origins(o: &Origins) -> Result<Origins, AllocError>
    ensures { IfOk result (λ x. (l : ℕ → Option (List Content)) → origins_value l x ≡ origins_value l o.now) }
{
    match o {
        Origins::Nothing => Ok(Origins::Nothing),
        Origins::Values(items) => Ok(Origins::Values(items.clone()?)),
        Origins::Line(k) => Ok(Origins::Line(*k)),
    }
}

/// The same bounds of one value once more.
pub fn share_bound(b: &Bound) -> Result<Bound, AllocError>
    ensures { IfOk result (λ x. known_bound x ≡ known_bound b.now) }
{
    match b {
        Bound::Number(low, high) => Ok(Bound::Number(*low, *high)),
        Bound::Sets(lower, upper) => {
            let least = lower.clone()?;
            Ok(Bound::Sets(least, upper.clone()?))
        }
    }
}

pub(crate) fn many_shared(
    index: &Rc<Vec<(i64, i64)>>,
    all: &Rc<Vec<Bound>>,
) -> Result<Bounds, AllocError>
    ensures { IfOk result (λ x. known_bounds x ≡ bounds.many index.now.value.items (map known_bound all.now.value.items)) }
{
    let ranges = index.clone()?;
    Ok(Bounds::Many(ranges, all.clone()?))
}

/// The same bounds once more.
pub fn share_bounds(b: &Bounds) -> Result<Bounds, AllocError>
    ensures { IfOk result (λ x. known_bounds x ≡ known_bounds b.now) }
{
    match b {
        Bounds::One(bound) => Ok(Bounds::One(share_bound(bound)?)),
        Bounds::Many(index, all) => many_shared(index, all),
    }
}

pub(crate) fn array_shared(
    index: &Rc<Vec<(i64, i64)>>,
    items: &Rc<Vec<Value>>,
) -> Result<Known, AllocError>
    ensures of { IfOk result (λ k. cell_of k ≡ par_value (values.array index.now.value.items (contents (map content items.now.value.items)))) }
    ensures seen { IfOk result (λ k. (r : Reading) → seen r k ≡ par_value (values.array index.now.value.items (contents (map content items.now.value.items)))) }
{
    let ranges = index.clone()?;
    Ok(Known::Array(ranges, items.clone()?))
}

pub(crate) fn row_shared(
    index: &Rc<Vec<(i64, i64)>>,
    all: &Rc<VarItems>,
) -> Result<Known, AllocError>
    ensures of { IfOk result (λ k. cell_of k ≡ Var (bounds.many index.now.value.items (map known_bound all.now.value.bounds.value.items)) None) }
    ensures seen { IfOk result (λ k. (r : Reading) → seen r k
        ≡ Var (bounds.many index.now.value.items (map known_bound all.now.value.bounds.value.items)) (held r.mode (row_content r.line index.now.value.items all.now.value))) }
{
    let ranges = index.clone()?;
    Ok(Known::Row(ranges, all.clone()?))
}

/// The same cell once more. No element, set or text is copied.
pub fn share(k: &Known) -> Result<Known, AllocError>
    ensures of { IfOk result (λ x. cell_of x ≡ cell_of k.now) }
    ensures seen { IfOk result (λ x. (r : Reading) → seen r x ≡ seen r k.now) }
{
    match k {
        Known::Undefined => Ok(Known::Undefined),
        Known::One(i) => Ok(Known::One(share_item(i)?)),
        Known::Array(index, items) => array_shared(index, items),
        Known::Var(v) => Ok(Known::Var(v.clone()?)),
        Known::Row(index, all) => row_shared(index, all),
        Known::Unshaped(d) => Ok(Known::Unshaped(*d)),
    }
}

/// A copy of a cell's value: `None` of an undefined or var one.
pub fn copied_value(alloc: Global, k: &Known) -> Result<Option<Value>, AllocError>
    ensures { IfOk result (λ v. option_map content v ≡ value_of (cell_of k.now)) }
{
    let same = share(k)?;
    same.into_value(alloc)
}

/// A cell's value, which is copied only where another cell holds it too: `None` of an undefined or
/// var one.
pub fn given(alloc: Global, k: Known) -> Result<Option<Value>, AllocError>
    ensures { IfOk result (λ v. option_map content v ≡ value_of (cell_of k)) }
{
    k.into_value(alloc)
}
