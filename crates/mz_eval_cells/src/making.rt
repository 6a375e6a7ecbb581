// Cells of values and of bounds.

ghost use Rattle.std.specs.Prelude.{◌≡◌, IfOk, None, map};
ghost use Rattle.std.specs.Option.{option_map};
ghost use Rattle.mz_value.specs.Contents as values;
ghost use Rattle.mz_value.specs.Contents.{content, contents, text_bytes};
ghost use Rattle.mz_operations.specs.Bounds as bounds;
ghost use Rattle.mz_meaning.specs.Cells as cells;
ghost use Rattle.mz_meaning.specs.Cells.{Par, Var, held, par_value};
ghost use Rattle.mz_symbol.specs.Readings.{Reading};
ghost use Rattle.mz_eval_cells.specs.Views.{array_of, cell_of, item_content, known_bound, known_bounds, origin_value, origins_value, seen};

use crate::types::{Bound, Bounds, Item, Known, Origin, Origins, VarItems, VarValue};
use mz_builtin_arguments::{copied_items, copied_text};
use mz_value::{ArrayValue, RangeSet, SetValue, TextValue, Value};
use std::alloc::{AllocError, Global};
use std::rc::Rc;

/// An undefined par cell.
pub fn undefined() -> Known
    ensures of { cell_of result ≡ cells.undefined }
    ensures seen { (r : Reading) → seen r result ≡ cells.undefined }
{
    Known::Undefined
}

/// A par cell with this value.
pub fn one(i: Item) -> Known
    ensures of { cell_of result ≡ par_value (item_content i) }
    ensures seen { (r : Reading) → seen r result ≡ par_value (item_content i) }
{
    Known::One(i)
}

/// A par array of these index ranges and elements, which aren't copied.
pub fn array(alloc: Global, index: Vec<(i64, i64)>, items: Vec<Value>) -> Result<Known, AllocError>
    ensures of { IfOk result (λ k. cell_of k ≡ par_value (values.array index.items (contents (map content items.items)))) }
    ensures seen { IfOk result (λ k. (r : Reading) → seen r k ≡ par_value (values.array index.items (contents (map content items.items)))) }
{
    let ranges = Rc::new(alloc, index)?;
    let all = Rc::new(alloc, items)?;
    Ok(Known::Array(ranges, all))
}

/// A par set of integers, or of cases of the enum with this number.
pub fn set(alloc: Global, of: Option<u64>, ranges: RangeSet) -> Result<Known, AllocError>
    ensures of { IfOk result (λ k. cell_of k ≡ par_value (values.set of ranges)) }
    ensures seen { IfOk result (λ k. (r : Reading) → seen r k ≡ par_value (values.set of ranges)) }
{
    let held = Rc::new(alloc, SetValue { of, ranges })?;
    Ok(Known::One(Item::Set(held)))
}

/// A par text.
pub fn text(alloc: Global, t: TextValue) -> Result<Known, AllocError>
    ensures of { IfOk result (λ k. cell_of k ≡ par_value (values.text (text_bytes t))) }
    ensures seen { IfOk result (λ k. (r : Reading) → seen r k ≡ par_value (values.text (text_bytes t))) }
{
    let held = Rc::new(alloc, t)?;
    Ok(Known::One(Item::Text(held)))
}

/// A var cell that is no array, with these bounds and an undefined value.
#[tactic(auto, using(crate::proofs::Held::held_none))]
pub fn var_value(alloc: Global, bound: Bound) -> Result<Known, AllocError>
    ensures of { IfOk result (λ k. cell_of k ≡ Var (bounds.one (known_bound bound)) None) }
    ensures seen { IfOk result (λ k. (r : Reading) → seen r k ≡ Var (bounds.one (known_bound bound)) None) }
{
    var_of(alloc, bound, Origin::Nothing)
}

/// A var cell that is no array, with these bounds, whose value is told by this origin.
pub fn var_of(alloc: Global, bound: Bound, origin: Origin) -> Result<Known, AllocError>
    ensures of { IfOk result (λ k. cell_of k ≡ Var (bounds.one (known_bound bound)) None) }
    ensures seen { IfOk result (λ k. (r : Reading) → seen r k ≡ Var (bounds.one (known_bound bound)) (held r.mode (origin_value r.term origin))) }
{
    let value = VarValue {
        bound,
        origin,
        cast: None,
    };
    let held = Rc::new(alloc, value)?;
    Ok(Known::Var(held))
}

/// A var array of these index ranges, with its elements' bounds, whose values are told by these
/// origins.
pub fn row_of(
    alloc: Global,
    index: Rc<Vec<(i64, i64)>>,
    all: Rc<Vec<Bound>>,
    origins: Origins,
) -> Result<Known, AllocError>
    ensures of { IfOk result (λ k. cell_of k ≡ Var (bounds.many index.value.items (map known_bound all.value.items)) None) }
    ensures seen { IfOk result (λ k. (r : Reading) → seen r k
        ≡ Var (bounds.many index.value.items (map known_bound all.value.items)) (held r.mode (array_of index.value.items (origins_value r.line origins)))) }
{
    let items = VarItems {
        bounds: all,
        origins,
        cast: None,
    };
    let held = Rc::new(alloc, items)?;
    Ok(Known::Row(index, held))
}

#[tactic(auto, using(crate::proofs::Held::held_none))]
fn row_held(
    alloc: Global,
    index: Rc<Vec<(i64, i64)>>,
    all: Rc<Vec<Bound>>,
) -> Result<Known, AllocError>
    ensures of { IfOk result (λ k. cell_of k ≡ Var (bounds.many index.value.items (map known_bound all.value.items)) None) }
    ensures seen { IfOk result (λ k. (r : Reading) → seen r k ≡ Var (bounds.many index.value.items (map known_bound all.value.items)) None) }
{
    row_of(alloc, index, all, Origins::Nothing)
}

/// A var array with these index ranges and elements' bounds, and an undefined value.
pub fn var_items(
    alloc: Global,
    index: Vec<(i64, i64)>,
    all: Vec<Bound>,
) -> Result<Known, AllocError>
    ensures of { IfOk result (λ k. cell_of k ≡ Var (bounds.many index.items (map known_bound all.items)) None) }
    ensures seen { IfOk result (λ k. (r : Reading) → seen r k ≡ Var (bounds.many index.items (map known_bound all.items)) None) }
{
    let ranges = Rc::new(alloc, index)?;
    let held = Rc::new(alloc, all)?;
    row_held(alloc, ranges, held)
}

/// A var cell with these bounds, and an undefined value.
pub fn var_cell(alloc: Global, b: Bounds) -> Result<Known, AllocError>
    ensures of { IfOk result (λ k. cell_of k ≡ Var (known_bounds b) None) }
    ensures seen { IfOk result (λ k. (r : Reading) → seen r k ≡ Var (known_bounds b) None) }
{
    match b {
        Bounds::One(bound) => var_value(alloc, bound),
        Bounds::Many(index, bounds) => row_held(alloc, index, bounds),
    }
}

fn set_held(alloc: Global, s: SetValue) -> Result<Known, AllocError>
    ensures of { IfOk result (λ k. cell_of k ≡ par_value (values.set s.of s.ranges)) }
    ensures seen { IfOk result (λ k. (r : Reading) → seen r k ≡ par_value (values.set s.of s.ranges)) }
{
    let held = Rc::new(alloc, s)?;
    Ok(Known::One(Item::Set(held)))
}

fn array_held(alloc: Global, a: ArrayValue) -> Result<Known, AllocError>
    ensures of { IfOk result (λ k. cell_of k ≡ par_value (content (Value.Array a))) }
    ensures seen { IfOk result (λ k. (r : Reading) → seen r k ≡ par_value (content (Value.Array a))) }
{
    array(alloc, a.index, a.items)
}

fn held(alloc: Global, v: Value) -> Result<Known, AllocError>
    ensures of { IfOk result (λ k. cell_of k ≡ par_value (content v)) }
    ensures seen { IfOk result (λ k. (r : Reading) → seen r k ≡ par_value (content v)) }
{
    match v {
        Value::Bool(b) => Ok(Known::One(Item::Bool(b))),
        Value::Int(n) => Ok(Known::One(Item::Int(n))),
        Value::Enum(e, k) => Ok(Known::One(Item::Enum(e, k))),
        Value::Set(s) => set_held(alloc, s),
        Value::Absent => Ok(Known::One(Item::Absent)),
        Value::Text(t) => text(alloc, t),
        Value::Array(a) => array_held(alloc, a),
    }
}

/// The par cell of a value, which isn't copied; `None` is undefined.
pub fn known_of(alloc: Global, v: Option<Value>) -> Result<Known, AllocError>
    ensures of { IfOk result (λ k. cell_of k ≡ Par (option_map content v)) }
    ensures seen { IfOk result (λ k. (r : Reading) → seen r k ≡ Par (option_map content v)) }
{
    match v {
        None => Ok(Known::Undefined),
        Some(x) => held(alloc, x),
    }
}

fn set_seen(alloc: Global, s: &SetValue) -> Result<Known, AllocError>
    ensures of { IfOk result (λ k. cell_of k ≡ par_value (values.set s.now.of s.now.ranges)) }
    ensures seen { IfOk result (λ k. (r : Reading) → seen r k ≡ par_value (values.set s.now.of s.now.ranges)) }
{
    let ranges = s.ranges.copy(alloc)?;
    set(alloc, s.of, ranges)
}

fn text_seen(alloc: Global, t: &TextValue) -> Result<Known, AllocError>
    ensures of { IfOk result (λ k. cell_of k ≡ par_value (values.text (text_bytes t.now))) }
    ensures seen { IfOk result (λ k. (r : Reading) → seen r k ≡ par_value (values.text (text_bytes t.now))) }
{
    let copy = copied_text(alloc, t)?;
    text(alloc, copy)
}

fn array_seen(alloc: Global, a: &ArrayValue) -> Result<Known, AllocError>
    ensures of { IfOk result (λ k. cell_of k ≡ par_value (content (Value.Array a.now))) }
    ensures seen { IfOk result (λ k. (r : Reading) → seen r k ≡ par_value (content (Value.Array a.now))) }
{
    let index = Vec::from_slice(alloc, &a.index)?;
    let items = copied_items(alloc, &a.items)?;
    array(alloc, index, items)
}

/// The par cell of a value that an array holds: a set, a text and an inner array are copied.
pub fn copied_cell(alloc: Global, v: &Value) -> Result<Known, AllocError>
    ensures of { IfOk result (λ k. cell_of k ≡ par_value (content v.now)) }
    ensures seen { IfOk result (λ k. (r : Reading) → seen r k ≡ par_value (content v.now)) }
{
    match v {
        Value::Bool(b) => Ok(Known::One(Item::Bool(*b))),
        Value::Int(n) => Ok(Known::One(Item::Int(*n))),
        Value::Enum(e, k) => Ok(Known::One(Item::Enum(*e, *k))),
        Value::Set(s) => set_seen(alloc, s),
        Value::Absent => Ok(Known::One(Item::Absent)),
        Value::Text(t) => text_seen(alloc, t),
        Value::Array(a) => array_seen(alloc, a),
    }
}
