// The cells of elements.

ghost use Rattle.std.specs.Prelude.{◌≡◌, IfOk, MatchOption, None, Some, map, slice_get};
ghost use Rattle.std.specs.Option.{option_map};
ghost use Rattle.mz_value.specs.Contents as values;
ghost use Rattle.mz_value.specs.Contents.{content, text_bytes};
ghost use Rattle.mz_operations.specs.Bounds as bounds;
ghost use Rattle.mz_meaning.specs.Cells.{Var, held, value_of};
ghost use Rattle.mz_symbol.specs.Readings.{Reading};
ghost use Rattle.mz_eval_cells.specs.Views.{cast_by, cell_of, item_content, known_bound, origin_value, seen};
ghost use Rattle.mz_eval_symbols.specs.Steps.{argued, item_cast};

use mz_builtin_arguments::copied_text;
use mz_core::Base;
use mz_eval_cells::{Bound, Item, Known, Origin, VarValue, share_bound, var_value};
use mz_symbol::Symbol;
use mz_value::{SetValue, TextValue, Value};
use std::alloc::{AllocError, Global};
use std::rc::Rc;

/// The var cell with this bound that is undefined.
pub(crate) fn no_value(alloc: Global, bound: &Bound) -> Result<Known, AllocError>
    ensures of { IfOk result (λ k. cell_of k ≡ Var (bounds.one (known_bound bound.now)) None) }
    ensures seen { IfOk result (λ k. (r : Reading) → value_of (seen r k) ≡ None) }
{
    let same = share_bound(bound)?;
    let k = var_value(alloc, same)?;
    Ok(k)
}

fn cast_value(
    alloc: Global,
    bound: Bound,
    origin: Origin,
    cast: Option<Base>,
) -> Result<Known, AllocError>
    ensures of { IfOk result (λ k. cell_of k ≡ Var (bounds.one (known_bound bound)) None) }
    ensures seen { IfOk result (λ k. (r : Reading) → value_of (seen r k) ≡ held r.mode (cast_by cast (origin_value r.term origin))) }
{
    let value = VarValue {
        bound,
        origin,
        cast,
    };
    let held = Rc::new(alloc, value)?;
    Ok(Known::Var(held))
}

/// The var cell with this bound and this origin, recast where a base is told.
fn cast_cell(
    alloc: Global,
    bound: &Bound,
    origin: Origin,
    cast: Option<Base>,
) -> Result<Known, AllocError>
    ensures of { IfOk result (λ k. cell_of k ≡ Var (bounds.one (known_bound bound.now)) None) }
    ensures seen { IfOk result (λ k. (r : Reading) → value_of (seen r k) ≡ held r.mode (cast_by cast (origin_value r.term origin))) }
{
    let same = share_bound(bound)?;
    let k = cast_value(alloc, same, origin, cast)?;
    Ok(k)
}

/// The var cell of a symbol, recast where a base is told.
pub(crate) fn symbol_cell(
    alloc: Global,
    cast: Option<Base>,
    s: Symbol,
    bound: &Bound,
) -> Result<Known, AllocError>
    ensures of { IfOk result (λ k. cell_of k ≡ Var (bounds.one (known_bound bound.now)) None) }
    ensures seen { IfOk result (λ k. (r : Reading) → value_of (seen r k) ≡ held r.mode (option_map (item_cast cast) (argued r.term s))) }
{
    let k = cast_cell(alloc, bound, Origin::Symbol(s), cast)?;
    Ok(k)
}

/// The same of a number, whose bounds have these ends.
pub(crate) fn number_cell(
    alloc: Global,
    cast: Option<Base>,
    s: Symbol,
    ends: (i64, i64),
) -> Result<Known, AllocError>
    ensures of { IfOk result (λ k. cell_of k ≡ Var (bounds.one (bounds.number ends)) None) }
    ensures seen { IfOk result (λ k. (r : Reading) → value_of (seen r k) ≡ held r.mode (option_map (item_cast cast) (argued r.term s))) }
{
    let bound = Bound::Number(ends.0, ends.1);
    let k = cast_value(alloc, bound, Origin::Symbol(s), cast)?;
    Ok(k)
}

// ---- values

fn set_item(alloc: Global, s: &SetValue) -> Result<Item, AllocError>
    ensures { IfOk result (λ i. item_content i ≡ values.set s.now.of s.now.ranges) }
{
    let ranges = s.ranges.copy(alloc)?;
    let held = Rc::new(alloc, SetValue { of: s.of, ranges })?;
    Ok(Item::Set(held))
}

fn text_item(alloc: Global, t: &TextValue) -> Result<Item, AllocError>
    ensures { IfOk result (λ i. item_content i ≡ values.text (text_bytes t.now)) }
{
    let copy = copied_text(alloc, t)?;
    let held = Rc::new(alloc, copy)?;
    Ok(Item::Text(held))
}

/// The item of a value; out of memory of an array.
fn item_of(alloc: Global, v: &Value) -> Result<Item, AllocError>
    ensures { IfOk result (λ i. item_content i ≡ content v.now) }
{
    match v {
        Value::Bool(b) => Ok(Item::Bool(*b)),
        Value::Int(n) => Ok(Item::Int(*n)),
        Value::Enum(e, k) => Ok(Item::Enum(*e, *k)),
        Value::Set(s) => set_item(alloc, s),
        Value::Absent => Ok(Item::Absent),
        Value::Text(t) => text_item(alloc, t),
        Value::Array(_) => Err(AllocError),
    }
}

/// The var cell of a value, recast where a base is told.
fn item_cell(
    alloc: Global,
    cast: Option<Base>,
    v: &Value,
    bound: &Bound,
) -> Result<Known, AllocError>
    ensures of { IfOk result (λ k. cell_of k ≡ Var (bounds.one (known_bound bound.now)) None) }
    ensures seen { IfOk result (λ k. (r : Reading) → value_of (seen r k) ≡ held r.mode (Some (item_cast cast (content v.now)))) }
{
    let i = item_of(alloc, v)?;
    let k = cast_cell(alloc, bound, Origin::Item(i), cast)?;
    Ok(k)
}

fn nth(items: &[Value], n: u64) -> Option<&Value>
    ensures { MatchOption result (slice_get items.now n ≡ None) (λ v. slice_get items.now n ≡ Some v.now) }
{
    items.get(n as usize)
}

/// The var cell of the value at a place, from 0, recast where a base is told.
pub(crate) fn values_item(
    alloc: Global,
    cast: Option<Base>,
    items: &[Value],
    n: u64,
    bound: &Bound,
) -> Result<Known, AllocError>
    ensures of { IfOk result (λ k. cell_of k ≡ Var (bounds.one (known_bound bound.now)) None) }
    ensures seen { IfOk result (λ k. (r : Reading) → value_of (seen r k) ≡ held r.mode (option_map (item_cast cast) (slice_get (map content items.now) n))) }
{
    match nth(items, n) {
        None => {
            let none = no_value(alloc, bound)?;
            Ok(none)
        }
        Some(v) => {
            let k = item_cell(alloc, cast, v, bound)?;
            Ok(k)
        }
    }
}
