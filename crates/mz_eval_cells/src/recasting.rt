// Values as values of another base.

ghost use Rattle.std.specs.Prelude.{◌≡◌, IfOk, List, None, Option, Some, map, ℕ};
ghost use Rattle.mz_value.specs.Contents as values;
ghost use Rattle.mz_value.specs.Contents.{Content, content, contents};
ghost use Rattle.mz_core.specs.declared.types.Base.TheVariants as base;
ghost use Rattle.std.specs.Option.{option_map};
ghost use Rattle.mz_value.specs.Ranges.{Range};
ghost use Rattle.mz_operations.specs.Bounds as bounds;
ghost use Rattle.mz_arena.specs.Values.{Term};
ghost use Rattle.mz_meaning.specs.Cells.{Var, held, par_value};
ghost use Rattle.mz_meaning.specs.Coerced as coercions;
ghost use Rattle.mz_symbol.specs.Readings.{Reading};
ghost use Rattle.mz_eval_cells.specs.StepsCasts.{is_set_cast};
ghost use Rattle.mz_eval_cells.specs.Views.{cast_by, cell_of, item_content, known_bound, row_content, seen, var_content};

use crate::making::{array, known_of, undefined};
use crate::sharing::{share, share_bound, share_item, share_origin, share_origins};
use crate::types::{Item, Known, VarItems, VarValue};
use mz_builtin_arguments::copied;
use mz_core::Base;
use mz_value::{SetValue, Value};
use std::alloc::{AllocError, Global};
use std::rc::Rc;

fn to_truth(v: Value) -> Value
    ensures { content result ≡ coercions.recast base.Bool (content v) }
{
    match v {
        Value::Int(n) => Value::Bool(n != 0),
        other => other,
    }
}

fn to_integer(v: Value) -> Value
    ensures { content result ≡ coercions.recast base.Int (content v) }
{
    match v {
        Value::Bool(b) => Value::Int(b as i64),
        Value::Enum(_, k) => Value::Int(k),
        other => other,
    }
}

fn to_case(e: u64, v: Value) -> Value
    ensures { content result ≡ coercions.recast (base.Enum e) (content v) }
{
    match v {
        Value::Int(n) => Value::Enum(e, n),
        other => other,
    }
}

fn set_under(of: Option<u64>, s: SetValue) -> Value
    ensures { content result ≡ values.set of s.ranges }
{
    let SetValue { of: _, ranges } = s;
    Value::Set(SetValue { of, ranges })
}

fn to_integers(v: Value) -> Value
    ensures { content result ≡ coercions.recast base.SetInt (content v) }
{
    match v {
        Value::Set(s) => set_under(None, s),
        other => other,
    }
}

fn to_cases(e: u64, v: Value) -> Value
    ensures { content result ≡ coercions.recast (base.SetEnum e) (content v) }
{
    match v {
        Value::Set(s) => set_under(Some(e), s),
        other => other,
    }
}

/// A value as one of this base: false and true are 0 and 1, a case is its number, and a set has the
/// enum of its base. A number becomes a truth value, false where it is 0, or a case. All else stays.
pub fn recast(b: Base, v: Value) -> Value
    ensures { content result ≡ coercions.recast b (content v) }
{
    match b {
        Base::Bool => to_truth(v),
        Base::Int => to_integer(v),
        Base::Enum(e) => to_case(e, v),
        Base::SetInt => to_integers(v),
        Base::SetEnum(e) => to_cases(e, v),
        Base::SetBottom => v,
        Base::Text => v,
        Base::Bottom => v,
    }
}

/// Copies of all values, each as one of this base.
fn recast_items(alloc: Global, b: Base, xs: &[Value]) -> Result<Vec<Value>, AllocError>
    ensures { IfOk result (λ all. map content all.items ≡ map (coercions.recast b) (map content xs.now)) }
{
    let mut all = Vec::new(alloc);
    for x in xs {
        let copy = copied(alloc, x)?;
        let v = recast(b, copy);
        all.push(v)?;
    }
    Ok(all)
}

#[tactic(auto, using(mz_builtin_arguments::proofs::Views::items_in_contents))]
fn recast_array(
    alloc: Global,
    b: Base,
    index: &[(i64, i64)],
    items: &[Value],
) -> Result<Known, AllocError>
    ensures of { IfOk result (λ k. cell_of k ≡ par_value (coercions.recast_all b (values.array index.now (contents (map content items.now))))) }
    ensures seen { IfOk result (λ k. (r : Reading) → seen r k ≡ par_value (coercions.recast_all b (values.array index.now (contents (map content items.now))))) }
{
    let ranges = Vec::from_slice(alloc, index)?;
    let all = recast_items(alloc, b, items)?;
    array(alloc, ranges, all)
}

#[tactic(auto, using(crate::proofs::Items::recast_item))]
fn recast_item(alloc: Global, b: Base, i: &Item) -> Result<Known, AllocError>
    ensures of { IfOk result (λ k. cell_of k ≡ par_value (coercions.recast_all b (item_content i.now))) }
    ensures seen { IfOk result (λ k. (r : Reading) → seen r k ≡ par_value (coercions.recast_all b (item_content i.now))) }
{
    let same = share_item(i)?;
    let v = same.into_value(alloc)?;
    known_of(alloc, Some(recast(b, v)))
}

/// Whether values of this base are sets.
fn is_set_cast(b: Base) -> bool
    ensures { result ≡ is_set_cast b }
{
    match b {
        Base::SetInt => true,
        Base::SetEnum(_) => true,
        _ => false,
    }
}

/// What recasts to this base after a first one. It is known of sets alone: else out of memory.
fn sets_cast(first: Base, b: Base) -> Result<Option<Base>, AllocError>
    ensures { IfOk result (λ c. (v : Option Content) → cast_by c v ≡ option_map (coercions.recast_all b) (cast_by (Some first) v)) }
{
    if is_set_cast(first) {
        if is_set_cast(b) {
            return Ok(Some(b));
        }
    }
    Err(AllocError)
}

/// What recasts as one that is there does, and then to this base.
fn cast_after(first: Option<Base>, b: Base) -> Result<Option<Base>, AllocError>
    ensures { IfOk result (λ c. (v : Option Content) → cast_by c v ≡ option_map (coercions.recast_all b) (cast_by first v)) }
{
    match first {
        None => Ok(Some(b)),
        Some(a) => sets_cast(a, b),
    }
}

/// A var value as one of this base.
fn value_cast(b: Base, v: &VarValue) -> Result<VarValue, AllocError>
    ensures bound { IfOk result (λ x. known_bound x.bound ≡ known_bound v.now.bound) }
    ensures content { IfOk result (λ x. (t : ℕ → Term) → var_content t x ≡ option_map (coercions.recast_all b) (var_content t v.now)) }
{
    let cast = cast_after(v.cast, b)?;
    let bound = share_bound(&v.bound)?;
    let origin = share_origin(&v.origin)?;
    Ok(VarValue {
        bound,
        origin,
        cast,
    })
}

/// The elements of a var array as ones of this base.
fn items_cast(b: Base, xs: &VarItems) -> Result<VarItems, AllocError>
    ensures bounds { IfOk result (λ x. x.bounds.value ≡ xs.now.bounds.value) }
    ensures content { IfOk result (λ x. (l : ℕ → Option (List Content)) (ix : List Range) → row_content l ix x ≡ option_map (coercions.recast_all b) (row_content l ix xs.now)) }
{
    let cast = cast_after(xs.cast, b)?;
    let bounds = xs.bounds.clone()?;
    let origins = share_origins(&xs.origins)?;
    Ok(VarItems {
        bounds,
        origins,
        cast,
    })
}

#[tactic(auto, using(crate::proofs::Held::held_map))]
fn recast_value(alloc: Global, b: Base, v: &VarValue) -> Result<Known, AllocError>
    ensures of { IfOk result (λ k. cell_of k ≡ Var (bounds.one (known_bound v.now.bound)) None) }
    ensures seen { IfOk result (λ k. (r : Reading) → seen r k ≡ coercions.recast_cell b (Var (bounds.one (known_bound v.now.bound)) (held r.mode (var_content r.term v.now)))) }
{
    let value = value_cast(b, v)?;
    let held = Rc::new(alloc, value)?;
    Ok(Known::Var(held))
}

#[tactic(auto, using(crate::proofs::Held::held_map))]
fn recast_row(
    alloc: Global,
    b: Base,
    index: &Rc<Vec<(i64, i64)>>,
    xs: &VarItems,
) -> Result<Known, AllocError>
    ensures of { IfOk result (λ k. cell_of k ≡ Var (bounds.many index.now.value.items (map known_bound xs.now.bounds.value.items)) None) }
    ensures seen { IfOk result (λ k. (r : Reading) → seen r k
        ≡ coercions.recast_cell b (Var (bounds.many index.now.value.items (map known_bound xs.now.bounds.value.items)) (held r.mode (row_content r.line index.now.value.items xs.now)))) }
{
    let items = items_cast(b, xs)?;
    let held = Rc::new(alloc, items)?;
    Ok(Known::Row(index.clone()?, held))
}

/// A cell as one of this base, an array element by element; the bounds of a var one stay.
///
/// Out of memory too where a var one that is no set is recast already.
pub(crate) fn recast_cell(alloc: Global, b: Base, k: &Known) -> Result<Known, AllocError>
    ensures of { IfOk result (λ x. cell_of x ≡ coercions.recast_cell b (cell_of k.now)) }
    ensures seen { IfOk result (λ x. (r : Reading) → seen r x ≡ coercions.recast_cell b (seen r k.now)) }
{
    match k {
        Known::Undefined => Ok(undefined()),
        Known::One(i) => recast_item(alloc, b, i),
        Known::Array(index, items) => recast_array(alloc, b, index.as_slice(), items.as_slice()),
        Known::Var(v) => recast_value(alloc, b, v),
        Known::Row(index, xs) => recast_row(alloc, b, index, xs),
        Known::Unshaped(_) => share(k),
    }
}
