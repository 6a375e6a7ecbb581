// Cells and bounds, and the way back from a cell to its value.

ghost use Rattle.std.specs.Prelude.{◌≡◌, IfOk, map};
ghost use Rattle.mz_value.specs.Contents as values;
ghost use Rattle.mz_value.specs.Contents.{content, contents, text_bytes};

use mz_arena::Id;
use mz_builtin_arguments::{copied_items, copied_text};
use mz_core::Base;
use mz_symbol::Symbol;
use mz_value::{RangeSet, SetValue, TextValue, Value};
use std::alloc::{AllocError, Global};
use std::rc::Rc;

/// A par value that is no array. A set and a text may be held by several cells.
pub enum Item {
    Bool(bool),
    Int(i64),
    /// An enum's number and a case of it. The first case has number 1.
    Enum(u64, i64),
    /// The value of an option that doesn't occur.
    Absent,
    Set(Rc<SetValue>),
    Text(Rc<TextValue>),
}

impl Drop for Item {
    fn drop(self) {
        match self {
            Item::Bool(_) => {}
            Item::Int(_) => {}
            Item::Enum(_, _) => {}
            Item::Absent => {}
            Item::Set(_set) => {}
            Item::Text(_text) => {}
        }
    }
}

/// The bounds of one value: the least and the greatest number, both inclusive and perhaps outside
/// the limit; or what a set has at least, and what it has at most.
#[derive(Drop)]
pub enum Bound {
    Number(i64, i64),
    Sets(Rc<RangeSet>, Rc<RangeSet>),
}

/// The bounds of a value, or of an array: the least and the greatest index of each dimension, both
/// inclusive, and the bounds of its elements, the last index moving first.
#[derive(Drop)]
pub enum Bounds {
    One(Bound),
    Many(Rc<Vec<(i64, i64)>>, Rc<Vec<Bound>>),
}

/// What tells the value of a var cell that is no array.
pub enum Origin {
    /// Nothing: the value is undefined. An evaluation without values makes no other.
    Nothing,
    /// A par value that has become var.
    Item(Item),
    /// The nodes of a symbol. A Boolean that is no option is false in place of undefined.
    Symbol(Symbol),
    /// A Boolean's nodes: it is true where the first is true; else false where the second is true,
    /// and undefined elsewhere.
    Truth(Id, Id),
}

impl Drop for Origin {
    fn drop(self) {
        match self {
            Origin::Nothing => {}
            Origin::Item(_item) => {}
            Origin::Symbol(_) => {}
            Origin::Truth(_, _) => {}
        }
    }
}

/// What tells the values of a var array's elements.
pub enum Origins {
    /// Nothing: the array is undefined. An evaluation without values makes no other.
    Nothing,
    /// Par values that have become var.
    Values(Rc<Vec<Value>>),
    /// The elements of the run's array with this number.
    Line(u64),
}

impl Drop for Origins {
    fn drop(self) {
        match self {
            Origins::Nothing => {}
            Origins::Values(_items) => {}
            Origins::Line(_) => {}
        }
    }
}

/// A var value that is no array: its bounds, and what tells it.
#[derive(Drop)]
pub struct VarValue {
    pub bound: Bound,
    pub origin: Origin,
    /// The base that the value is recast to. None where it stays.
    pub cast: Option<Base>,
}

/// The elements of a var array: their bounds, and what tells them.
#[derive(Drop)]
pub struct VarItems {
    pub bounds: Rc<Vec<Bound>>,
    pub origins: Origins,
    /// The base that the elements are recast to. None where they stay.
    pub cast: Option<Base>,
}

/// What an evaluation has for an expression.
///
/// Index ranges stand beside the elements, so that other index ranges leave these alone. Elements
/// and ranges may be held by several cells.
pub enum Known {
    /// A par value that is undefined.
    Undefined,
    /// A par value that is no array.
    One(Item),
    /// A par array: its index ranges, and its elements, the last index moving first.
    Array(Rc<Vec<(i64, i64)>>, Rc<Vec<Value>>),
    /// A var value that is no array.
    Var(Rc<VarValue>),
    /// A var array: its index ranges, and its elements.
    Row(Rc<Vec<(i64, i64)>>, Rc<VarItems>),
    /// An undefined par array of this many dimensions that has become var.
    Unshaped(u64),
}

impl Drop for Known {
    fn drop(self) {
        match self {
            Known::Undefined => {}
            Known::One(_item) => {}
            Known::Array(_index, _items) => {}
            Known::Var(_value) => {}
            Known::Row(_index, _items) => {}
            Known::Unshaped(_) => {}
        }
    }
}

/// Whether all that is declared holds: `par` where par cells alone tell it, `is` where it holds.
#[derive(Clone, Copy, Debug, PartialEq, Eq)]
pub struct Sure {
    pub par: bool,
    pub is: bool,
}

fn set_copied(alloc: Global, s: &SetValue) -> Result<Value, AllocError>
    ensures { IfOk result (λ v. content v ≡ values.set s.now.of s.now.ranges) }
{
    let ranges = s.ranges.copy(alloc)?;
    Ok(Value::Set(SetValue { of: s.of, ranges }))
}

fn set_given(alloc: Global, s: Rc<SetValue>) -> Result<Value, AllocError>
    ensures { IfOk result (λ v. content v ≡ values.set s.value.of s.value.ranges) }
{
    match Rc::try_unwrap(s) {
        Ok(set) => Ok(Value::Set(set)),
        Err(shared) => set_copied(alloc, &shared),
    }
}

fn text_given(alloc: Global, t: Rc<TextValue>) -> Result<Value, AllocError>
    ensures { IfOk result (λ v. content v ≡ values.text (text_bytes t.value)) }
{
    match Rc::try_unwrap(t) {
        Ok(text) => Ok(Value::Text(text)),
        Err(shared) => Ok(Value::Text(copied_text(alloc, &shared)?)),
    }
}

fn items_given(alloc: Global, items: Rc<Vec<Value>>) -> Result<Vec<Value>, AllocError>
    ensures { IfOk result (λ all. map content all.items ≡ map content items.value.items) }
{
    match Rc::try_unwrap(items) {
        Ok(all) => Ok(all),
        Err(shared) => copied_items(alloc, shared.as_slice()),
    }
}

fn ranges_given(alloc: Global, index: Rc<Vec<(i64, i64)>>) -> Result<Vec<(i64, i64)>, AllocError>
    ensures { IfOk result (λ all. all.items ≡ index.value.items) }
{
    match Rc::try_unwrap(index) {
        Ok(all) => Ok(all),
        Err(shared) => Vec::from_slice(alloc, shared.as_slice()),
    }
}

fn array_given(
    alloc: Global,
    index: Rc<Vec<(i64, i64)>>,
    items: Rc<Vec<Value>>,
) -> Result<Value, AllocError>
    ensures { IfOk result (λ v. content v ≡ values.array index.value.items (contents (map content items.value.items))) }
{
    let ranges = ranges_given(alloc, index)?;
    let all = items_given(alloc, items)?;
    Ok(Value::array(ranges, all))
}

impl Item {
    ghost use Rattle.std.specs.Prelude.{◌≡◌, IfOk};
    ghost use Rattle.mz_value.specs.Contents.{content};
    ghost use Rattle.mz_eval_cells.specs.Views.{item_content};

    /// The value, of which a set or a text is copied only where another cell holds it too.
    pub fn into_value(self, alloc: Global) -> Result<Value, AllocError>
        ensures { IfOk result (λ v. content v ≡ item_content self) }
    {
        match self {
            Item::Bool(b) => Ok(Value::Bool(b)),
            Item::Int(n) => Ok(Value::Int(n)),
            Item::Enum(e, k) => Ok(Value::Enum(e, k)),
            Item::Absent => Ok(Value::Absent),
            Item::Set(s) => set_given(alloc, s),
            Item::Text(t) => text_given(alloc, t),
        }
    }
}

impl Known {
    ghost use Rattle.std.specs.Prelude.{◌≡◌, IfOk};
    ghost use Rattle.std.specs.Option.{option_map};
    ghost use Rattle.mz_value.specs.Contents.{content};
    ghost use Rattle.mz_meaning.specs.Cells.{value_of};
    ghost use Rattle.mz_eval_cells.specs.Views.{cell_of};

    /// The value, of which a set, a text or an array is copied only where another cell holds it too:
    /// `None` of an undefined or var cell.
    pub fn into_value(self, alloc: Global) -> Result<Option<Value>, AllocError>
        ensures { IfOk result (λ v. option_map content v ≡ value_of (cell_of self)) }
    {
        match self {
            Known::Undefined => Ok(None),
            Known::One(i) => Ok(Some(i.into_value(alloc)?)),
            Known::Array(index, items) => Ok(Some(array_given(alloc, index, items)?)),
            Known::Var(_value) => Ok(None),
            Known::Row(_index, _items) => Ok(None),
            Known::Unshaped(_) => Ok(None),
        }
    }
}
