// Values, shapes and the names of enums' cases.

use crate::range_set::RangeSet;

/// A value of a parameter or of a solved variable.
#[derive(Debug, Drop)]
#[cycle(value)]
pub enum Value {
    Bool(bool),
    Int(i64),
    /// An enum's number and a case of it. The first case has number 1.
    Enum(u64, i64),
    Set(SetValue),
    /// The value of an option that doesn't occur.
    Absent,
    Text(TextValue),
    Array(ArrayValue),
}

impl Value {
    ghost use Rattle.std.specs.Prelude.{◌≡◌, map, None, Some};
    ghost use Rattle.mz_value.specs.Contents.{array, content, contents, set};

    /// A set of integers.
    pub fn integers(ranges: RangeSet) -> Value
        ensures { content result ≡ set None ranges }
    {
        Value::Set(SetValue { of: None, ranges })
    }

    /// A set of cases of the enum with number `e`, by the cases' numbers.
    pub fn cases(e: u64, ranges: RangeSet) -> Value
        ensures { content result ≡ set (Some e) ranges }
    {
        Value::Set(SetValue {
            of: Some(e),
            ranges,
        })
    }

    /// An array of these items, the last index moving first.
    pub fn array(index: Vec<(i64, i64)>, items: Vec<Value>) -> Value
        ensures { content result ≡ array index.items (contents (map content items.items)) }
    {
        Value::Array(ArrayValue { index, items })
    }
}

/// A set of integers, or of an enum's cases.
#[derive(Debug, Drop)]
pub struct SetValue {
    /// The enum's number; `None` for integers.
    pub of: Option<u64>,
    /// The integers, or the cases' numbers.
    pub ranges: RangeSet,
}

/// An array.
#[derive(Debug, Drop)]
#[cycle(value)]
pub struct ArrayValue {
    /// The least and the greatest index of each dimension, both inclusive.
    pub index: Vec<(i64, i64)>,
    /// The items, the last index moving first.
    pub items: Vec<Value>,
}

/// A text.
#[derive(Debug, Drop)]
pub struct TextValue {
    pub text: String,
}

/// The names of each enum's cases. An enum's number is its place here, from 0.
#[derive(Debug, Drop)]
pub struct Cases {
    pub names: Vec<Vec<TextValue>>,
}

/// The type of one element.
#[derive(Clone, Copy, Debug, PartialEq, Eq)]
pub enum ShapeBase {
    Bool,
    Int,
    Enum(u64),
    SetInt,
    SetEnum(u64),
}

/// What values a declared name may have.
#[derive(Debug, Drop)]
pub struct Shape {
    pub label: TextValue,
    /// Whether the elements are options.
    pub opt: bool,
    pub base: ShapeBase,
    /// The least and the greatest index of each dimension of an array, both inclusive.
    pub index: Option<Vec<(i64, i64)>>,
    /// The domain of each element, in the items' order.
    pub domains: Vec<RangeSet>,
}

/// A value for each shape, in the shapes' order.
#[derive(Debug, Drop)]
pub struct Assign {
    pub values: Vec<Value>,
}
