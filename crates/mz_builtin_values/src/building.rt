// Values of sets, texts and arrays, and index sets.

ghost use Rattle.std.specs.Prelude.{◌≡◌, IfOk, Some, map};
ghost use Rattle.std.specs.Option.{option_or};
ghost use Rattle.mz_value.specs.Contents.{bool, content, set, text, text_bytes};
ghost use Rattle.mz_operations.specs.Arrays.{element_of, line};

use mz_value::{RangeSet, SetValue, TextValue, Value};
use std::alloc::{AllocError, Global};

/// Index ranges, and whether all their sets are contiguous.
#[derive(Drop)]
pub struct IndexShape {
    pub contiguous: bool,
    pub ranges: Vec<(i64, i64)>,
}

/// A set of integers, or of the cases of this enum.
pub fn set_value(of: Option<u64>, ranges: RangeSet) -> Value
    ensures { content result ≡ set of ranges }
{
    Value::Set(SetValue { of, ranges })
}

/// The first that is there.
pub(crate) fn either(a: Option<u64>, b: Option<u64>) -> Option<u64>
    ensures { result ≡ option_or a b }
{
    match a {
        Some(e) => Some(e),
        None => b,
    }
}

pub(crate) fn text_value(t: TextValue) -> Value
    ensures { content result ≡ text (text_bytes t) }
{
    Value::Text(t)
}

pub(crate) fn bool_value(b: bool) -> Value
    ensures { content result ≡ bool b }
{
    Value::Bool(b)
}

/// An integer, or a case of this enum.
pub(crate) fn element_value(of: Option<u64>, n: i64) -> Value
    ensures { content result ≡ element_of of n }
{
    match of {
        None => Value::Int(n),
        Some(e) => Value::Enum(e, n),
    }
}

/// An array with the index set 1..n.
pub(crate) fn line_value(alloc: Global, items: Vec<Value>) -> Result<Value, AllocError>
    ensures { IfOk result (λ v. content v ≡ line (map content items.items)) }
{
    let mut index = Vec::new(alloc);
    index.push((1, items.len() as i64))?;
    Ok(Value::array(index, items))
}
