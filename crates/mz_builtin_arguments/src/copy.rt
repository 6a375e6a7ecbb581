// Copies of values.

ghost use Rattle.std.specs.Prelude.{◌≡◌, ◌++◌, IfOk, OnOk, map};
ghost use Rattle.mz_value.specs.Contents.{content, text_bytes};

use mz_value::{ArrayValue, SetValue, TextValue, Value};
use std::alloc::{AllocError, Global};

/// A copy of a text.
pub fn copied_text(alloc: Global, t: &TextValue) -> Result<TextValue, AllocError>
    ensures { IfOk result (λ u. text_bytes u ≡ text_bytes t.now) }
{
    let text = String::from_str(alloc, t.text.as_str())?;
    Ok(TextValue { text })
}

/// A copy of a value.
#[cycle(copies)]
pub fn copied(alloc: Global, v: &Value) -> Result<Value, AllocError>
    ensures { IfOk result (λ c. content c ≡ content v.now) }
{
    match v {
        Value::Bool(b) => Ok(Value::Bool(*b)),
        Value::Int(n) => Ok(Value::Int(*n)),
        Value::Enum(e, k) => Ok(Value::Enum(*e, *k)),
        Value::Set(s) => set_value(alloc, s),
        Value::Absent => Ok(Value::Absent),
        Value::Text(t) => text_value(alloc, t),
        Value::Array(a) => array_value(alloc, a),
    }
}

fn set_value(alloc: Global, s: &SetValue) -> Result<Value, AllocError>
    ensures { IfOk result (λ c. content c ≡ content (Value.Set s.now)) }
{
    let ranges = s.ranges.copy(alloc)?;
    Ok(Value::Set(SetValue { of: s.of, ranges }))
}

fn text_value(alloc: Global, t: &TextValue) -> Result<Value, AllocError>
    ensures { IfOk result (λ c. content c ≡ content (Value.Text t.now)) }
{
    let text = copied_text(alloc, t)?;
    Ok(Value::Text(text))
}

#[cycle(copies)]
fn array_value(alloc: Global, a: &ArrayValue) -> Result<Value, AllocError>
    ensures { IfOk result (λ c. content c ≡ content (Value.Array a.now)) }
{
    let index = Vec::from_slice(alloc, &a.index)?;
    let items = copied_items(alloc, &a.items)?;
    Ok(Value::array(index, items))
}

/// Copies of all items.
#[cycle(copies)]
pub fn copied_items(alloc: Global, items: &[Value]) -> Result<Vec<Value>, AllocError>
    ensures { IfOk result (λ all. map content all.items ≡ map content items.now) }
{
    let mut all = Vec::new(alloc);
    for x in items {
        let copy = copied(alloc, x)?;
        all.push(copy)?;
    }
    Ok(all)
}

/// Appends copies of all items.
pub fn push_copies(alloc: Global, all: &mut Vec<Value>, items: &[Value]) -> Result<(), AllocError>
    ensures { OnOk result (map content all.new.items ≡ map content all.old.items ++ map content items.now) }
{
    for x in items {
        let copy = copied(alloc, x)?;
        all.push(copy)?;
    }
    Ok(())
}
