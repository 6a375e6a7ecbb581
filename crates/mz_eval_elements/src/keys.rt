// Keys under which the lines of arrays are noted. Nothing is promised of them.

use mz_core::Base;
use mz_eval_cells::{Known, Origins, VarItems};
use mz_value::Value;

fn mixed(key: u64, n: u64) -> u64 {
    (key ^ n).wrapping_mul(0x9E37_79B9_7F4A_7C15)
}

fn base_key(base: Base) -> u64 {
    match base {
        Base::Bool => 1,
        Base::Int => 2,
        Base::Enum(e) => mixed(3, e),
        Base::SetInt => 4,
        Base::SetEnum(e) => mixed(5, e),
        Base::SetBottom => 6,
        Base::Text => 7,
        Base::Bottom => 8,
    }
}

fn cast_key(key: u64, cast: Option<Base>) -> u64 {
    match cast {
        None => key,
        Some(b) => mixed(key, base_key(b)),
    }
}

fn value_key(v: &Value) -> u64 {
    match v {
        Value::Bool(b) => mixed(11, *b as u64),
        Value::Int(n) => mixed(12, n.cast_unsigned()),
        Value::Enum(e, k) => mixed(mixed(13, *e), k.cast_unsigned()),
        Value::Set(_) => 14,
        Value::Absent => 15,
        Value::Text(_) => 16,
        Value::Array(_) => 17,
    }
}

fn values_key(start: u64, items: &[Value]) -> u64 {
    let mut key = start;
    for v in items {
        key = mixed(key, value_key(v));
    }
    key
}

fn row_key(start: u64, xs: &VarItems) -> u64 {
    let key = cast_key(start, xs.cast);
    match &xs.origins {
        Origins::Nothing => 18,
        Origins::Values(items) => values_key(key, items.as_slice()),
        Origins::Line(line) => mixed(mixed(key, 19), *line),
    }
}

/// The key of an array whose elements have this base.
pub(crate) fn key_of(base: Base, k: &Known) -> u64 {
    match k {
        Known::Array(_, items) => values_key(base_key(base), items.as_slice()),
        Known::Row(_, xs) => row_key(base_key(base), xs),
        _ => 20,
    }
}
