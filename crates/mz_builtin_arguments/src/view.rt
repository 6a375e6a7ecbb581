// What a value is, where it is of a kind: the code's reading of `Views`.

ghost use Rattle.std.specs.Prelude.{◌≡◌, map};
ghost use Rattle.std.specs.Option.{option_map};
ghost use Rattle.mz_value.specs.Contents.{content, text_bytes};
ghost use Rattle.mz_operations.specs.Values.{is_bounded, is_fixable};
ghost use Rattle.mz_operations.specs.Views as views;
ghost use Rattle.mz_builtin_arguments.specs.StepsViews.{row_items};

use mz_value::{ArrayValue, RangeSet, TextValue, Value};

/// A truth value.
#[tactic(auto, unfolding(mz_operations::specs::Views::as_bool))]
pub fn as_bool(v: &Value) -> Option<bool>
    ensures { result ≡ views.as_bool (content v.now) }
{
    match v {
        Value::Bool(b) => Some(*b),
        _ => None,
    }
}

/// An integer.
#[tactic(auto, unfolding(mz_operations::specs::Views::as_int))]
pub fn as_int(v: &Value) -> Option<i64>
    ensures { result ≡ views.as_int (content v.now) }
{
    match v {
        Value::Int(n) => Some(*n),
        _ => None,
    }
}

/// An enum's number and a case of it.
#[tactic(auto, unfolding(mz_operations::specs::Views::as_case))]
pub fn as_case(v: &Value) -> Option<(u64, i64)>
    ensures { result ≡ views.as_case (content v.now) }
{
    match v {
        Value::Enum(e, k) => Some((*e, *k)),
        _ => None,
    }
}

/// A set's ranges.
#[tactic(auto, unfolding(mz_operations::specs::Views::as_set))]
pub fn as_set(v: &Value) -> Option<&RangeSet>
    ensures { option_map (λ s. s.now) result ≡ views.as_set (content v.now) }
{
    match v {
        Value::Set(s) => Some(&s.ranges),
        _ => None,
    }
}

/// A text.
#[tactic(auto, unfolding(mz_operations::specs::Views::as_text))]
pub fn as_text(v: &Value) -> Option<&TextValue>
    ensures { option_map (λ t. text_bytes t.now) result ≡ views.as_text (content v.now) }
{
    match v {
        Value::Text(t) => Some(t),
        _ => None,
    }
}

/// An array's elements.
#[tactic(auto, unfolding(mz_operations::specs::Views::as_items))]
pub fn as_items(v: &Value) -> Option<&[Value]>
    ensures { option_map (λ xs. map content xs.now) result ≡ views.as_items (content v.now) }
{
    match v {
        Value::Array(a) => Some(a.items.as_slice()),
        _ => None,
    }
}

/// An array's index ranges.
#[tactic(auto, unfolding(mz_operations::specs::Views::as_index))]
pub fn as_index(v: &Value) -> Option<&[(i64, i64)]>
    ensures { option_map (λ rs. rs.now) result ≡ views.as_index (content v.now) }
{
    match v {
        Value::Array(a) => Some(a.index.as_slice()),
        _ => None,
    }
}

/// The elements of an array of one dimension.
#[tactic(auto, unfolding(mz_operations::specs::Views::as_row), using(crate::proofs::Views::items_in_contents, crate::proofs::Views::as_row_is))]
pub fn as_row(v: &Value) -> Option<&[Value]>
    ensures { option_map (λ xs. map content xs.now) result ≡ views.as_row (content v.now) }
{
    match v {
        Value::Array(a) => row_of(a),
        _ => None,
    }
}

fn row_of(a: &ArrayValue) -> Option<&[Value]>
    ensures { option_map (λ xs. map content xs.now) result ≡ row_items a.now.index.items (map content a.now.items.items) }
{
    match a.index.as_slice() {
        [_] => Some(a.items.as_slice()),
        _ => None,
    }
}

/// A truth value as 0 or 1, or the number of a case.
#[tactic(auto, unfolding(mz_operations::specs::Views::as_ordinal))]
pub fn as_ordinal(v: &Value) -> Option<i64>
    ensures { result ≡ views.as_ordinal (content v.now) }
{
    match v {
        Value::Bool(false) => Some(0),
        Value::Bool(true) => Some(1),
        Value::Enum(_, k) => Some(*k),
        _ => None,
    }
}

/// An integer, or the number of a case.
#[tactic(auto, unfolding(mz_operations::specs::Views::as_element))]
pub fn as_element(v: &Value) -> Option<i64>
    ensures { result ≡ views.as_element (content v.now) }
{
    match v {
        Value::Int(n) => Some(*n),
        Value::Enum(_, k) => Some(*k),
        _ => None,
    }
}

/// Two truth values, two integers, or two cases of one enum, as numbers.
#[tactic(auto, unfolding(mz_operations::specs::Views::as_pair))]
pub fn as_pair(v: &Value, w: &Value) -> Option<(i64, i64)>
    ensures { result ≡ views.as_pair (content v.now) (content w.now) }
{
    match (v, w) {
        (Value::Bool(a), Value::Bool(b)) => Some((*a as i64, *b as i64)),
        (Value::Int(m), Value::Int(n)) => Some((*m, *n)),
        (Value::Enum(d, j), Value::Enum(e, k)) if *d == *e => Some((*j, *k)),
        _ => None,
    }
}

/// Whether this is the value of an option that doesn't occur.
pub fn is_absent(v: &Value) -> bool
    ensures { result ≡ views.is_absent (content v.now) }
{
    match v {
        Value::Absent => true,
        _ => false,
    }
}

/// An absent value, a truth value, an integer or a case.
#[tactic(auto, unfolding(mz_operations::specs::Views::as_option, mz_operations::specs::Views::is_single))]
pub fn as_option(v: &Value) -> Option<&Value>
    ensures { option_map (λ x. content x.now) result ≡ views.as_option (content v.now) }
{
    match v {
        Value::Absent => Some(v),
        Value::Bool(_) => Some(v),
        Value::Int(_) => Some(v),
        Value::Enum(_, _) => Some(v),
        _ => None,
    }
}

/// The enum of a case or of a set of cases.
#[tactic(auto, unfolding(mz_operations::specs::Views::enum_of))]
pub fn enum_of(v: &Value) -> Option<u64>
    ensures { result ≡ views.enum_of (content v.now) }
{
    match v {
        Value::Enum(e, _) => Some(*e),
        Value::Set(s) => s.of,
        _ => None,
    }
}

/// Whether this is an integer or a set.
#[tactic(auto, unfolding(mz_operations::specs::Values::is_bounded))]
pub fn is_bounded(v: &Value) -> bool
    ensures { result ≡ is_bounded (content v.now) }
{
    match v {
        Value::Int(_) => true,
        Value::Set(_) => true,
        _ => false,
    }
}

/// Whether this is a truth value, an integer, a case or a set.
#[tactic(auto, unfolding(mz_operations::specs::Values::is_fixable, mz_operations::specs::Views::is_single))]
pub fn is_fixable(v: &Value) -> bool
    ensures { result ≡ is_fixable (content v.now) }
{
    match v {
        Value::Bool(_) => true,
        Value::Int(_) => true,
        Value::Enum(_, _) => true,
        Value::Set(_) => true,
        _ => false,
    }
}
