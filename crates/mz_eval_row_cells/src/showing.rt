// `show`, with the names of the program's cases.

ghost use Rattle.std.specs.Prelude.{◌≡◌, ◌&&◌, IfOk, IsTrue, Some, length, map, nat_lt};
ghost use Rattle.std.specs.Option.{option_map};
ghost use Rattle.mz_value.specs.Contents.{case_names, content, contents, text, text_bytes};
ghost use Rattle.mz_value.specs.Shown as words;
ghost use Rattle.mz_value.specs.Shown.{IsEnum, IsShowable, names_of};
ghost use Rattle.mz_operations.specs.Arguments.{arguments};
ghost use Rattle.mz_meaning.specs.Operations as operations;
ghost use Rattle.mz_eval_row_cells.specs.Steps as steps;

use mz_builtin_arguments::argument;
use mz_value::{Cases, SetValue, TextValue, Value, show};
use std::alloc::{AllocError, Global};

/// Whether a case with this number is among these, the first being 1.
#[tactic(auto, using(crate::proofs::Shown::as_many))]
fn has_case(labels: &[TextValue], k: i64) -> bool
    ensures { result ≡ operations.has_case (map text_bytes labels.now) k }
{
    1 <= k && k <= labels.len() as i64
}

/// Whether the enum with this number is there.
#[tactic(auto, using(crate::proofs::Shown::as_many))]
fn has_enum(cases: &Cases, e: u64) -> bool
    ensures told { result ≡ nat_lt e (length (case_names cases.now)) }
    ensures there { IsTrue result → IsEnum (case_names cases.now) e }
{
    e < cases.names.len() as u64
}

/// The names of an enum's cases.
fn labels_of(cases: &Cases, e: u64) -> &[TextValue]
    requires { IsEnum (case_names cases.now) e }
    ensures { map text_bytes result.now ≡ names_of (case_names cases.now) e }
{
    cases.names[e as usize].as_slice()
}

/// Whether an enum has the case with this number.
fn is_case(cases: &Cases, e: u64, k: i64) -> bool
    ensures { result ≡ steps.is_case (case_names cases.now) e k }
{
    has_enum(cases, e) && has_case(labels_of(cases, e), k)
}

fn has_both(labels: &[TextValue], r: &(i64, i64)) -> bool
    ensures { result ≡ (operations.has_case (map text_bytes labels.now) r.now.0 && operations.has_case (map text_bytes labels.now) r.now.1) }
{
    has_case(labels, r.0) && has_case(labels, r.1)
}

/// Whether the ends of all ranges are numbers of cases.
fn has_ranges(labels: &[TextValue], ranges: &[(i64, i64)]) -> bool
    ensures { result ≡ steps.has_ranges (map text_bytes labels.now) ranges.now }
{
    ranges.iter().all(|r| has_both(labels, r))
}

fn has_cases(cases: &Cases, s: &SetValue) -> bool
    ensures { result ≡ operations.has_cases (case_names cases.now) s.now.of s.now.ranges }
{
    let ranges = s.ranges.ranges();
    match s.of {
        None => true,
        Some(e) => has_all(cases, e, ranges),
    }
}

fn has_all(cases: &Cases, e: u64, ranges: &[(i64, i64)]) -> bool
    ensures { result ≡ operations.has_cases (case_names cases.now) (Some e) ranges.now }
{
    has_enum(cases, e) && has_ranges(labels_of(cases, e), ranges)
}

/// Whether the enums and the cases of a value are there.
#[cycle(showable)]
#[tactic(auto, unfolding(mz_meaning::specs::Operations::is_showable))]
fn is_showable(cases: &Cases, v: &Value) -> bool
    ensures { result ≡ operations.is_showable (case_names cases.now) (content v.now) }
{
    match v {
        Value::Bool(_) => true,
        Value::Int(_) => true,
        Value::Enum(e, k) => is_case(cases, *e, *k),
        Value::Set(s) => has_cases(cases, s),
        Value::Absent => true,
        Value::Text(_) => true,
        Value::Array(a) => are_showable(cases, &a.items),
    }
}

#[cycle(showable)]
#[tactic(auto, unfolding(mz_meaning::specs::Operations::are_showable))]
fn are_showable(cases: &Cases, items: &[Value]) -> bool
    ensures { result ≡ operations.are_showable (case_names cases.now) (contents (map content items.now)) }
{
    for x in items {
        if !is_showable(cases, x) {
            return false;
        }
    }
    true
}

/// The text of a value that may be shown.
fn shown_text(alloc: Global, cases: &Cases, v: &Value) -> Result<Option<Value>, AllocError>
    requires { IsShowable (case_names cases.now) (content v.now) }
    ensures { IfOk result (λ t. option_map content t ≡ Some (text (words.shown (case_names cases.now) (content v.now)))) }
{
    let words = show(alloc, v, cases)?;
    Ok(Some(Value::Text(words)))
}

fn text_of(alloc: Global, cases: &Cases, v: &Value) -> Result<Option<Value>, AllocError>
    ensures { IfOk result (λ t. option_map content t ≡ steps.shown_if (case_names cases.now) (content v.now)) }
{
    if is_showable(cases, v) {
        let t = shown_text(alloc, cases, v)?;
        Ok(t)
    } else {
        Ok(None)
    }
}

/// The text of the first argument; `None` where it is undefined, and where it speaks of an enum or
/// a case that isn't there.
#[tactic(auto, unfolding(mz_operations::specs::Arguments::at))]
pub(crate) fn shown(
    alloc: Global,
    cases: &Cases,
    args: &[Option<Value>],
) -> Result<Option<Value>, AllocError>
    ensures { IfOk result (λ t. option_map content t ≡ steps.shown_of (case_names cases.now) (arguments args.now)) }
{
    match argument(args, 0) {
        None => Ok(None),
        Some(v) => text_of(alloc, cases, v),
    }
}
