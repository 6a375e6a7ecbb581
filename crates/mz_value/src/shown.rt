// Shown values. Each function but `show` appends its text to `out`.

ghost use Rattle.std.specs.Prelude.{◌≡◌, ◌++◌, ◌≤ℤ◌, IfOk, OnOk, map, string_bytes, codes};
ghost use Rattle.std.specs.List.{flat_map};
ghost use Rattle.mz_value.specs.Ranges.{AreCanonical};
ghost use Rattle.mz_value.specs.Contents.{case_names, content, contents, text_bytes};
ghost use Rattle.mz_value.specs.Shown.{AreShowable, IsCase, IsEnum, IsShowable, IsShowableSet, braces, interval, listed, name_at, names_of, range_elements, shown, shown_all, shown_integers, shown_set};
ghost use Rattle.mz_value.specs.Spelling.{AreSpelled, IsSpelled, spell};

use crate::text::push_number;
use crate::value::{Cases, SetValue, TextValue, Value};
use std::alloc::{AllocError, Global};

/// What stands between two items and between two elements.
const SEPARATOR: &str = ", ";

/// A value's text: `true`, `<>` where it is absent, a number, a case's name, a text as it is, a set
/// of integers as `1..3` where it is one range and not empty and else as `{1, 4}`, a set of an enum
/// as `{A, B}`, and an array of any dimensions as `[1, 2]`. The enums and cases that the value
/// speaks of have to be in `cases`.
pub fn show(alloc: Global, v: &Value, cases: &Cases) -> Result<TextValue, AllocError>
    requires { IsShowable (case_names cases.now) (content v.now) }
    ensures { IfOk result (λ t. text_bytes t ≡ shown (case_names cases.now) (content v.now)) }
{
    let mut text = String::new(alloc);
    push_value(v, cases, &mut text)?;
    Ok(TextValue { text })
}

#[cycle(show)]
#[tactic(auto, unfolding(crate::specs::Shown::shown))]
fn push_value(v: &Value, cases: &Cases, out: &mut String) -> Result<(), AllocError>
    requires { IsShowable (case_names cases.now) (content v.now) }
    ensures { OnOk result (string_bytes out.new
        ≡ string_bytes out.old ++ shown (case_names cases.now) (content v.now)) }
{
    match v {
        Value::Bool(true) => out.push_str("true"),
        Value::Bool(false) => out.push_str("false"),
        Value::Int(n) => push_number(*n, out),
        Value::Enum(e, k) => push_name(cases_of(cases, *e), *k, out),
        Value::Set(s) => push_set(s, cases, out),
        Value::Absent => out.push_str("<>"),
        Value::Text(t) => out.push_str(t.text.as_str()),
        Value::Array(a) => {
            out.push_str("[")?;
            push_items(&a.items, cases, out)?;
            out.push_str("]")
        }
    }
}

/// Items with commas between them.
#[cycle(show)]
#[tactic(auto, unfolding(crate::specs::Shown::shown_all))]
fn push_items(items: &[Value], cases: &Cases, out: &mut String) -> Result<(), AllocError>
    requires { AreShowable (case_names cases.now) (contents (map content items.now)) }
    ensures { OnOk result (string_bytes out.new ≡ string_bytes out.old
        ++ listed (shown_all (case_names cases.now) (contents (map content items.now)))) }
{
    match items {
        [] => Ok(()),
        [first, rest @ ..] => {
            push_value(first, cases, out)?;
            push_more_items(rest, cases, out)
        }
    }
}

/// Items with a comma before each.
#[cycle(show)]
#[tactic(auto, unfolding(crate::specs::Shown::shown_all))]
fn push_more_items(items: &[Value], cases: &Cases, out: &mut String) -> Result<(), AllocError>
    requires { AreShowable (case_names cases.now) (contents (map content items.now)) }
    ensures { OnOk result (string_bytes out.new ≡ string_bytes out.old
        ++ flat_map (λ t. codes ", " ++ t) (shown_all (case_names cases.now) (contents (map content items.now)))) }
{
    for x in items {
        out.push_str(SEPARATOR)?;
        push_value(x, cases, out)?;
    }
    Ok(())
}

/// The names of an enum's cases.
fn cases_of(cases: &Cases, e: u64) -> &[TextValue]
    requires { IsEnum (case_names cases.now) e }
    ensures { map text_bytes result.now ≡ names_of (case_names cases.now) e }
{
    cases.names[e as usize].as_slice()
}

fn push_name(names: &[TextValue], k: i64, out: &mut String) -> Result<(), AllocError>
    requires { IsCase (map text_bytes names.now) k }
    ensures { OnOk result (string_bytes out.new
        ≡ string_bytes out.old ++ name_at (map text_bytes names.now) k) }
{
    out.push_str(names[(k - 1) as usize].text.as_str())
}

fn push_set(s: &SetValue, cases: &Cases, out: &mut String) -> Result<(), AllocError>
    requires { IsShowableSet (case_names cases.now) s.now.of s.now.ranges }
    ensures { OnOk result (string_bytes out.new
        ≡ string_bytes out.old ++ shown_set (case_names cases.now) s.now.of s.now.ranges) }
{
    let ranges = s.ranges.ranges();
    match s.of {
        None => push_integers(ranges, out),
        Some(e) => push_braces(Spelling::Names(cases_of(cases, e)), ranges, out),
    }
}

fn push_integers(ranges: &[(i64, i64)], out: &mut String) -> Result<(), AllocError>
    requires { AreCanonical ranges.now }
    ensures { OnOk result (string_bytes out.new
        ≡ string_bytes out.old ++ shown_integers ranges.now) }
{
    match ranges {
        [only] => push_interval(*only, out),
        _ => push_braces(Spelling::Decimal, ranges, out),
    }
}

fn push_interval(range: (i64, i64), out: &mut String) -> Result<(), AllocError>
    ensures { OnOk result (string_bytes out.new ≡ string_bytes out.old ++ interval range) }
{
    push_number(range.0, out)?;
    out.push_str("..")?;
    push_number(range.1, out)
}

/// How an element of a set is spelled.
#[derive(Clone, Copy)]
enum Spelling<'a> {
    Decimal,
    Names(&'a [TextValue]),
}

/// All elements, in braces.
fn push_braces(s: Spelling<'_>, ranges: &[(i64, i64)], out: &mut String) -> Result<(), AllocError>
    requires canonical { AreCanonical ranges.now }
    requires spelled { AreSpelled s ranges.now }
    ensures { OnOk result (string_bytes out.new
        ≡ string_bytes out.old ++ braces (spell s.entry) ranges.now) }
{
    out.push_str("{")?;
    push_elements(s, ranges, out)?;
    out.push_str("}")
}

/// All elements, with commas between them.
fn push_elements(s: Spelling<'_>, ranges: &[(i64, i64)], out: &mut String) -> Result<(), AllocError>
    requires canonical { AreCanonical ranges.now }
    requires spelled { AreSpelled s ranges.now }
    ensures { OnOk result (string_bytes out.new
        ≡ string_bytes out.old ++ listed (map (spell s.entry) (flat_map range_elements ranges.now))) }
{
    match ranges {
        [] => Ok(()),
        [first, rest @ ..] => {
            push_range(s, *first, out)?;
            push_more_ranges(s, rest, out)
        }
    }
}

/// The elements of each range, with a comma before each range.
fn push_more_ranges(
    s: Spelling<'_>,
    ranges: &[(i64, i64)],
    out: &mut String,
) -> Result<(), AllocError>
    requires canonical { AreCanonical ranges.now }
    requires spelled { AreSpelled s ranges.now }
    ensures { OnOk result (string_bytes out.new ≡ string_bytes out.old
        ++ flat_map (λ r. codes ", " ++ listed (map (spell s.entry) (range_elements r))) ranges.now) }
{
    for r in ranges {
        out.push_str(SEPARATOR)?;
        push_range(s, *r, out)?;
    }
    Ok(())
}

/// The elements of a range, with commas between them.
fn push_range(s: Spelling<'_>, range: (i64, i64), out: &mut String) -> Result<(), AllocError>
    requires not_empty { range.0 ≤ℤ range.1 }
    requires low { IsSpelled s range.0 }
    requires high { IsSpelled s range.1 }
    ensures { OnOk result (string_bytes out.new
        ≡ string_bytes out.old ++ listed (map (spell s.entry) (range_elements range))) }
{
    let mut n = range.0;
    push_element(s, n, out)?;
    while n < range.1 {
        n += 1;
        out.push_str(SEPARATOR)?;
        push_element(s, n, out)?;
    }
    Ok(())
}

fn push_element(s: Spelling<'_>, n: i64, out: &mut String) -> Result<(), AllocError>
    requires { IsSpelled s n }
    ensures { OnOk result (string_bytes out.new ≡ string_bytes out.old ++ spell s.entry n) }
{
    match s {
        Spelling::Decimal => push_number(n, out),
        Spelling::Names(names) => push_name(names, n, out),
    }
}
