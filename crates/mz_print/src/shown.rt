// A value in a line of the default text.

ghost use Rattle.std.specs.Prelude.{◌≡◌, ◌++◌, ◌∷◌, ◌+◌, ◌≤◌, OnOk, Some, codes, length, map};
ghost use Rattle.std.specs.Fmt.{signed_decimal};
ghost use Rattle.std.specs.List.{flat_map};
ghost use Rattle.mz_value.specs.Contents.{case_names, content};
ghost use Rattle.mz_value.specs.Ranges.{range_of};
ghost use Rattle.mz_value.specs.Shown.{IsShowable, shown, shown_integers};
ghost use Rattle.mz_print.specs.Output.{default_line, default_value, index_text};
ghost use Rattle.mz_print.specs.Printable.{CanPrint, HasFewDims};

use crate::sound::sets_are_sound;
use mz_base::Memory;
use mz_value::{ArrayValue, Cases, Value, show};
use std::alloc::Global;

/// Appends a value as `show` shows it.
fn push_shown(alloc: Global, cases: &Cases, v: &Value, out: &mut Vec<u8>) -> Result<(), Memory>
    requires { IsShowable (case_names cases.now) (content v.now) }
    ensures { OnOk result (out.new.items ≡ out.old.items ++ shown (case_names cases.now) (content v.now)) }
{
    let shown = show(alloc, v, cases)?;
    out.extend_from_slice(shown.text.as_bytes())?;
    Ok(())
}

#[tactic(auto, unfolding(mz_value::specs::Shown::shown))]
fn push_int(alloc: Global, cases: &Cases, n: i64, out: &mut Vec<u8>) -> Result<(), Memory>
    ensures { OnOk result (out.new.items ≡ out.old.items ++ signed_decimal n) }
{
    let v = Value::Int(n);
    push_shown(alloc, cases, &v, out)
}

fn push_interval(
    alloc: Global,
    cases: &Cases,
    range: &(i64, i64),
    out: &mut Vec<u8>,
) -> Result<(), Memory>
    ensures { OnOk result (out.new.items ≡ out.old.items ++ (signed_decimal range.now.0 ++ (codes ".." ++ signed_decimal range.now.1))) }
{
    push_int(alloc, cases, range.0, out)?;
    out.extend_from_slice(b"..")?;
    push_int(alloc, cases, range.1, out)
}

/// Appends an index set as a set of integers, and a comma.
fn push_range(
    alloc: Global,
    cases: &Cases,
    range: &(i64, i64),
    out: &mut Vec<u8>,
) -> Result<(), Memory>
    ensures { OnOk result (out.new.items ≡ out.old.items ++ (shown_integers (range_of range.now.0 range.now.1) ++ codes ", ")) }
{
    if range.0 <= range.1 {
        push_interval(alloc, cases, range, out)?;
        out.extend_from_slice(b", ")?;
    } else {
        out.extend_from_slice(b"{}, ")?;
    }
    Ok(())
}

fn push_index(
    alloc: Global,
    cases: &Cases,
    index: &[(i64, i64)],
    out: &mut Vec<u8>,
) -> Result<(), Memory>
    ensures { OnOk result (out.new.items ≡ out.old.items ++ index_text index.now) }
{
    for range in index {
        push_range(alloc, cases, range, out)?;
    }
    Ok(())
}

/// Appends the beginning of an array's call, up to its elements.
fn push_head(
    alloc: Global,
    cases: &Cases,
    index: &[(i64, i64)],
    out: &mut Vec<u8>,
) -> Result<(), Memory>
    requires { length index.now ≤ 6 }
    ensures { OnOk result (out.new.items ≡ out.old.items ++ (codes "array" ++ (48 + length index.now) ∷ (codes "d(" ++ index_text index.now))) }
{
    out.extend_from_slice(b"array")?;
    out.push(48 + index.len() as u8)?;
    out.extend_from_slice(b"d(")?;
    push_index(alloc, cases, index, out)
}

/// Appends a value as the default text has it.
fn push_value(alloc: Global, cases: &Cases, v: &Value, out: &mut Vec<u8>) -> Result<(), Memory>
    requires showable { IsShowable (case_names cases.now) (content v.now) }
    requires few { HasFewDims (content v.now) }
    ensures { OnOk result (out.new.items ≡ out.old.items ++ default_value (case_names cases.now) (content v.now)) }
{
    match v {
        Value::Array(a) => {
            push_head(alloc, cases, &a.index, out)?;
            push_shown(alloc, cases, v, out)?;
            out.push(b')')?;
            Ok(())
        }
        _ => push_shown(alloc, cases, v, out),
    }
}

/// Appends a variable's line of the default text.
pub(crate) fn push_line(
    alloc: Global,
    cases: &Cases,
    label: &[u8],
    v: &Value,
    out: &mut Vec<u8>,
) -> Result<(), Memory>
    requires { CanPrint (case_names cases.now) (content v.now) }
    ensures { OnOk result (out.new.items ≡ out.old.items ++ default_line (case_names cases.now) label.now (Some (content v.now))) }
{
    sets_are_sound(v);
    out.extend_from_slice(label)?;
    out.extend_from_slice(b" = ")?;
    push_value(alloc, cases, v, out)?;
    out.extend_from_slice(b";\n")?;
    Ok(())
}
