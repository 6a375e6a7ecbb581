// Texts that are made of numbers and of other texts.

ghost use Rattle.std.specs.Prelude.{◌≡◌, ◌++◌, IfOk, OnOk, map, replicate, string_bytes};
ghost use Rattle.std.specs.List.{AllByRecursion, flat_map};
ghost use Rattle.std.specs.Fmt.{signed_decimal};
ghost use Rattle.mz_value.specs.Contents.{content, text_bytes};
ghost use Rattle.mz_value.specs.Shown.{IsText, bytes_of, join, padded};

use crate::value::{TextValue, Value};
use itoa::Buffer;
use std::alloc::{AllocError, Global};

/// `x` in decimal, with blanks up to `width` columns: before the number, after it where
/// `width` is negative.
pub fn show_int(alloc: Global, width: i64, x: i64) -> Result<TextValue, AllocError>
    ensures { IfOk result (λ t. text_bytes t ≡ padded width (signed_decimal x)) }
{
    let mut buffer = Buffer::new();
    let digits = buffer.format(x);
    let missing = width.unsigned_abs().saturating_sub(digits.len() as u64);
    let mut text = String::new(alloc);
    if width < 0 {
        text.push_str(digits)?;
        push_blanks(missing, &mut text)?;
    } else {
        push_blanks(missing, &mut text)?;
        text.push_str(digits)?;
    }
    Ok(TextValue { text })
}

/// Appends this many blanks.
fn push_blanks(count: u64, out: &mut String) -> Result<(), AllocError>
    ensures { OnOk result (string_bytes out.new ≡ string_bytes out.old ++ replicate count 32) }
{
    for _i in 0..count {
        out.push_str(" ")?;
    }
    Ok(())
}

/// Appends a number in decimal.
pub(crate) fn push_number(n: i64, out: &mut String) -> Result<(), AllocError>
    ensures { OnOk result (string_bytes out.new ≡ string_bytes out.old ++ signed_decimal n) }
{
    let mut buffer = Buffer::new();
    out.push_str(buffer.format(n))
}

/// The texts of `parts`, which are all texts, with `between` between them.
pub fn join(alloc: Global, between: &TextValue, parts: &[Value]) -> Result<TextValue, AllocError>
    requires { AllByRecursion IsText (map content parts.now) }
    ensures { IfOk result (λ t. text_bytes t
        ≡ join (text_bytes between.now) (map bytes_of (map content parts.now))) }
{
    let mut text = String::new(alloc);
    push_parts(&between.text, parts, &mut text)?;
    Ok(TextValue { text })
}

/// Appends the texts of `parts` with `between` between them.
fn push_parts(between: &String, parts: &[Value], out: &mut String) -> Result<(), AllocError>
    ensures { OnOk result (string_bytes out.new
        ≡ string_bytes out.old ++ join (string_bytes between.now) (map bytes_of (map content parts.now))) }
{
    match parts {
        [] => Ok(()),
        [first, rest @ ..] => {
            push_text(first, out)?;
            push_more(between, rest, out)
        }
    }
}

/// Appends the texts of `parts` with `between` before each.
fn push_more(between: &String, parts: &[Value], out: &mut String) -> Result<(), AllocError>
    ensures { OnOk result (string_bytes out.new
        ≡ string_bytes out.old ++ flat_map (λ t. string_bytes between.now ++ t) (map bytes_of (map content parts.now))) }
{
    for part in parts {
        out.push_str(between.as_str())?;
        push_text(part, out)?;
    }
    Ok(())
}

/// Appends the bytes of a text, nothing for another value.
fn push_text(v: &Value, out: &mut String) -> Result<(), AllocError>
    ensures { OnOk result (string_bytes out.new ≡ string_bytes out.old ++ bytes_of (content v.now)) }
{
    match v {
        Value::Text(t) => out.push_str(t.text.as_str()),
        _ => Ok(()),
    }
}
