// The names of the model's variables and arrays.

ghost use Rattle.std.specs.Prelude.{◌≡◌, ◌++◌, IfOk, false, string_bytes, true};
ghost use Rattle.flat_meaning.specs.Front.{occurrence_label, occurrence_name, place_name, value_label, value_name};

use fz_program::FzName;
use itoa::Buffer;
use mz_base::Memory;
use std::alloc::Global;

// A name after a prefix.
fn prefixed(alloc: Global, prefix: &str, x: &str) -> Result<FzName, Memory>
    ensures { IfOk result (λ n. string_bytes n.text ≡ prefix.now ++ x.now) }
{
    let mut text = String::from_str(alloc, prefix)?;
    text.push_str(x)?;
    Ok(FzName { text })
}

// A name after a prefix and a place of its array, from 1.
fn placed(alloc: Global, prefix: &str, k: u64, x: &str) -> Result<FzName, Memory>
    ensures { IfOk result (λ n. string_bytes n.text ≡ prefix.now ++ place_name k x.now) }
{
    let mut text = String::from_str(alloc, prefix)?;
    let mut buffer = Buffer::new();
    text.push_str(buffer.format(k))?;
    text.push_str("_")?;
    text.push_str(x)?;
    Ok(FzName { text })
}

/// The name itself.
pub(crate) fn own_name(alloc: Global, x: &str) -> Result<FzName, Memory>
    ensures { IfOk result (λ n. string_bytes n.text ≡ x.now) }
{
    Ok(FzName {
        text: String::from_str(alloc, x)?,
    })
}

/// `X_OCC_x`.
pub(crate) fn occurrence_name(alloc: Global, x: &str) -> Result<FzName, Memory>
    ensures { IfOk result (λ n. string_bytes n.text ≡ occurrence_name x.now) }
{
    prefixed(alloc, "X_OCC_", x)
}

/// `X_VAL_x`.
pub(crate) fn value_name(alloc: Global, x: &str) -> Result<FzName, Memory>
    ensures { IfOk result (λ n. string_bytes n.text ≡ value_name x.now) }
{
    prefixed(alloc, "X_VAL_", x)
}

/// The name of the occurrence of a scalar, or of the place `k` of an array, from 1.
pub(crate) fn occurrence_label(
    alloc: Global,
    scalar: bool,
    k: u64,
    x: &str,
) -> Result<FzName, Memory>
    ensures { IfOk result (λ n. string_bytes n.text ≡ occurrence_label scalar k x.now) }
{
    if scalar {
        occurrence_name(alloc, x)
    } else {
        placed(alloc, "X_OCC_", k, x)
    }
}

// The name of the value of a scalar.
fn scalar_label(alloc: Global, opt: bool, k: u64, x: &str) -> Result<FzName, Memory>
    ensures { IfOk result (λ n. string_bytes n.text ≡ value_label true opt k x.now) }
{
    let _place = k;
    if opt {
        value_name(alloc, x)
    } else {
        own_name(alloc, x)
    }
}

// The name of the value of a place of an array.
fn place_label(alloc: Global, opt: bool, k: u64, x: &str) -> Result<FzName, Memory>
    ensures { IfOk result (λ n. string_bytes n.text ≡ value_label false opt k x.now) }
{
    if opt {
        placed(alloc, "X_VAL_", k, x)
    } else {
        placed(alloc, "X_ELT_", k, x)
    }
}

/// The name of the value of a scalar, or of the place `k` of an array, from 1; of an option, or of
/// another.
pub(crate) fn value_label(
    alloc: Global,
    scalar: bool,
    opt: bool,
    k: u64,
    x: &str,
) -> Result<FzName, Memory>
    ensures { IfOk result (λ n. string_bytes n.text ≡ value_label scalar opt k x.now) }
{
    if scalar {
        scalar_label(alloc, opt, k, x)
    } else {
        place_label(alloc, opt, k, x)
    }
}
