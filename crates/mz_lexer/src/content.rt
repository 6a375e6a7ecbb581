// What stands in the pieces of texts.

ghost use Rattle.std.specs.Prelude.{◌≡◌, ◌≤◌, length, IfOk};
ghost use Rattle.mz_lexer.specs.Texts.{is_plain, is_escape, escape_value, content_step, content_len, begins_escape, meant, meaning};

use crate::byte::{first_byte, second_byte};
use std::alloc::{AllocError, Global};

/// Whether a byte of a text stands for itself.
fn is_plain(byte: u8) -> bool
    ensures { result ≡ is_plain byte }
{
    !(byte == b'\n' || byte == b'"' || byte == b'\\')
}

/// Whether a backslash and this byte are an escape.
fn is_escape(byte: u8) -> bool
    ensures { result ≡ is_escape byte }
{
    byte == b'n' || byte == b't' || byte == b'"' || byte == b'\\'
}

/// What a backslash and this byte mean.
fn escape_value(byte: u8) -> u8
    ensures { result ≡ escape_value byte }
{
    match byte {
        b'n' => b'\n',
        b't' => b'\t',
        _ => byte,
    }
}

/// Whether plain bytes and escapes go on with the first byte, and then whether the next one is
/// after a backslash.
fn content_step(escaped: bool, bytes: &[u8]) -> Option<bool>
    ensures { result ≡ content_step escaped bytes.now }
{
    let first = first_byte(bytes);
    if escaped || is_plain(first) {
        Some(false)
    } else if first == b'\\' && is_escape(second_byte(bytes)) {
        Some(true)
    } else {
        None
    }
}

/// How many bytes of plain bytes and escapes come first.
pub fn content_len(bytes: &[u8]) -> usize
    ensures len { result ≡ content_len bytes.now }
    ensures within { result ≤ length bytes.now }
{
    let mut escaped = false;
    for index in 0..bytes.len() {
        match content_step(escaped, &bytes[index..]) {
            Some(next) => escaped = next,
            None => return index,
        }
    }
    bytes.len()
}

/// Whether a backslash stands here that begins an escape.
fn begins_escape(escaped: bool, byte: u8) -> bool
    ensures { result ≡ begins_escape escaped byte }
{
    byte == b'\\' && !escaped
}

/// What a byte means.
fn meant(escaped: bool, byte: u8) -> u8
    ensures { result ≡ meant escaped byte }
{
    if escaped { escape_value(byte) } else { byte }
}

/// What plain bytes and escapes mean.
pub fn meaning(alloc: Global, content: &[u8]) -> Result<Vec<u8>, AllocError>
    ensures { IfOk result (λ v. v.items ≡ meaning content.now) }
{
    let mut value = Vec::new(alloc);
    let mut escaped = false;
    for byte in content {
        if begins_escape(escaped, *byte) {
            escaped = true;
            continue;
        }
        value.push(meant(escaped, *byte))?;
        escaped = false;
    }
    Ok(value)
}
