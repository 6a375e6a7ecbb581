// The bytes that a line of a program's input writes.

ghost use Rattle.std.specs.Prelude.{◌≡◌, ◌<◌, [], ◌∷◌, IfOk, IfSome, MatchOption, length};
ghost use Rattle.cases.specs.Bytes.{value_of, byte_of, written};

use std::alloc::{AllocError, Global};

/// The value of a hexadecimal digit.
fn digit(byte: u8) -> Option<u8>
    ensures { result ≡ value_of byte }
{
    match byte {
        b'0'..=b'9' => Some(byte - b'0'),
        b'A'..=b'F' => Some(byte - b'A' + 10),
        _ => None,
    }
}

/// The byte that three bytes write, where they are `@` and two digits.
fn byte_of(at: u8, high: u8, low: u8) -> Option<u8>
    ensures { result ≡ byte_of at high low }
{
    if at != b'@' {
        return None;
    }
    let high = digit(high)?;
    let low = digit(low)?;
    Some(16 * high + low)
}

/// The first byte that a text writes, and the text after it.
fn front_of(text: &[u8]) -> Option<(u8, &[u8])>
    ensures writes { MatchOption result (text.now ≡ []) (λ front. written text.now ≡ front.0 ∷ written front.1.now) }
    ensures shorter { IfSome result (λ front. length front.1.now < length text.now) }
{
    if let [at, high, low, rest @ ..] = text {
        if let Some(byte) = byte_of(*at, *high, *low) {
            return Some((byte, rest));
        }
    }
    let (first, rest) = text.split_first()?;
    Some((*first, rest))
}

/// The bytes of a text in which `@HH`, with two hexadecimal digits in capitals, writes one byte. Any other `@` is itself.
pub fn bytes_of(alloc: Global, text: &str) -> Result<Vec<u8>, AllocError>
    ensures { IfOk result (λ bytes. bytes.items ≡ written text.now) }
{
    let mut bytes = Vec::new(alloc);
    let mut rest = text.as_bytes();
    while let Some((byte, others)) = front_of(rest) {
        bytes.push(byte)?;
        rest = others;
    }
    Ok(bytes)
}
