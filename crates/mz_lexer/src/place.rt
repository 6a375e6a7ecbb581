// Places in a file.

ghost use Rattle.std.specs.Prelude.{◌≡◌, ◌+◌, ◌<◌, ◌≤◌, ◌^◌, length};
ghost use Rattle.mz_lexer.specs.Lexemes.{passed, after};

use crate::byte::is_newline;
use mz_base::Span;

/// The place after a byte.
fn passed(at: Span, byte: u8) -> Span
    requires line { at.line + 1 < 2 ^ 32 }
    requires col { at.col + 1 < 2 ^ 32 }
    requires byte { at.byte + 1 < 2 ^ 64 }
    ensures place { result ≡ passed at byte }
    ensures line { result.line ≤ at.line + 1 }
    ensures col { result.col ≤ at.col + 1 }
    ensures byte { result.byte ≡ at.byte + 1 }
{
    if is_newline(byte) {
        Span {
            file: at.file,
            line: at.line + 1,
            col: 1,
            byte: at.byte + 1,
        }
    } else {
        Span {
            file: at.file,
            line: at.line,
            col: at.col + 1,
            byte: at.byte + 1,
        }
    }
}

/// The place after some bytes.
pub fn after(start: Span, bytes: &[u8]) -> Span
    requires line { start.line + length bytes.now < 2 ^ 32 }
    requires col { start.col + length bytes.now < 2 ^ 32 }
    requires byte { start.byte + length bytes.now < 2 ^ 64 }
    ensures place { result ≡ after start bytes.now }
    ensures line { result.line ≤ start.line + length bytes.now }
    ensures col { result.col ≤ start.col + length bytes.now }
    ensures byte { result.byte ≡ start.byte + length bytes.now }
{
    let mut at = start;
    for byte in bytes {
        at = passed(at, *byte);
    }
    at
}
