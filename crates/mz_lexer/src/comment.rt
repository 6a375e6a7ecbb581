// Comments between `/*` and `*/`.

ghost use Rattle.std.specs.Prelude.{◌≡◌, ◌≤◌, length, IfSome, IsTrue};
ghost use Rattle.mz_lexer.specs.Steps.{ends_comment, comment_len};
ghost use Rattle.mz_lexer.specs.Bytes.{first_byte, second_byte};

use crate::byte::{first_byte, second_byte};

/// Whether the bytes begin with `*/`.
fn ends_comment(bytes: &[u8]) -> bool
    ensures value { result ≡ ends_comment bytes.now }
    ensures long { IsTrue result → 2 ≤ length bytes.now }
{
    first_byte(bytes) == b'*' && second_byte(bytes) == b'/'
}

/// How many bytes there are up to and with the next `*/`. None where there is no such end.
pub fn comment_len(bytes: &[u8]) -> Option<usize>
    ensures len { result ≡ comment_len bytes.now }
    ensures within { IfSome result (λ n. n ≤ length bytes.now) }
{
    for index in 0..bytes.len() {
        if ends_comment(&bytes[index..]) {
            return Some(index + 2);
        }
    }
    None
}
