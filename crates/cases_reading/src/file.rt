// A text as a file: its number, and its ends.

ghost use Rattle.std.specs.Prelude.{◌≤◌, length};
ghost use Rattle.mz_base.specs.declared.limit.TheConstants.{FILE_LIMIT};

use mz_base::Span;
use mz_lexer::after;

/// The number that a text has as a file.
pub const FILE: u64 = 7;

/// The place where a text ends.
pub fn end_of(bytes: &[u8]) -> Span
    requires { length bytes.now ≤ FILE_LIMIT }
{
    after(Span::start(FILE), bytes)
}
