// What some bytes begin with, as it is found.

use crate::token::Tok;
use mz_base::Kind;

/// What some bytes begin with. Lengths are in bytes.
#[derive(Clone, Copy, Debug)]
pub enum Prefix {
    /// A blank or a comment, with its length.
    Gap(usize),
    /// A token with its length.
    Token(Tok, usize),
    /// A fault, and how many bytes stand before it.
    Refusal(Kind, usize),
}
