// The tokens of a file.

ghost use Rattle.std.specs.Prelude.{◌≡◌, ◌+◌, ◌<◌, ◌≤◌, length, map, take, drop, IfOk, IfErr, Ok, Err, All};
ghost use Rattle.mz_base.specs.declared.limit.TheConstants.{FILE_LIMIT};
ghost use Rattle.mz_base.specs.Names.{Grows};
ghost use Rattle.mz_lexer.specs.Lexemes.{after, fault, fault_number};
ghost use Rattle.mz_lexer.specs.Lexes.{Lexes, IsFirstFault};
ghost use Rattle.mz_lexer.specs.Views.{lex, HasName};
ghost use Rattle.mz_base.specs.Faults.{IfRefused};

use crate::found::Prefix;
use crate::opening::Opens;
use crate::place::after;
use crate::prefix::prefix_of;
use crate::token::Token;
use mz_base::{FILE_LIMIT, Fault, INTEGER_LIMIT, Kind, Names, Span, Stop};
use std::alloc::Global;

/// The number of a fault.
fn fault_number(kind: Kind) -> i128
    ensures { result ≡ fault_number kind }
{
    match kind {
        Kind::Bounds => INTEGER_LIMIT as i128 + 1,
        _ => 0,
    }
}

/// The bytes from a place of a file on.
#[derive(Drop)]
struct Cursor<'a> {
    rest: &'a [u8],
    at: Span,
    ghost few: { length rest.now ≤ FILE_LIMIT },
    ghost line: { at.line + length rest.now ≤ FILE_LIMIT + 1 },
    ghost col: { at.col + length rest.now ≤ FILE_LIMIT + 1 },
    ghost byte: { at.byte + length rest.now ≤ FILE_LIMIT },
}

impl Cursor<'_> {
    /// Passes this many first bytes.
    fn pass(&mut self, len: usize)
        requires { len ≤ length self.old.rest.now }
        ensures rest { self.new.rest.now ≡ drop len self.old.rest.now }
        ensures at { self.new.at ≡ after self.old.at (take len self.old.rest.now) }
    {
        self.at = after(self.at, &self.rest[..len]);
        self.rest = &self.rest[len..];
    }

    /// The fault after this many first bytes.
    fn fault(&self, kind: Kind, len: usize) -> Fault
        requires { len ≤ length self.now.rest.now }
        ensures { result ≡ fault kind (after self.now.at (take len self.now.rest.now)) }
    {
        Fault {
            kind,
            span: after(self.at, &self.rest[..len]),
            number: fault_number(kind),
        }
    }
}

/// The tokens of a file's bytes, in order.
///
/// `file` is the file's number in each place. Every name of a token is one of the table after the
/// call. The first fault is Lexical, LeftOut or Bounds. After a fault, or where memory runs out, the table
/// may hold more names.
pub fn tokens(alloc: Global, bytes: &[u8], file: u64, names: &mut Names) -> Result<Vec<Token>, Stop>
    requires { length bytes.now ≤ FILE_LIMIT }
    ensures read { IfOk result (λ v. Lexes file bytes.now (map (lex names.new) v.items)) }
    ensures named { IfOk result (λ v. All (HasName names.new) v.items) }
    ensures fault { IfErr result (λ s. IfRefused s (λ f. IsFirstFault file bytes.now f)) }
    ensures grows { Grows names.old names.new }
{
    let mut cursor = Cursor {
        rest: bytes,
        at: Span::start(file),
    };
    let mut opens = Opens::new(alloc);
    let mut tokens = Vec::new(alloc);
    while !cursor.rest.is_empty() {
        let later = opens.begins_piece();
        match prefix_of(alloc, later, cursor.rest, names)? {
            Prefix::Refusal(kind, len) => {
                let fault = cursor.fault(kind, len);
                return Err(Stop::Refused(fault));
            }
            Prefix::Gap(len) => {
                cursor.pass(len);
                continue;
            }
            Prefix::Token(tok, len) => {
                opens.pass(&tok)?;
                let token = Token {
                    tok,
                    span: cursor.at,
                    len: len as u64,
                };
                tokens.push(token)?;
                cursor.pass(len);
            }
        }
    }
    Ok(tokens)
}
