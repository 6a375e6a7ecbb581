// The pieces of texts.

ghost use Rattle.std.specs.Prelude.{◌≡◌, ◌+◌, ◌<◌, ◌^◌, length, IfOk};
ghost use Rattle.mz_base.specs.Names.{Grows};
ghost use Rattle.mz_lexer.specs.Steps.{piece_end, piece_prefix};
ghost use Rattle.mz_lexer.specs.Texts.{meaning, content_len};
ghost use Rattle.mz_lexer.specs.Views.{prefix, IsPrefixNamed, Fits};

use crate::byte::{first_byte, second_byte};
use crate::content::{content_len, meaning};
use crate::found::Prefix;
use crate::token::Tok;
use mz_base::{Kind, Memory, Names};
use std::alloc::Global;
use std::str::from_utf8;

/// The piece of a text by its end, after its content, which has this meaning and length.
fn piece_end(
    later: bool,
    value: &str,
    len: usize,
    after: &[u8],
    names: &mut Names,
) -> Result<Prefix, Memory>
    requires { len + length after.now < 2 ^ 63 }
    ensures shown { IfOk result (λ f. prefix names.new f ≡ piece_end later value.now len after.now) }
    ensures named { IfOk result (λ f. IsPrefixNamed names.new f) }
    ensures fits { IfOk result (λ f. Fits (1 + (len + length after.now)) f) }
    ensures grows { Grows names.old names.new }
{
    let first = first_byte(after);
    if first == b'"' {
        let name = names.intern(value)?;
        if later {
            return Ok(Prefix::Token(Tok::TextTail(name), len + 2));
        }
        return Ok(Prefix::Token(Tok::Text(name), len + 2));
    }
    if first == b'\\' && second_byte(after) == b'(' {
        let name = names.intern(value)?;
        if later {
            return Ok(Prefix::Token(Tok::TextMid(name), len + 3));
        }
        return Ok(Prefix::Token(Tok::TextHead(name), len + 3));
    }
    Ok(Prefix::Refusal(Kind::Lexical, len + 1))
}

/// The piece of a text after its content, which is UTF-8.
fn meant_piece(
    alloc: Global,
    later: bool,
    content: &str,
    after: &[u8],
    names: &mut Names,
) -> Result<Prefix, Memory>
    requires { length content.now + length after.now < 2 ^ 63 }
    ensures shown { IfOk result (λ f. prefix names.new f ≡ piece_end later (meaning content.now) (length content.now) after.now) }
    ensures named { IfOk result (λ f. IsPrefixNamed names.new f) }
    ensures fits { IfOk result (λ f. Fits (1 + (length content.now + length after.now)) f) }
    ensures grows { Grows names.old names.new }
{
    let value = meaning(alloc, content.as_bytes())?;
    match from_utf8(&value) {
        Ok(text) => piece_end(later, text, content.len(), after, names),
        Err(_) => unreachable!(),
    }
}

/// The piece of a text after the quote or the parenthesis that begins it.
#[tactic(auto, unfolding(crate::specs::Steps::piece_prefix))]
pub fn piece_prefix(
    alloc: Global,
    later: bool,
    bytes: &[u8],
    names: &mut Names,
) -> Result<Prefix, Memory>
    requires { length bytes.now < 2 ^ 62 }
    ensures shown { IfOk result (λ f. prefix names.new f ≡ piece_prefix later bytes.now) }
    ensures named { IfOk result (λ f. IsPrefixNamed names.new f) }
    ensures fits { IfOk result (λ f. Fits (1 + length bytes.now) f) }
    ensures grows { Grows names.old names.new }
{
    let len = content_len(bytes);
    match from_utf8(&bytes[..len]) {
        Ok(content) => meant_piece(alloc, later, content, &bytes[len..], names),
        Err(fault) => Ok(Prefix::Refusal(Kind::Lexical, fault.valid_up_to() + 1)),
    }
}
