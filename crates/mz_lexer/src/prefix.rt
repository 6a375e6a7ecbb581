// What some bytes begin with.

ghost use Rattle.std.specs.Prelude.{ℕ, List, ◌≡◌, ◌+◌, ◌<◌, ◌^◌, length, true, IfOk};
ghost use Rattle.std.specs.List.{list_all};
ghost use Rattle.mz_base.specs.Names.{Grows};
ghost use Rattle.mz_lexer.specs.Bytes.{first_byte, second_byte, third_byte};
ghost use Rattle.mz_base.specs.Words.{is_letter, is_word_byte};
ghost use Rattle.mz_lexer.specs.Steps.{word_prefix, symbol_or_fault, comment_len, comment_of, prefix_of};
ghost use Rattle.mz_lexer.specs.StepsSymbols.{symbol_at};
ghost use Rattle.mz_lexer.specs.Views.{prefix, IsPrefixNamed, Fits};

use crate::byte::{
    first_byte, is_blank, is_left_out_byte, line_len, second_byte, third_byte, word_len,
};
use crate::comment::comment_len;
use crate::found::Prefix;
use crate::left_out::is_left_out;
use crate::number::number_prefix;
use crate::piece::piece_prefix;
use crate::symbol::symbol_at;
use crate::token::Tok;
use mz_base::{Kind, Memory, Names, is_digit, is_letter, keyword_of};
use std::alloc::Global;
use std::str::from_utf8;

/// A word as a text.
fn word_text(word: &[u8]) -> &str
    requires { list_all is_word_byte word.now ≡ true }
    ensures { result.now ≡ word.now }
{
    match from_utf8(word) {
        Ok(text) => text,
        Err(_) => unreachable!(),
    }
}

/// The longest word at the beginning of bytes that begin with a letter.
#[tactic(auto, unfolding(crate::specs::Steps::word_prefix))]
fn word_prefix(bytes: &[u8], names: &mut Names) -> Result<Prefix, Memory>
    requires { is_letter (first_byte bytes.now) ≡ true }
    ensures shown { IfOk result (λ f. prefix names.new f ≡ word_prefix bytes.now) }
    ensures named { IfOk result (λ f. IsPrefixNamed names.new f) }
    ensures fits { IfOk result (λ f. Fits (length bytes.now) f) }
    ensures grows { Grows names.old names.new }
{
    let len = word_len(bytes);
    let word = &bytes[..len];
    match keyword_of(word) {
        Some(keyword) => {
            if is_left_out(keyword) {
                Ok(Prefix::Refusal(Kind::LeftOut, 0))
            } else {
                Ok(Prefix::Token(Tok::Word(keyword), len))
            }
        }
        None => {
            let name = names.intern(word_text(word))?;
            Ok(Prefix::Token(Tok::Ident(name), len))
        }
    }
}

/// The longest symbol that comes first, or the fault there.
fn symbol_prefix(bytes: &[u8]) -> Prefix
    requires { 0 < length bytes.now }
    ensures shown { (names : List (List ℕ)) → prefix names result ≡ symbol_or_fault (first_byte bytes.now) (symbol_at (first_byte bytes.now) (second_byte bytes.now) (third_byte bytes.now)) }
    ensures named { (names : List (List ℕ)) → IsPrefixNamed names result }
    ensures fits { Fits (length bytes.now) result }
{
    let first = first_byte(bytes);
    match symbol_at(first, second_byte(bytes), third_byte(bytes)) {
        Some((symbol, len)) => Prefix::Token(Tok::Sym(symbol), len),
        None => {
            if is_left_out_byte(first) {
                Prefix::Refusal(Kind::LeftOut, 0)
            } else {
                Prefix::Refusal(Kind::Lexical, 0)
            }
        }
    }
}

/// A comment between `/*` and `*/`, after its first two bytes.
fn comment_prefix(bytes: &[u8]) -> Prefix
    ensures shown { (names : List (List ℕ)) → prefix names result ≡ comment_of (comment_len bytes.now) }
    ensures named { (names : List (List ℕ)) → IsPrefixNamed names result }
    ensures fits { Fits (length bytes.now + 2) result }
{
    match comment_len(bytes) {
        Some(len) => Prefix::Gap(len + 2),
        None => Prefix::Refusal(Kind::Lexical, 0),
    }
}

/// What some bytes begin with, where `later` says that a `)` begins a piece of a text.
#[tactic(auto, unfolding(crate::specs::Steps::prefix_of))]
pub fn prefix_of(
    alloc: Global,
    later: bool,
    bytes: &[u8],
    names: &mut Names,
) -> Result<Prefix, Memory>
    requires some { 0 < length bytes.now }
    requires few { length bytes.now < 2 ^ 62 }
    ensures shown { IfOk result (λ f. prefix names.new f ≡ prefix_of later bytes.now) }
    ensures named { IfOk result (λ f. IsPrefixNamed names.new f) }
    ensures fits { IfOk result (λ f. Fits (length bytes.now) f) }
    ensures grows { Grows names.old names.new }
{
    let first = first_byte(bytes);
    if is_blank(first) {
        return Ok(Prefix::Gap(1));
    }
    if is_letter(first) {
        return word_prefix(bytes, names);
    }
    if is_digit(first) {
        return Ok(number_prefix(bytes));
    }
    if first == b'"' {
        return piece_prefix(alloc, false, &bytes[1..], names);
    }
    if later && first == b')' {
        return piece_prefix(alloc, true, &bytes[1..], names);
    }
    if first == b'%' {
        return Ok(Prefix::Gap(1 + line_len(&bytes[1..])));
    }
    if first == b'/' && second_byte(bytes) == b'*' {
        return Ok(comment_prefix(&bytes[2..]));
    }
    Ok(symbol_prefix(bytes))
}
