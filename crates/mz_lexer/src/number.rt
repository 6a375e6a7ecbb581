// Integer literals.

ghost use Rattle.std.specs.Prelude.{ℕ, List, true, IsTrue, nat_eq, ◌&&◌, ◌≡◌, ◌≤◌, ◌<◌, ◌+◌, ◌*◌, nat_le, length, Some, None, if◌then◌else◌};
ghost use Rattle.std.specs.Char.{digit_value};
ghost use Rattle.mz_base.specs.Words.{is_digit};
ghost use Rattle.mz_lexer.specs.Bytes.{is_hex_digit, is_octal_digit, first_byte, second_byte, third_byte};
ghost use Rattle.mz_lexer.specs.Numbers.{limit, number_of, goes_on};
ghost use Rattle.mz_lexer.specs.Steps.{literal, number_prefix};
ghost use Rattle.mz_lexer.specs.Views.{prefix, IsPrefixNamed, Fits};

use crate::byte::{
    digits_len, first_byte, hex_digits_len, is_hex_digit, is_octal_digit, octal_digits_len,
    second_byte, third_byte,
};
use crate::found::Prefix;
use crate::token::Tok;
use mz_base::{INTEGER_LIMIT, Kind, is_digit};

/// The greatest number of a literal.
const LIMIT: u64 = INTEGER_LIMIT as u64;

/// The value of a digit or a letter, 36 for other bytes.
fn digit_value(byte: u8) -> u64
    ensures value { result ≡ digit_value byte }
    ensures small { result ≤ 36 }
{
    match byte {
        48..=57 => u64::from(byte) - 48,
        65..=90 => u64::from(byte) - 55,
        97..=122 => u64::from(byte) - 87,
        _ => 36,
    }
}

/// The number that digits spell in a base. None above the limit.
fn number_of(base: u64, digits: &[u8]) -> Option<u64>
    requires some { 0 < base }
    requires small { base ≤ 16 }
    ensures { result ≡ (if nat_le (number_of base digits.now) limit then Some (number_of base digits.now) else None) }
{
    let most = LIMIT / base;
    let mut value = 0;
    for digit in digits {
        if value > most {
            return None;
        }
        value = value * base + digit_value(*digit);
    }
    if value > LIMIT { None } else { Some(value) }
}

/// A literal of some digits, with its length.
fn literal(base: u64, digits: &[u8], len: usize) -> Prefix
    requires some { 0 < base }
    requires small { base ≤ 16 }
    ensures shown { (names : List (List ℕ)) → prefix names result ≡ literal base digits.now len }
    ensures named { (names : List (List ℕ)) → IsPrefixNamed names result }
    ensures fits { (all : ℕ) → 0 < len → len ≤ all → Fits all result }
{
    match number_of(base, digits) {
        Some(value) => Prefix::Token(Tok::Int(value as i64), len),
        None => Prefix::Refusal(Kind::Bounds, 0),
    }
}

/// Whether a fraction or an exponent follows decimal digits.
fn goes_on(bytes: &[u8]) -> bool
    ensures { result ≡ goes_on bytes.now }
{
    let first = first_byte(bytes);
    let second = second_byte(bytes);
    (first == b'.' && is_digit(second))
        || ((first == b'e' || first == b'E')
            && (is_digit(second)
                || ((second == b'+' || second == b'-') && is_digit(third_byte(bytes)))))
}

/// Whether the bytes begin with `0`, this letter and a digit of its base.
fn is_prefixed(bytes: &[u8], letter: u8, third_is_digit: bool) -> bool
    ensures value { result ≡ (nat_eq (first_byte bytes.now) 48 && (nat_eq (second_byte bytes.now) letter && third_is_digit)) }
    ensures long { IsTrue result → 0 < letter → 2 ≤ length bytes.now }
{
    first_byte(bytes) == b'0' && (second_byte(bytes) == letter && third_is_digit)
}

/// The longest literal at the beginning of bytes that begin with a digit.
#[tactic(auto, unfolding(crate::specs::Steps::number_prefix))]
pub fn number_prefix(bytes: &[u8]) -> Prefix
    requires { is_digit (first_byte bytes.now) ≡ true }
    ensures shown { (names : List (List ℕ)) → prefix names result ≡ number_prefix bytes.now }
    ensures named { (names : List (List ℕ)) → IsPrefixNamed names result }
    ensures fits { Fits (length bytes.now) result }
{
    if is_prefixed(bytes, b'x', is_hex_digit(third_byte(bytes))) {
        let digits = &bytes[2..];
        let len = hex_digits_len(digits);
        return literal(16, &digits[..len], 2 + len);
    }
    if is_prefixed(bytes, b'o', is_octal_digit(third_byte(bytes))) {
        let digits = &bytes[2..];
        let len = octal_digits_len(digits);
        return literal(8, &digits[..len], 2 + len);
    }
    let len = digits_len(bytes);
    if goes_on(&bytes[len..]) {
        return Prefix::Refusal(Kind::LeftOut, 0);
    }
    literal(10, &bytes[..len], len)
}
