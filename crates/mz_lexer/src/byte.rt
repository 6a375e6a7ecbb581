// Which bytes begin and go on with what.

ghost use Rattle.std.specs.Prelude.{◌≡◌, ◌≤◌, ◌<◌, not, length};
ghost use Rattle.std.specs.List.{prefix_len};
ghost use Rattle.mz_lexer.specs.Bytes.{first_byte, second_byte, third_byte, is_blank, is_newline, is_hex_digit, is_octal_digit, is_left_out_byte};
ghost use Rattle.mz_base.specs.Words.{is_digit, is_word_byte};

use mz_base::{is_digit, is_word_byte};

/// The first byte, 0 where there is none.
pub fn first_byte(bytes: &[u8]) -> u8
    ensures value { result ≡ first_byte bytes.now }
    ensures long { 0 < result → 1 ≤ length bytes.now }
{
    match bytes {
        [] => 0,
        [first, ..] => *first,
    }
}

/// The second byte, 0 where there is none.
pub fn second_byte(bytes: &[u8]) -> u8
    ensures value { result ≡ second_byte bytes.now }
    ensures long { 0 < result → 2 ≤ length bytes.now }
{
    match bytes {
        [_, rest @ ..] => first_byte(rest),
        [] => 0,
    }
}

/// The third byte, 0 where there is none.
pub fn third_byte(bytes: &[u8]) -> u8
    ensures value { result ≡ third_byte bytes.now }
    ensures long { 0 < result → 3 ≤ length bytes.now }
{
    match bytes {
        [_, rest @ ..] => second_byte(rest),
        [] => 0,
    }
}

/// Space, tab, carriage return or newline.
pub fn is_blank(byte: u8) -> bool
    ensures { result ≡ is_blank byte }
{
    byte == b' ' || byte == b'\t' || byte == b'\r' || byte == b'\n'
}

pub fn is_newline(byte: u8) -> bool
    ensures { result ≡ is_newline byte }
{
    byte == b'\n'
}

pub fn is_hex_digit(byte: u8) -> bool
    ensures { result ≡ is_hex_digit byte }
{
    is_digit(byte) || (65 <= byte && byte <= 70) || (97 <= byte && byte <= 102)
}

pub fn is_octal_digit(byte: u8) -> bool
    ensures { result ≡ is_octal_digit byte }
{
    48 <= byte && byte <= 55
}

/// Whether a form that is left out begins with this byte, where no symbol and no comment does.
pub fn is_left_out_byte(byte: u8) -> bool
    ensures { result ≡ is_left_out_byte byte }
{
    byte == b'\''
        || 128 <= byte
        || byte == b'~'
        || byte == b'$'
        || byte == b'`'
        || byte == b'_'
        || byte == b'/'
}

/// How many first bytes go on with a word.
pub fn word_len(bytes: &[u8]) -> usize
    ensures value { result ≡ prefix_len is_word_byte bytes.now }
    ensures within { result ≤ length bytes.now }
{
    bytes.iter().take_while(|b| is_word_byte(**b)).count()
}

/// How many digits come first.
pub fn digits_len(bytes: &[u8]) -> usize
    ensures value { result ≡ prefix_len is_digit bytes.now }
    ensures within { result ≤ length bytes.now }
{
    bytes.iter().take_while(|b| is_digit(**b)).count()
}

/// How many hexadecimal digits come first.
pub fn hex_digits_len(bytes: &[u8]) -> usize
    ensures value { result ≡ prefix_len is_hex_digit bytes.now }
    ensures within { result ≤ length bytes.now }
{
    bytes.iter().take_while(|b| is_hex_digit(**b)).count()
}

/// How many octal digits come first.
pub fn octal_digits_len(bytes: &[u8]) -> usize
    ensures value { result ≡ prefix_len is_octal_digit bytes.now }
    ensures within { result ≤ length bytes.now }
{
    bytes.iter().take_while(|b| is_octal_digit(**b)).count()
}

/// How many bytes stand before the next newline, or before the end.
pub fn line_len(bytes: &[u8]) -> usize
    ensures value { result ≡ prefix_len (λ b. not (is_newline b)) bytes.now }
    ensures within { result ≤ length bytes.now }
{
    bytes.iter().take_while(|b| !is_newline(**b)).count()
}
