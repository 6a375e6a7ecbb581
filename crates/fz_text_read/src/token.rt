// Texts, numbers and names. Each function looks at the first bytes, and gives the bytes after what it reads.

ghost use Rattle.std.specs.Prelude.{◌≡◌, ◌≤◌, length, IfOk, Some, string_bytes};
ghost use Rattle.std.specs.Option.{option_map};
ghost use Rattle.std.specs.List.{prefix_len};
ghost use Rattle.fz_items.specs.Bytes.{is_digit, is_letter, is_name_byte};
ghost use Rattle.fz_items.specs.Gives.{Gives, with_rest};
ghost use Rattle.fz_items.specs.Items.{digits_at, number_from, past};
ghost use Rattle.fz_text_read.specs.Tokens.{behind, name_at, natural_at, negative_at, number_at, range_at};

use fz_items::Miss;
use fz_program::FzName;
use std::alloc::Global;
use std::str::from_utf8;

/// The first number past the limit. What is past the limit counts as this.
const PAST: u64 = (1 << 61) + 1;

fn is_digit(byte: u8) -> bool
    ensures { result ≡ is_digit byte }
{
    48 <= byte && byte <= 57
}

pub(crate) fn is_letter(byte: u8) -> bool
    ensures { result ≡ is_letter byte }
{
    (65 <= byte && byte <= 90) || (97 <= byte && byte <= 122)
}

fn is_name_byte(byte: u8) -> bool
    ensures { result ≡ is_name_byte byte }
{
    is_letter(byte) || is_digit(byte) || byte == b'_'
}

fn digits_len(bytes: &[u8]) -> usize
    ensures value { result ≡ prefix_len is_digit bytes.now }
    ensures within { result ≤ length bytes.now }
{
    bytes.iter().take_while(|b| is_digit(**b)).count()
}

fn name_len(bytes: &[u8]) -> usize
    ensures value { result ≡ prefix_len is_name_byte bytes.now }
    ensures within { result ≤ length bytes.now }
{
    bytes.iter().take_while(|b| is_name_byte(**b)).count()
}

/// The bytes after a text.
#[tactic(auto, unfolding(crate::specs::Tokens::behind))]
pub(crate) fn behind<'a>(text: &[u8], bytes: &'a [u8]) -> Option<&'a [u8]>
    ensures { option_map (λ r. r.now) result ≡ behind text.now bytes.now }
{
    if bytes.starts_with(text) {
        Some(&bytes[text.len()..])
    } else {
        None
    }
}

/// The same, where nothing else may stand.
pub(crate) fn expect<'a>(text: &[u8], bytes: &'a [u8]) -> Result<&'a [u8], Miss>
    ensures { Gives (λ r. r.now) result (behind text.now bytes.now) }
{
    match behind(text, bytes) {
        Some(rest) => Ok(rest),
        None => Err(Miss::Unfit),
    }
}

/// The number that digits spell.
fn number_of(digits: &[u8]) -> u64
    ensures value { result ≡ number_from 0 digits.now }
    ensures most { result ≤ past }
{
    let mut n: u64 = 0;
    for d in digits {
        n = n
            .saturating_mul(10)
            .saturating_add(u64::from(*d).saturating_sub(48))
            .min(PAST);
    }
    n
}

#[tactic(auto, unfolding(fz_items::specs::Items::digits_at))]
fn digits(bytes: &[u8]) -> Result<(u64, &[u8]), Miss>
    ensures reads { Gives (with_rest (λ n. n)) result (digits_at bytes.now) }
    ensures most { IfOk result (λ r. r.0 ≤ past) }
{
    let n = digits_len(bytes);
    if n == 0 {
        return Err(Miss::Unfit);
    }
    Ok((number_of(&bytes[..n]), &bytes[n..]))
}

/// Digits after a minus.
#[tactic(auto, unfolding(crate::specs::Tokens::negative_at))]
fn negative(bytes: &[u8]) -> Result<(i64, &[u8]), Miss>
    ensures { Gives (with_rest (λ n. n)) result (negative_at bytes.now) }
{
    let (n, rest) = given!(digits(bytes));
    Ok((-(n as i64), rest))
}

/// Digits alone.
#[tactic(auto, unfolding(crate::specs::Tokens::natural_at))]
fn natural(bytes: &[u8]) -> Result<(i64, &[u8]), Miss>
    ensures { Gives (with_rest (λ n. n)) result (natural_at bytes.now) }
{
    let (n, rest) = given!(digits(bytes));
    Ok((n as i64, rest))
}

/// An integer.
#[tactic(auto, unfolding(crate::specs::Tokens::number_at))]
pub(crate) fn number(bytes: &[u8]) -> Result<(i64, &[u8]), Miss>
    ensures { Gives (with_rest (λ n. n)) result (number_at bytes.now) }
{
    match behind(b"-", bytes) {
        Some(rest) => negative(rest),
        None => natural(bytes),
    }
}

/// Two integers with `..` between them.
#[tactic(auto, unfolding(crate::specs::Tokens::range_at))]
pub(crate) fn range(bytes: &[u8]) -> Result<((i64, i64), &[u8]), Miss>
    ensures { Gives (with_rest (λ r. r)) result (range_at bytes.now) }
{
    let (low, rest) = given!(number(bytes));
    let rest = given!(expect(b"..", rest));
    let (high, rest) = given!(number(rest));
    Ok(((low, high), rest))
}

/// A name.
#[tactic(auto, unfolding(crate::specs::Tokens::name_at))]
pub(crate) fn name(bytes: &[u8]) -> Result<(&str, &[u8]), Miss>
    ensures { Gives (with_rest (λ n. n.now)) result (name_at bytes.now) }
{
    let n = name_len(bytes);
    match bytes {
        [first, ..] if is_letter(*first) => {}
        _ => return Err(Miss::Unfit),
    }
    match from_utf8(&bytes[..n]) {
        Ok(text) => Ok((text, &bytes[n..])),
        Err(_) => Err(Miss::Unfit),
    }
}

/// A name with memory of its own.
pub(crate) fn label(alloc: Global, text: &str) -> Result<FzName, Miss>
    ensures { Gives (λ n. string_bytes n.text) result (Some text.now) }
{
    match String::from_str(alloc, text) {
        Ok(text) => Ok(FzName { text }),
        Err(_) => Err(Miss::Memory),
    }
}
