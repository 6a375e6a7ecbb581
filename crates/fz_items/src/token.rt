// Tokens of an item. Each function looks at the first bytes, and gives the bytes after what it reads.

ghost use Rattle.std.specs.Prelude.{◌≡◌, ◌<◌, ◌≤◌, ◌+◌, length, IfSome, IfOk};
ghost use Rattle.std.specs.Option.{option_map};
ghost use Rattle.std.specs.List.{prefix_len};
ghost use Rattle.fz_items.specs.Bytes.{is_blank, is_digit, is_letter, is_name_byte};
ghost use Rattle.fz_items.specs.Items.{after_blanks, after, is_empty, past, number_from, digits_at, minus_at, plain_at, int_at, name_at, truth_at};
ghost use Rattle.fz_items.specs.Gives.{Gives, with_rest};

use crate::miss::Miss;
use std::str::from_utf8;

/// The first number past the limit. What is past the limit counts as this.
const PAST: u64 = (1 << 61) + 1;

fn is_blank(byte: u8) -> bool
    ensures { result ≡ is_blank byte }
{
    byte == b' ' || byte == b'\t' || byte == b'\r'
}

fn is_digit(byte: u8) -> bool
    ensures { result ≡ is_digit byte }
{
    48 <= byte && byte <= 57
}

fn is_letter(byte: u8) -> bool
    ensures { result ≡ is_letter byte }
{
    (65 <= byte && byte <= 90) || (97 <= byte && byte <= 122)
}

fn is_name_byte(byte: u8) -> bool
    ensures { result ≡ is_name_byte byte }
{
    is_letter(byte) || is_digit(byte) || byte == b'_'
}

/// How many blanks stand first.
fn blanks_len(bytes: &[u8]) -> usize
    ensures value { result ≡ prefix_len is_blank bytes.now }
    ensures within { result ≤ length bytes.now }
{
    bytes.iter().take_while(|b| is_blank(**b)).count()
}

fn digits_len(bytes: &[u8]) -> usize
    ensures value { result ≡ prefix_len is_digit bytes.now }
    ensures within { result ≤ length bytes.now }
{
    bytes.iter().take_while(|b| is_digit(**b)).count()
}

fn name_len(bytes: &[u8]) -> usize
    ensures value { result ≡ prefix_len is_name_byte bytes.now }
    ensures within { result ≤ length bytes.now }
{
    bytes.iter().take_while(|b| is_name_byte(**b)).count()
}

/// The bytes from the first that is no blank.
#[tactic(auto, unfolding(crate::specs::Items::after_blanks))]
fn after_blanks(bytes: &[u8]) -> &[u8]
    ensures value { result.now ≡ after_blanks bytes.now }
    ensures within { length result.now ≤ length bytes.now }
{
    let n = blanks_len(bytes);
    &bytes[n..]
}

/// Whether there is nothing but blanks.
#[tactic(auto, unfolding(crate::specs::Items::is_empty))]
pub fn is_empty(bytes: &[u8]) -> bool
    ensures { result ≡ is_empty bytes.now }
{
    blanks_len(bytes) == bytes.len()
}

/// The bytes after a token with this text.
#[tactic(auto, unfolding(crate::specs::Items::after))]
pub(crate) fn after<'a>(text: &[u8], bytes: &'a [u8]) -> Option<&'a [u8]>
    ensures value { option_map (λ r. r.now) result ≡ after text.now bytes.now }
    ensures shorter { IfSome result (λ r. length r.now + length text.now ≤ length bytes.now) }
{
    let from = after_blanks(bytes);
    if from.starts_with(text) {
        Some(&from[text.len()..])
    } else {
        None
    }
}

/// The same, where nothing else may stand.
pub(crate) fn expect<'a>(text: &[u8], bytes: &'a [u8]) -> Result<&'a [u8], Miss>
    ensures reads { Gives (λ r. r.now) result (after text.now bytes.now) }
    ensures shorter { IfOk result (λ r. length r.now + length text.now ≤ length bytes.now) }
{
    match after(text, bytes) {
        Some(rest) => Ok(rest),
        None => Err(Miss::Unfit),
    }
}

/// The number that digits spell.
fn number_of(digits: &[u8]) -> u64
    ensures value { result ≡ number_from 0 digits.now }
    ensures most { result ≤ past }
{
    let mut n: u64 = 0;
    for d in digits {
        n = n
            .saturating_mul(10)
            .saturating_add(u64::from(*d).saturating_sub(48))
            .min(PAST);
    }
    n
}

#[tactic(auto, unfolding(crate::specs::Items::digits_at))]
fn digits(bytes: &[u8]) -> Result<(u64, &[u8]), Miss>
    ensures reads { Gives (with_rest (λ n. n)) result (digits_at bytes.now) }
    ensures most { IfOk result (λ r. r.0 ≤ past) }
    ensures shorter { IfOk result (λ r. length (r.1).now < length bytes.now) }
{
    let n = digits_len(bytes);
    if n == 0 {
        return Err(Miss::Unfit);
    }
    Ok((number_of(&bytes[..n]), &bytes[n..]))
}

/// Digits after a minus.
#[tactic(auto, unfolding(crate::specs::Items::minus_at))]
fn minus(bytes: &[u8]) -> Result<(i64, &[u8]), Miss>
    ensures reads { Gives (with_rest (λ n. n)) result (minus_at bytes.now) }
    ensures shorter { IfOk result (λ r. length (r.1).now < length bytes.now) }
{
    let (n, rest) = digits(after_blanks(bytes))?;
    Ok((-(n as i64), rest))
}

/// Digits alone.
#[tactic(auto, unfolding(crate::specs::Items::plain_at))]
fn plain(bytes: &[u8]) -> Result<(i64, &[u8]), Miss>
    ensures reads { Gives (with_rest (λ n. n)) result (plain_at bytes.now) }
    ensures shorter { IfOk result (λ r. length (r.1).now < length bytes.now) }
{
    let (n, rest) = digits(after_blanks(bytes))?;
    Ok((n as i64, rest))
}

/// An integer.
#[tactic(auto, unfolding(crate::specs::Items::int_at))]
pub(crate) fn int(bytes: &[u8]) -> Result<(i64, &[u8]), Miss>
    ensures reads { Gives (with_rest (λ n. n)) result (int_at bytes.now) }
    ensures shorter { IfOk result (λ r. length (r.1).now < length bytes.now) }
{
    match after(b"-", bytes) {
        Some(rest) => minus(rest),
        None => plain(bytes),
    }
}

/// A name.
#[tactic(auto, unfolding(crate::specs::Items::name_at))]
pub(crate) fn name(bytes: &[u8]) -> Result<(&str, &[u8]), Miss>
    ensures { Gives (with_rest (λ n. n.now)) result (name_at bytes.now) }
{
    let from = after_blanks(bytes);
    let n = name_len(from);
    match from {
        [first, ..] if is_letter(*first) => {}
        _ => return Err(Miss::Unfit),
    }
    match from_utf8(&from[..n]) {
        Ok(text) => Ok((text, &from[n..])),
        Err(_) => Err(Miss::Unfit),
    }
}

/// `true` or `false`.
#[tactic(auto, unfolding(crate::specs::Items::truth_at))]
pub(crate) fn truth(bytes: &[u8]) -> Result<(bool, &[u8]), Miss>
    ensures { Gives (with_rest (λ n. n)) result (truth_at bytes.now) }
{
    if let Some(rest) = after(b"true", bytes) {
        return Ok((true, rest));
    }
    let rest = expect(b"false", bytes)?;
    Ok((false, rest))
}
