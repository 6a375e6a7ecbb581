// The arguments of rows.

ghost use Rattle.std.specs.Prelude.{◌≡◌, codes, map};
ghost use Rattle.fz_text_read.specs.Lists.{filled_at};
ghost use Rattle.fz_items.specs.Bytes.{first_byte, is_letter as letter};
ghost use Rattle.fz_items.specs.Gives.{Gives, with_rest};
ghost use Rattle.fz_program.specs.Arguments.{argument};
ghost use Rattle.fz_text_read.specs.Arguments.{
  argument_at,
  array_at,
  braces_set_at,
  interval_set_at,
  number_or_interval_at,
  number_or_set_at,
  place_at,
  plain_at,
  word_at,
  word_of,
};

use crate::list::{braces, interval_from};
use crate::name_table::NameTable;
use crate::parts::{Part, closed, filled};
use crate::token::{behind, is_letter, name, number};
use fz_items::Miss;
use fz_program::Arg;
use std::alloc::Global;

/// A truth value, or a variable by its name.
#[tactic(auto, unfolding(crate::specs::Arguments::word_of))]
fn word_of<'a>(names: &NameTable<'a>, word: &'a str) -> Result<Arg, Miss>
    ensures { Gives argument result (word_of names.now word.now) }
{
    if word == "true" {
        return Ok(Arg::Bool(true));
    }
    if word == "false" {
        return Ok(Arg::Bool(false));
    }
    match names.place(word) {
        Some(k) => Ok(Arg::Var(k as u64)),
        None => Err(Miss::Unfit),
    }
}

#[tactic(auto, unfolding(crate::specs::Arguments::word_at))]
fn word<'a>(names: &NameTable<'a>, bytes: &'a [u8]) -> Result<(Arg, &'a [u8]), Miss>
    ensures { Gives (with_rest argument) result (word_at names.now bytes.now) }
{
    let (w, rest) = given!(name(bytes));
    let a = given!(word_of(names, w));
    Ok((a, rest))
}

/// The set from `low` to the number that stands first.
#[tactic(auto, unfolding(crate::specs::Arguments::interval_set_at))]
fn interval(alloc: Global, low: i64, bytes: &[u8]) -> Result<(Arg, &[u8]), Miss>
    ensures { Gives (with_rest argument) result (interval_set_at low bytes.now) }
{
    let (s, rest) = given!(interval_from(alloc, low, bytes));
    Ok((Arg::Set(s), rest))
}

/// A number, or the set `l..u`.
#[tactic(auto, unfolding(crate::specs::Arguments::number_or_interval_at))]
fn number_or_interval(alloc: Global, bytes: &[u8]) -> Result<(Arg, &[u8]), Miss>
    ensures { Gives (with_rest argument) result (number_or_interval_at bytes.now) }
{
    let (n, rest) = given!(number(bytes));
    match behind(b"..", rest) {
        Some(high) => interval(alloc, n, high),
        None => Ok((Arg::Int(n), rest)),
    }
}

/// What follows an opening brace.
#[tactic(auto, unfolding(crate::specs::Arguments::braces_set_at))]
fn set_in_braces(alloc: Global, bytes: &[u8]) -> Result<(Arg, &[u8]), Miss>
    ensures { Gives (with_rest argument) result (braces_set_at bytes.now) }
{
    let (s, rest) = given!(braces(alloc, bytes));
    Ok((Arg::Set(s), rest))
}

fn starts_a_word(bytes: &[u8]) -> bool
    ensures { result ≡ letter (first_byte bytes.now) }
{
    match bytes {
        [] => false,
        [first, ..] => is_letter(*first),
    }
}

/// What begins with a digit, a minus or a brace.
#[tactic(auto, unfolding(crate::specs::Arguments::number_or_set_at))]
fn number_or_set(alloc: Global, bytes: &[u8]) -> Result<(Arg, &[u8]), Miss>
    ensures { Gives (with_rest argument) result (number_or_set_at bytes.now) }
{
    match behind(b"{", bytes) {
        Some(rest) => set_in_braces(alloc, rest),
        None => number_or_interval(alloc, bytes),
    }
}

/// An argument that is no array, or an element of one.
#[tactic(auto, unfolding(crate::specs::Arguments::plain_at))]
fn plain<'a>(alloc: Global, names: &NameTable<'a>, bytes: &'a [u8]) -> Result<(Arg, &'a [u8]), Miss>
    ensures { Gives (with_rest argument) result (plain_at names.now bytes.now) }
{
    if starts_a_word(bytes) {
        word(names, bytes)
    } else {
        number_or_set(alloc, bytes)
    }
}

/// An element of an array.
#[derive(Drop)]
struct Element<'t, 'a> {
    alloc: Global,
    names: &'t NameTable<'a>,
}

impl<'t, 'a> Part<'a> for Element<'t, 'a> {
    ghost use Rattle.fz_program.specs.Arguments.{Argument, argument};
    ghost use Rattle.fz_text_read.specs.Arguments.{plain_at};

    type Item = Arg;

    ghost Seen = { Argument };

    ghost seen = { argument };

    ghost read_at = { λ p. plain_at p.names.now };

    fn read(&self, bytes: &'a [u8]) -> Result<(Arg, &'a [u8]), Miss> {
        plain(self.alloc, self.names, bytes)
    }
}

#[tactic(auto, unfolding(crate::specs::Arguments::array_at))]
fn array<'a>(alloc: Global, names: &NameTable<'a>, bytes: &'a [u8]) -> Result<(Arg, &'a [u8]), Miss>
    ensures { Gives (with_rest argument) result (array_at names.now bytes.now) }
{
    let (items, rest) = given!(closed(alloc, &Element { alloc, names }, b"]", bytes));
    Ok((Arg::Array(items), rest))
}

#[tactic(auto, unfolding(crate::specs::Arguments::argument_at))]
fn argument<'a>(
    alloc: Global,
    names: &NameTable<'a>,
    bytes: &'a [u8],
) -> Result<(Arg, &'a [u8]), Miss>
    ensures { Gives (with_rest argument) result (argument_at names.now bytes.now) }
{
    match behind(b"[", bytes) {
        Some(rest) => array(alloc, names, rest),
        None => plain(alloc, names, bytes),
    }
}

/// An argument of a row.
#[derive(Drop)]
struct RowArgument<'t, 'a> {
    alloc: Global,
    names: &'t NameTable<'a>,
}

impl<'t, 'a> Part<'a> for RowArgument<'t, 'a> {
    ghost use Rattle.fz_program.specs.Arguments.{Argument as Shape, argument};
    ghost use Rattle.fz_text_read.specs.Arguments.{argument_at};

    type Item = Arg;

    ghost Seen = { Shape };

    ghost seen = { argument };

    ghost read_at = { λ p. argument_at p.names.now };

    fn read(&self, bytes: &'a [u8]) -> Result<(Arg, &'a [u8]), Miss> {
        argument(self.alloc, self.names, bytes)
    }
}

/// The arguments of a row and the closing parenthesis.
pub(crate) fn all_arguments<'a>(
    alloc: Global,
    names: &NameTable<'a>,
    bytes: &'a [u8],
) -> Result<(Vec<Arg>, &'a [u8]), Miss>
    ensures { Gives (with_rest (λ v. map argument v.items)) result (filled_at (codes ")") (argument_at names.now) bytes.now) }
{
    filled(alloc, &RowArgument { alloc, names }, b")", bytes)
}

/// The place of the variable whose name stands first.
#[tactic(auto, unfolding(crate::specs::Arguments::place_at))]
pub(crate) fn place<'a>(names: &NameTable<'a>, bytes: &'a [u8]) -> Result<(u64, &'a [u8]), Miss>
    ensures { Gives (with_rest (λ k. k)) result (place_at names.now bytes.now) }
{
    let (w, rest) = given!(name(bytes));
    match names.place(w) {
        Some(k) => Ok((k as u64, rest)),
        None => Err(Miss::Unfit),
    }
}

/// The place of an array's element.
#[derive(Drop)]
pub(crate) struct ArrayPlace<'t, 'a> {
    pub names: &'t NameTable<'a>,
}

impl<'t, 'a> Part<'a> for ArrayPlace<'t, 'a> {
    ghost use Rattle.std.specs.Prelude.{ℕ};
    ghost use Rattle.fz_text_read.specs.Arguments.{place_at};

    type Item = u64;

    ghost Seen = { ℕ };

    ghost seen = { λ k. k };

    ghost read_at = { λ p. place_at p.names.now };

    fn read(&self, bytes: &'a [u8]) -> Result<(u64, &'a [u8]), Miss> {
        place(self.names, bytes)
    }
}
