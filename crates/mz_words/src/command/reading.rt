// The words of a command, read.

ghost use Rattle.std.specs.Prelude.{◌≡◌, ℕ, [], IfOk, IfSome, unwrap_or};
ghost use Rattle.clap.specs.Values.{IsUnsignedIn};
ghost use Rattle.clap.specs.Walk.{all_of, first_of, texts};
ghost use Rattle.clap.specs.Words.{app_of, kind_of};
ghost use Rattle.mz_words.specs.Commands.{files_command, number_command, rows_found};
ghost use Rattle.mz_words.specs.Found.{Answers, HasLimits, IsWithin, count_found, count_of, number_in, number_found, same_number, text_of, words_found, words_in, words_of};
ghost use Rattle.mz_words.specs.Parsed.{AreNumbers, HasCount, HasNumbers, IsExact, IsNumber, refusal_of, rows_in};
ghost use Rattle.mz_words.specs.declared.command.limits.TheConstants.{MAKE_LIMIT};

use crate::command::commands::{files_command, number_command};
use crate::command::error::WordsError;
use clap::error::ErrorKind;
use clap::{ArgMatches, Command, Error};
use std::alloc::{AllocError, Global};

/// The words of a command with files. The files are named as the words spell them.
#[derive(Debug, Drop)]
pub struct FileWords<'a> {
    /// The model's file.
    pub model: &'a str,
    /// The data files, in the order of the words.
    pub data_files: Vec<&'a str>,
    /// The most units of work, from 1 to `BUDGET_LIMIT`, where it is given.
    pub budget: Option<u64>,
    /// The greatest value of an unbounded variable, from 1 to `INT_RANGE_LIMIT`, where it is given.
    pub int_range: Option<u64>,
}

/// What comes of an error of `clap`, whose text is let go.
fn refusal(error: &Error) -> WordsError
    ensures { result ≡ refusal_of (kind_of error.now) }
{
    match error.kind() {
        ErrorKind::OutOfMemory => WordsError::Memory,
        _ => WordsError::Usage,
    }
}

/// Parses the words of a command, of which the first is its name.
fn parsed<'a>(mut command: Command<'a>, words: &'a [String]) -> Result<ArgMatches<'a>, WordsError>
    requires { IsExact (app_of command) }
    ensures value { Answers rows_in (rows_found (app_of command.entry) (text_of words.entry.now)) result }
    ensures numbers { IfOk result (λ m. AreNumbers (app_of command.entry) (rows_in m)) }
{
    match command.try_get_matches_from_mut(words) {
        Ok(matches) => Ok(matches),
        Err(error) => Err(refusal(&error)),
    }
}

/// Parses the words of a command with files.
fn parsed_files<'a>(
    alloc: Global,
    name: &'a str,
    words: &'a [String],
) -> Result<ArgMatches<'a>, WordsError>
    ensures value { Answers rows_in (rows_found (files_command name.entry.now) (text_of words.entry.now)) result }
    ensures numbers { IfOk result (λ m. HasNumbers (rows_in m)) }
{
    match files_command(alloc, name) {
        Ok(command) => parsed(command, words),
        Err(AllocError) => Err(WordsError::Memory),
    }
}

/// Parses the words of a command with a number.
fn parsed_number<'a>(
    alloc: Global,
    name: &'a str,
    words: &'a [String],
) -> Result<ArgMatches<'a>, WordsError>
    ensures value { Answers rows_in (rows_found (number_command name.entry.now) (text_of words.entry.now)) result }
    ensures count { IfOk result (λ m. HasCount (rows_in m)) }
{
    match number_command(alloc, name) {
        Ok(command) => parsed(command, words),
        Err(AllocError) => Err(WordsError::Memory),
    }
}

/// The number that a text writes.
fn number(text: &str) -> u64
    requires { IsUnsignedIn 1 18446744073709551615 text.now }
    ensures { result ≡ number_in text.now }
{
    text.parse::<u64>().unwrap_or(0)
}

/// The value of an option with a number, where it is given.
fn number_of(name: &str, matches: &ArgMatches) -> Option<u64>
    requires { (limit : ℕ) × IsNumber name.now limit (rows_in matches.now) }
    ensures value { result ≡ number_found name.now (rows_in matches.now) }
    ensures range { (limit : ℕ) → IsNumber name.now limit (rows_in matches.now) → IfSome result (IsWithin limit) }
{
    match matches.get_str(name) {
        Some(text) => Some(number(text)),
        None => None,
    }
}

/// The text of an argument that has one, and the empty text of another.
fn text_of<'a>(name: &str, matches: &ArgMatches<'a>) -> &'a str
    ensures { result.now ≡ unwrap_or (first_of name.now (rows_in matches.now)) [] }
{
    matches.get_str(name).unwrap_or("")
}

/// A copy of a list of texts.
fn copied<'a>(alloc: Global, texts: &[&'a str]) -> Result<Vec<&'a str>, AllocError>
    ensures { IfOk result (λ v. v.items ≡ texts.now) }
{
    let mut list = Vec::new(alloc);
    list.extend_from_slice(texts)?;
    Ok(list)
}

/// All texts of an argument, in the order of the words.
fn texts_of<'a>(
    alloc: Global,
    name: &str,
    matches: &ArgMatches<'a>,
) -> Result<Vec<&'a str>, AllocError>
    ensures { IfOk result (λ v. texts v.items ≡ unwrap_or (all_of name.now (rows_in matches.now)) []) }
{
    match matches.get_raw(name) {
        Some(texts) => copied(alloc, texts),
        None => Ok(Vec::new(alloc)),
    }
}

/// What `clap` found for a command with files.
fn found<'a>(alloc: Global, matches: &ArgMatches<'a>) -> Result<FileWords<'a>, AllocError>
    requires { HasNumbers (rows_in matches.now) }
    ensures value { IfOk result (λ w. words_in w ≡ words_of (rows_in matches.now)) }
    ensures limits { IfOk result (λ w. HasLimits (words_in w)) }
{
    let data_files = texts_of(alloc, "DATA", matches)?;
    Ok(FileWords {
        model: text_of("MODEL", matches),
        data_files,
        budget: number_of("budget", matches),
        int_range: number_of("int-range", matches),
    })
}

/// The number that `clap` found for a command with one.
fn count(matches: &ArgMatches) -> u64
    requires { HasCount (rows_in matches.now) }
    ensures value { result ≡ count_of (rows_in matches.now) }
    ensures limit { IsWithin MAKE_LIMIT result }
{
    number_of("N", matches).unwrap_or(1)
}

/// Reads the words of a command with files, of which the first is its name: a model, and after it data files,
/// `--budget N` and `--int-range N` in any order. After `--` every word is a file.
///
/// `Usage` comes exactly where `clap` refuses the words for the command of this name. `Memory` may come at any words.
pub fn read_files<'a>(
    alloc: Global,
    name: &'a str,
    words: &'a [String],
) -> Result<FileWords<'a>, WordsError>
    ensures value { Answers words_in (words_found (files_command name.entry.now) (text_of words.entry.now)) result }
    ensures limits { IfOk result (λ w. HasLimits (words_in w)) }
{
    match parsed_files(alloc, name, words) {
        Ok(matches) => Ok(found(alloc, &matches)?),
        Err(error) => Err(error),
    }
}

/// Reads the words of a command with a number, of which the first is its name: the number, from 1 to `MAKE_LIMIT`, and
/// nothing else but `--` before it.
///
/// `Usage` comes exactly where `clap` refuses the words for the command of this name. `Memory` may come at any words.
pub fn read_number<'a>(alloc: Global, name: &'a str, words: &'a [String]) -> Result<u64, WordsError>
    ensures value { Answers same_number (count_found (number_command name.entry.now) (text_of words.entry.now)) result }
    ensures limit { IfOk result (IsWithin MAKE_LIMIT) }
{
    match parsed_number(alloc, name, words) {
        Ok(matches) => Ok(count(&matches)),
        Err(error) => Err(error),
    }
}
