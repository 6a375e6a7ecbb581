// The words read as a request.

ghost use Rattle.std.specs.Prelude.{◌≡◌, IfOk};
ghost use Rattle.mz_words.specs.Commands.{files_command};
ghost use Rattle.mz_words.specs.Found.{Answers, HasLimits, text_of, words_in};
ghost use Rattle.mz_words.specs.Requests.{AskedWithinLimits, IsWithinLimits, asked, asked_of, request_of, settings, settings_found, settings_of};

use crate::command::{FileWords, WordsError, read_files, read_number};
use crate::request::{DEFAULT_BUDGET, DEFAULT_INT_RANGE, Options, Request};
use std::alloc::Global;

/// What is asked for, with the defaults for the options that aren't given.
fn options<'a>(words: FileWords<'a>) -> Options<'a>
    requires { HasLimits (words_in words) }
    ensures value { settings result ≡ settings_of (words_in words.entry) }
    ensures limits { IsWithinLimits (settings result) }
{
    let int_range = words.int_range.unwrap_or(DEFAULT_INT_RANGE);
    Options {
        model: words.model,
        data_files: words.data_files,
        budget: words.budget.unwrap_or(DEFAULT_BUDGET),
        int_range: int_range as i64,
    }
}

/// Reads the words of a command with files, of which the first is its name.
fn read_options<'a>(
    alloc: Global,
    name: &'a str,
    words: &'a [String],
) -> Result<Options<'a>, WordsError>
    ensures value { Answers settings (settings_found (files_command name.entry.now) (text_of words.entry.now)) result }
    ensures limits { IfOk result (λ o. IsWithinLimits (settings o)) }
{
    match read_files(alloc, name, words) {
        Ok(words) => Ok(options(words)),
        Err(error) => Err(error),
    }
}

/// Reads the words of the command of this name.
fn read_command<'a>(
    alloc: Global,
    name: &str,
    words: &'a [String],
) -> Result<Request<'a>, WordsError>
    ensures value { Answers request_of (asked_of name.now (text_of words.entry.now)) result }
    ensures limits { IfOk result (λ r. AskedWithinLimits (request_of r)) }
{
    match name {
        "compile" => match read_options(alloc, "compile", words) {
            Ok(options) => Ok(Request::Compile(options)),
            Err(error) => Err(error),
        },
        "check" => match read_options(alloc, "check", words) {
            Ok(options) => Ok(Request::Check(options)),
            Err(error) => Err(error),
        },
        "print" => match read_options(alloc, "print", words) {
            Ok(options) => Ok(Request::Print(options)),
            Err(error) => Err(error),
        },
        "make" => match read_number(alloc, "make", words) {
            Ok(number) => Ok(Request::Make(number)),
            Err(error) => Err(error),
        },
        _ => Err(WordsError::Usage),
    }
}

/// Reads the words after the program's name: `compile`, `check` or `print`, and after it a model, data files, `--budget N`
/// and `--int-range N` in any order, where after `--` every word is a file; or `make`, and after it a number.
///
/// `Usage` comes exactly where there is no first word, where it is no command, or where `clap` refuses the words for
/// that command. `Memory` may come at any words; nothing was opened or written then.
pub fn read_words<'a>(alloc: Global, words: &'a [String]) -> Result<Request<'a>, WordsError>
    ensures value { Answers request_of (asked (text_of words.entry.now)) result }
    ensures limits { IfOk result (λ r. AskedWithinLimits (request_of r)) }
{
    match words.first() {
        Some(name) => read_command(alloc, name.as_str(), words),
        None => Err(WordsError::Usage),
    }
}
