// What words ask for: the words of a line are those after `words`, one blank between two.

use cases::Page;
use mz_base::Memory;
use mz_words::{Options, Request, WordsError, read_words};
use std::alloc::{AllocError, Global};

/// The words of a line after its first.
fn words_of(alloc: Global, line: &str) -> Result<Vec<String>, AllocError> {
    let mut words = Vec::new(alloc);
    for word in line.split(' ').skip(1) {
        words.push(String::from_str(alloc, word)?)?;
    }
    Ok(words)
}

/// The files, the budget and the range.
fn print_options(name: &str, options: &Options, page: &mut Page) {
    let model = options.model;
    let data_files = &options.data_files;
    let (budget, int_range) = (options.budget, options.int_range);
    page.line(format_args!("  {name} {model:?} {data_files:?} {budget} {int_range}"));
}

fn print_answer(alloc: Global, words: &[String], page: &mut Page) {
    match read_words(alloc, words) {
        Ok(Request::Compile(options)) => print_options("compile", &options, page),
        Ok(Request::Check(options)) => print_options("check", &options, page),
        Ok(Request::Print(options)) => print_options("print", &options, page),
        Ok(Request::Make(number)) => page.line(format_args!("  make {number}")),
        Err(WordsError::Usage) => page.line("  usage"),
        Err(WordsError::Memory) => page.line("  out of memory"),
    }
}

/// What the words of a line ask for.
pub fn print(alloc: Global, line: &str, page: &mut Page) -> Result<(), Memory> {
    let words = words_of(alloc, line)?;
    print_answer(alloc, words.as_slice(), page);
    Ok(())
}
