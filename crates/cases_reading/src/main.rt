// What the readers of files and of command lines answer: each line of the input is a case, `tokens TEXT` say, and is written with its answer.
#![tactic(auto)]

mod data;
mod expressions;
mod file;
mod items;
mod spellings;
mod stopped;
mod tall;
mod tokens;
mod types;
mod words;

use cases::{Page, bytes_of};
use mz_base::{FILE_LIMIT, Memory};
use std::alloc::Global;
use std::io;
use std::io::ErrorKind;

/// What the case of a line answers. A line of another kind, as a comment, has no answer.
fn answer(alloc: Global, line: &str, page: &mut Page) -> Result<(), Memory> {
    if line.starts_with("words") {
        return words::print(alloc, line, page);
    }
    let (kind, text) = match line.split_once(' ') {
        Some((kind, text)) => (kind, text),
        None => (line, ""),
    };
    let bytes = bytes_of(alloc, text)?;
    if bytes.len() as u64 > FILE_LIMIT {
        return Ok(());
    }
    let bytes = bytes.as_slice();
    match kind {
        "tokens" => tokens::print(alloc, bytes, page),
        "items" => items::print(alloc, bytes, page),
        "places" => items::print_places(alloc, bytes, page),
        "data" => data::print(alloc, bytes, false, page),
        "outside" => data::print(alloc, bytes, true, page),
        "tall" => tall::print(alloc, page),
        _ => Ok(()),
    }
}

/// All cases with their answers.
fn all(alloc: Global, input: &str) -> Result<String, Memory> {
    let mut page = Page::new(alloc);
    for line in input.lines() {
        page.line(line);
        answer(alloc, line, &mut page)?;
    }
    Ok(page.into_text()?)
}

fn main(rt: HostRuntime) -> io::Result<()> {
    let alloc = rt.alloc();
    let input = io::read_to_string(alloc, rt.reader())?;
    match all(alloc, input.as_str()) {
        Ok(text) => rt.print(text),
        Err(Memory) => Err(io::Error::from(ErrorKind::OutOfMemory)),
    }
}
