// What the outside answers, and what runs of the compiler and its gathering of files answer over files in memory: the
// blocks of the input, each written with its answer.
#![tactic(auto)]

mod block;
mod disk;
mod gathered;
mod memory;
mod outcome;
mod running;
mod streams;
mod torn;

use crate::block::Block;
use crate::streams::read_all;
use cases::Page;
use mz_base::Memory;
use mz_io::{Sent, Sink, StdSink, StdSource};
use std::alloc::Global;
use std::process::ExitCode;

/// Each block of a text with its answer. A block begins with a line that isn't indented.
fn print_blocks(alloc: Global, input: &str, page: &mut Page) -> Result<(), Memory> {
    let mut block = Block::new(alloc, "");
    for line in input.lines() {
        match line.strip_prefix("  ") {
            Some(part) => {
                page.line(line);
                block.add(alloc, part)?;
            }
            None => {
                block.answer(alloc, page)?;
                page.line(line);
                block = Block::new(alloc, line);
            }
        }
    }
    block.answer(alloc, page)
}

/// What the outside answers, and then each block of standard input.
fn print_all(rt: &HostRuntime, page: &mut Page) -> Result<(), Memory> {
    let alloc = rt.alloc();
    disk::print(rt, page);
    disk::print_circle(rt, page)?;
    memory::print_fetches(alloc, page)?;
    memory::print_takes(alloc, page)?;
    memory::print_puts(alloc, page)?;
    streams::print(page);
    page.case(
        "no bytes to standard error",
        StdSink::new(rt.stderr()).put(b""),
    );
    let input = read_all(alloc, &mut StdSource::new(rt.stdin()))?;
    print_blocks(alloc, input.as_str(), page)
}

fn main(rt: HostRuntime) -> ExitCode {
    let mut page = Page::new(rt.alloc());
    let printed = print_all(&rt, &mut page);
    match page.into_text() {
        Ok(text) if printed.is_ok() => written(&mut StdSink::new(rt.stdout()), text.as_str()),
        _ => ExitCode::FAILURE,
    }
}

/// Writes a text to a sink.
fn written<S: Sink>(out: &mut S, text: &str) -> ExitCode {
    if out.put(text.as_bytes()) == Sent::All {
        ExitCode::SUCCESS
    } else {
        ExitCode::FAILURE
    }
}
