// Runs of the compiler.

use crate::outcome::put_lines;
use cases::Page;
use cases_solver::print_solutions;
use fz_text::read;
use mz_base::Memory;
use mz_io::{Files, Sink, Source};
use mz_tool::{Status, run};
use std::alloc::Global;

/// Runs the words of a line.
pub fn run_line<F: Files, I: Source, S: Sink, E: Sink>(
    alloc: Global,
    line: &str,
    files: &mut F,
    input: &mut I,
    out: &mut S,
    notes: &mut E,
) -> Result<Status, Memory> {
    let mut words = Vec::new(alloc);
    for word in line.split_whitespace() {
        words.push(String::from_str(alloc, word)?)?;
    }
    Ok(run(alloc, &words, files, input, out, notes))
}

/// A run's status, each line that it wrote after `> `, and each line that it noted after `! `.
pub fn print_run(page: &mut Page, status: Status, out: &[u8], notes: &[u8]) -> Result<(), Memory> {
    match status {
        Status::Done => page.line("Done"),
        Status::Refused(_) => page.line("Refused"),
        Status::Usage => page.line("Usage"),
        Status::ReadFault => page.line("ReadFault"),
        Status::WriteFault => page.line("WriteFault"),
        Status::Memory => return Err(Memory),
    }
    put_lines(page, "> ", out);
    put_lines(page, "! ", notes);
    Ok(())
}

/// The solutions of the program that bytes spell, one on a line; nothing where they spell none.
pub fn print_solved(alloc: Global, page: &mut Page, bytes: &[u8]) -> Result<(), Memory> {
    match read(alloc, bytes) {
        Ok(p) => print_solutions(alloc, page, &p),
        Err(_) => Ok(()),
    }
}
