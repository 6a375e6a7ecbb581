// How a program is written, where it is well formed.

use cases::Page;
use fz_program::{FzProgram, well_formed};
use fz_text::write;
use mz_base::Memory;
use mz_io::MemSink;
use std::alloc::Global;

/// Writes a program to a sink of which the puts of these numbers fail.
pub fn print_written(
    alloc: Global,
    p: &FzProgram,
    fails: u64,
    page: &mut Page,
) -> Result<(), Memory> {
    if !well_formed(p) {
        page.line("not well formed");
        return Ok(());
    }
    let mut sink = MemSink::new(alloc, vec![in alloc; fails]?);
    page.case("written", write(alloc, p, &mut sink));
    match str::from_utf8(sink.bytes()) {
        Ok(text) => page.put(text),
        Err(_) => page.line("no text"),
    }
    Ok(())
}
