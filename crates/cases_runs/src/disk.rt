// Files of the file system.

use crate::outcome::put_fetched;
use crate::running::{print_run, run_line};
use cases::Page;
use mz_base::Memory;
use mz_io::{DiskFiles, Files, MemSink, MemSource};
use std::rt;

/// Fetches from the folder that the program runs in, where `m.mzn` has 15 bytes.
pub fn print<R: rt::Files + AllocGlobal>(rt: &R, page: &mut Page) {
    page.line("# files of the file system: as many bytes, one too many, a missing file, a folder");
    let mut files = DiskFiles::new(rt);
    for (name, limit) in [("m.mzn", 15), ("m.mzn", 14), ("no.mzn", 15), (".", 15)] {
        page.put("fetch ");
        page.show((name, limit));
        page.put(": ");
        put_fetched(page, files.fetch(rt.alloc(), name, limit));
        page.line("");
    }
}

/// Compiles from that folder, where `here.mzn` and `there.mzn` include each other through `./`.
pub fn print_circle<R: rt::Files + AllocGlobal>(rt: &R, page: &mut Page) -> Result<(), Memory> {
    page.line("# files that include each other through ./ end where a name is too long");
    let line = "compile here.mzn";
    page.put("mzc ");
    page.line(line);
    let alloc = rt.alloc();
    let mut files = DiskFiles::new(rt);
    let mut input = MemSource::new(Vec::new(alloc), 1, Vec::new(alloc));
    let mut out = MemSink::new(alloc, Vec::new(alloc));
    let mut notes = MemSink::new(alloc, Vec::new(alloc));
    let status = run_line(alloc, line, &mut files, &mut input, &mut out, &mut notes)?;
    print_run(page, status, out.bytes(), notes.bytes())
}
