// What a solver's stream is read to, with the lines at their limit; and what is printed of it, as it comes and where takes or
// puts fail in between.
#![tactic(auto)]

mod case;
mod feeder;
mod fixed;
mod limit;
mod reading;
mod run;
mod shapes;

use crate::fixed::Fixed;
use crate::run::Stream;
use cases::Page;
use mz_base::Memory;
use std::alloc::Global;
use std::io;
use std::io::ErrorKind;

/// Two blocks, and the mark that all solutions were given.
const TWO: &str = "x = 1;\n----------\n% a comment\nx = 3;\n----------\n==========\n";

/// Three blocks, of which the second is refused by a printer that refuses it.
const THREE: &str = "x = 1;\n----------\nx = 2;\n----------\nx = 3;\n----------\n";

/// A block, and a line that is no part of a solution.
const BAD: &str = "x = 1;\n----------\nx = 4;\n----------\n";

fn whole_streams(alloc: Global, page: &mut Page) -> Result<(), Memory> {
    let plain = Fixed::new(alloc, "a text", 0)?;
    let ended = Fixed::new(alloc, "a line\n", 0)?;
    let empty = Fixed::new(alloc, "", 0)?;
    let refusing = Fixed::new(alloc, "a text", 2)?;
    let two = Stream::new(TWO, 1000);
    two.print(alloc, page, "two blocks and a mark", &plain, 10_000)?;
    two.print(alloc, page, "texts that end their line", &ended, 10_000)?;
    two.print(alloc, page, "empty texts", &empty, 10_000)?;
    Stream::new(TWO, 1).print(alloc, page, "byte by byte", &plain, 10_000)?;
    Stream::new("", 1000).print(alloc, page, "nothing", &plain, 10_000)?;
    Stream::new(BAD, 1000).print(alloc, page, "a value outside the domain", &plain, 10_000)?;
    Stream::new(THREE, 1000).print(alloc, page, "a text that is refused", &refusing, 10_000)?;
    two.print(alloc, page, "at the limit", &plain, 59)?;
    two.print(alloc, page, "one byte over the limit", &plain, 58)
}

fn failing_streams(alloc: Global, page: &mut Page) -> Result<(), Memory> {
    let plain = Fixed::new(alloc, "a text", 0)?;
    for k in 0..4 {
        let stream = Stream::failing_takes(TWO, 20, k);
        stream.print(alloc, page, "a failing take", &plain, 10_000)?;
    }
    for k in 0..3 {
        let stream = Stream::failing_puts(TWO, 20, k);
        stream.print(alloc, page, "a failing put", &plain, 10_000)?;
    }
    Ok(())
}

fn all(alloc: Global, input: &str) -> Result<String, Memory> {
    let mut page = Page::new(alloc);
    reading::print(alloc, input, &mut page)?;
    limit::print(alloc, &mut page)?;
    whole_streams(alloc, &mut page)?;
    failing_streams(alloc, &mut page)?;
    Ok(page.into_text()?)
}

fn main(rt: HostRuntime) -> io::Result<()> {
    let alloc = rt.alloc();
    let input = io::read_to_string(alloc, rt.reader())?;
    match all(alloc, input.as_str()) {
        Ok(text) => rt.print(text),
        Err(Memory) => Err(io::Error::from(ErrorKind::OutOfMemory)),
    }
}
