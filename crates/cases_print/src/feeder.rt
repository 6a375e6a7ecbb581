// A reader with what was fed to it, and the lines that its answers print.

ghost use Rattle.std.specs.Prelude.{◌≤◌, ◌+◌, length};

use cases::Page;
use mz_base::Memory;
use mz_value::Shape;
use soln_reader::{Next, SolnReader};
use std::alloc::Global;

/// The most bytes that a feeder takes.
const MOST: usize = 1 << 30;

/// A reader, and how many bytes were fed to it.
#[derive(Drop)]
pub struct Feeder {
    reader: SolnReader,
    fed: usize,
    ghost few: { reader.lines + length reader.bytes ≤ fed },
}

/// Prints an answer, and says whether another call may give more.
fn print_answer(next: &Next, page: &mut Page) -> bool {
    match next {
        Next::Block(a) => {
            page.line("  block");
            for v in &a.values {
                page.line(format_args!("    {v:?}"));
            }
            true
        }
        Next::Mark(m) => {
            page.line(format_args!("  mark {m:?}"));
            true
        }
        Next::Need => false,
        Next::End => {
            page.line("  end");
            false
        }
        Next::Bad(fault) => {
            page.line(format_args!("  bad: {fault:?}"));
            false
        }
        Next::Memory => {
            page.line("  out of memory");
            false
        }
    }
}

impl Feeder {
    /// A reader to which nothing was fed.
    pub fn new(alloc: Global, shapes: Vec<Shape>) -> Feeder {
        Feeder {
            reader: SolnReader::new(alloc, shapes),
            fed: 0,
        }
    }

    /// Feeds a piece, and prints the blocks and marks that it ends. A bad line is printed at the end alone.
    pub fn feed(&mut self, piece: &[u8], page: &mut Page) -> Result<(), Memory> {
        if MOST < self.fed || MOST < piece.len() {
            return Err(Memory);
        }
        self.reader.feed(piece)?;
        self.fed += piece.len();
        self.drain(false, page);
        Ok(())
    }

    /// Prints what the end of the stream gives.
    pub fn end(&mut self, page: &mut Page) {
        self.drain(true, page);
    }

    fn drain(&mut self, ended: bool, page: &mut Page) {
        for _ in 0..1000 {
            let next = self.reader.next(ended);
            if !ended && is_bad(&next) {
                return;
            }
            if !print_answer(&next, page) {
                return;
            }
        }
    }
}

fn is_bad(next: &Next) -> bool {
    matches!(next, Next::Bad(_))
}
