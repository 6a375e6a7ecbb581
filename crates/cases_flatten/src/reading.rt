// How texts are read. Each case of the input is a text. It is answered by whether the program that it is read to is well
// formed, and by what that program is written as, or the refusal where the text isn't its one spelling.

use crate::written::print_written;
use cases::Page;
use fz_items::Miss;
use fz_program::well_formed;
use fz_text::read;
use fz_text_read::read_program;
use mz_base::{Memory, Stop};
use std::alloc::Global;

/// Why a text isn't read.
fn print_stop(stop: Stop, page: &mut Page) -> Result<(), Memory> {
    match stop {
        Stop::Refused(fault) => {
            page.case("refused", fault);
            Ok(())
        }
        Stop::Memory => Err(Memory),
    }
}

/// Whether the program that a text is read to is well formed, where it is read to one.
fn print_formed(alloc: Global, text: &str, page: &mut Page) -> Result<(), Memory> {
    match read_program(alloc, text.as_bytes()) {
        Ok(p) => {
            page.case("well formed", well_formed(&p));
            Ok(())
        }
        Err(Miss::Unfit) => {
            page.line("no program");
            Ok(())
        }
        Err(Miss::Memory) => Err(Memory),
    }
}

/// What reading a text answers.
fn print_read(alloc: Global, text: &str, page: &mut Page) -> Result<(), Memory> {
    given!(print_formed(alloc, text, page));
    match read(alloc, text.as_bytes()) {
        Ok(p) => print_written(alloc, &p, 9, page),
        Err(stop) => print_stop(stop, page),
    }
}

/// Adds to a case's text what a line says: `|` and a line, or `+` and a text without a newline.
fn add(text: &mut String, line: &str) -> Result<(), Memory> {
    if let Some(whole) = line.strip_prefix('|') {
        text.push_str(whole)?;
        text.push('\n')?;
    } else if let Some(part) = line.strip_prefix('+') {
        text.push_str(part)?;
    }
    Ok(())
}

/// All cases. A case begins with a line of its own, and goes to the next such line.
pub fn print(alloc: Global, input: &str, page: &mut Page) -> Result<(), Memory> {
    let mut text = String::new(alloc);
    let mut begun = false;
    for line in input.lines() {
        if line.starts_with('|') || line.starts_with('+') {
            given!(add(&mut text, line));
        } else {
            if begun {
                given!(print_read(alloc, text.as_str(), page));
            }
            begun = true;
            text = String::new(alloc);
            page.line(line);
        }
    }
    print_read(alloc, text.as_str(), page)
}
