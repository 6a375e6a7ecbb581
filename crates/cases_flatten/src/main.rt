// What instances are flattened to: each case of the input is an instance, line by line; it is answered by the FlatZinc program
// and by the program's solutions. After `== texts` each case is a FlatZinc text.
#![tactic(auto)]

// What a call gives. Its error is handed on as it is: `?` would convert it.
macro_rules! given {
    ($call:expr) => {
        match $call {
            Ok(x) => x,
            Err(e) => return Err(e),
        }
    };
}

mod answer;
mod built;
mod declare;
mod draft;
mod line;
mod reading;
mod set;
mod term;
mod texts;
mod unspelled;
mod written;

use crate::answer::print_answer;
use crate::draft::Draft;
use crate::line::add_line;
use cases::Page;
use mz_base::Memory;
use std::alloc::Global;
use std::io;
use std::io::ErrorKind;

/// All cases. A case begins with a line that doesn't begin with `|`, and goes to the next such line.
fn print_cases(alloc: Global, input: &str, page: &mut Page) -> Result<(), Memory> {
    let mut draft = Draft::new(alloc);
    let mut begun = false;
    for line in input.lines() {
        if let Some(words) = line.strip_prefix('|') {
            page.line(line);
            if !given!(add_line(alloc, &mut draft, words)) {
                page.line("no such line");
            }
        } else {
            if begun {
                given!(print_answer(alloc, draft, page));
            }
            begun = true;
            draft = Draft::new(alloc);
            page.line(line);
        }
    }
    print_answer(alloc, draft, page)
}

fn all(alloc: Global, input: &str) -> Result<String, Memory> {
    let mut page = Page::new(alloc);
    let (instances, rest) = match input.split_once("== texts\n") {
        Some(parts) => parts,
        None => (input, ""),
    };
    given!(print_cases(alloc, instances, &mut page));
    given!(texts::print(alloc, rest, &mut page));
    Ok(page.into_text()?)
}

fn main(rt: HostRuntime) -> io::Result<()> {
    let alloc = rt.alloc();
    let input = io::read_to_string(alloc, rt.reader())?;
    match all(alloc, input.as_str()) {
        Ok(text) => rt.print(text),
        Err(Memory) => Err(io::Error::from(ErrorKind::OutOfMemory)),
    }
}
