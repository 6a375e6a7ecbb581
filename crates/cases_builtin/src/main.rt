// Prints what the calls of the order of types, of the table and of overloads give, and then what each line of the input calls.
#![tactic(auto)]

mod applied;
mod calls;
mod case;
mod order;
mod rows;

use cases::Page;
use mz_base::Memory;
use std::alloc::Global;
use std::io;
use std::io::ErrorKind;

fn text(alloc: Global, input: &str) -> Result<String, Memory> {
    let mut out = String::new(alloc);
    order::push_cases(alloc, &mut out)?;
    calls::push_calls(alloc, &mut out)?;
    let mut page = Page::new(alloc);
    page.put(out.as_str());
    applied::print(alloc, input, &mut page)?;
    Ok(page.into_text()?)
}

fn main(rt: HostRuntime) -> io::Result<()> {
    let alloc = rt.alloc();
    let input = io::read_to_string(alloc, rt.reader())?;
    match text(alloc, input.as_str()) {
        Ok(out) => rt.print(out),
        Err(Memory) => Err(io::Error::from(ErrorKind::OutOfMemory)),
    }
}
