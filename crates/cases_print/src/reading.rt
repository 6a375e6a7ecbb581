// What a solver's stream is read to: each case of the input with its events, and in how many of the cuts they are the
// same.

use crate::case::Case;
use cases::Page;
use mz_base::Memory;
use std::alloc::Global;

/// All cases. A case begins with `full` or `small`, and goes to the next case.
pub fn print(alloc: Global, input: &str, page: &mut Page) -> Result<(), Memory> {
    let mut case = Case::new(alloc, "");
    for line in input.lines() {
        if line.starts_with('|') || line.starts_with('+') {
            page.line(line);
            case.add(alloc, line)?;
        } else {
            case.answer(alloc, page)?;
            page.line(line);
            case = Case::new(alloc, line);
        }
    }
    case.answer(alloc, page)
}
