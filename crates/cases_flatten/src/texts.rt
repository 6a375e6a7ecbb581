// What the calls on FlatZinc programs answer: which words are names, what programs that no text spells are, what a builder
// makes; then each text of the input is read, and what it is read to is written again.

use crate::built::built;
use crate::written::print_written;
use crate::{reading, unspelled};
use cases::Page;
use fz_program::is_identifier;
use mz_base::Memory;
use std::alloc::Global;

const WORDS: [&str; 8] = ["x", "X_1b", "variable", "var", "_x", "1x", "x-y", ""];

fn print_words(page: &mut Page) {
    for word in &WORDS {
        page.case(word, is_identifier(word.as_bytes()));
    }
}

/// What is built is written twice, the second time to a sink that takes nothing.
fn print_built(alloc: Global, page: &mut Page) -> Result<(), Memory> {
    let made = given!(built(alloc, page));
    given!(print_written(alloc, &made, 9, page));
    print_written(alloc, &made, 0, page)
}

/// All of them.
pub fn print(alloc: Global, input: &str, page: &mut Page) -> Result<(), Memory> {
    print_words(page);
    given!(unspelled::print(alloc, page));
    given!(print_built(alloc, page));
    reading::print(alloc, input, page)
}
