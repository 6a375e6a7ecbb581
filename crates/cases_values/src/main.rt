// What names, counts, numbers, places, values, trees and terms answer: each line is a call and its answer.
#![tactic(auto)]

mod base;
mod intervals;
mod places;
mod sets;
mod shown;
mod terms;
mod trees;

use cases::Page;
use mz_base::Memory;
use std::alloc::Global;
use std::io;
use std::io::ErrorKind;

/// All cases, in the order of the crates.
fn all(alloc: Global) -> Result<String, Memory> {
    let mut page = Page::new(alloc);
    base::kinds(&mut page);
    base::names(alloc, &mut page)?;
    base::steps(&mut page);
    base::nesting(&mut page);
    sets::sets(alloc, &mut page)?;
    sets::operations(alloc, &mut page)?;
    shown::texts(alloc, &mut page)?;
    shown::sets(alloc, &mut page)?;
    shown::empty_array(alloc, &mut page)?;
    shown::plane(alloc, &mut page)?;
    intervals::ends(&mut page);
    intervals::sums_and_products(&mut page);
    intervals::quotients_and_remainders(&mut page);
    intervals::negations_and_hulls(&mut page);
    places::in_row_order(alloc, &mut page)?;
    places::in_empty_ranges(alloc, &mut page)?;
    places::in_great_ranges(&mut page);
    trees::made(alloc, &mut page)?;
    terms::print(alloc, &mut page)?;
    Ok(page.into_text()?)
}

fn main(rt: HostRuntime) -> io::Result<()> {
    match all(rt.alloc()) {
        Ok(text) => rt.print(text),
        Err(Memory) => Err(io::Error::from(ErrorKind::OutOfMemory)),
    }
}
