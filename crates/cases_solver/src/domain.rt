// The values of a domain.

use crate::subset::{bit_of, has, mask_of};
use crate::value::{Val, of_number, of_set, of_truth};
use fz_program::Domain;
use mz_base::Memory;
use mz_value::RangeSet;
use std::alloc::Global;

// The integers of -200 to 200 that a set has.
fn numbers(alloc: Global, s: &RangeSet) -> Result<Vec<Val>, Memory> {
    let mut all = Vec::new(alloc);
    for x in -200..201 {
        if s.contains(x) {
            all.push(of_number(x))?;
        }
    }
    Ok(all)
}

// Adds to sets those that have this integer besides.
fn add_with(all: &mut Vec<Val>, x: i64) -> Result<(), Memory> {
    let count = all.len();
    for i in 0..count {
        if let Some(v) = all.get(i) {
            let more = of_set(v.set | bit_of(x));
            all.push(more)?;
        }
    }
    Ok(())
}

// The subsets of a set.
fn subsets(alloc: Global, s: &RangeSet) -> Result<Vec<Val>, Memory> {
    let mask = mask_of(s);
    let mut all = Vec::new(alloc);
    all.push(of_set(0))?;
    for x in -20..44 {
        if has(mask, x) {
            given!(add_with(&mut all, x));
        }
    }
    Ok(all)
}

/// The values of a domain: of integers those of -200 to 200, and of sets those of integers of -20 to 43.
pub(crate) fn candidates(alloc: Global, domain: &Domain) -> Result<Vec<Val>, Memory> {
    match domain {
        Domain::Bool => Ok(vec![in alloc; of_truth(false), of_truth(true)]?),
        Domain::Ints(s) => numbers(alloc, s),
        Domain::SetOf(s) => subsets(alloc, s),
    }
}
