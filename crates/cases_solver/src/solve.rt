// Values of all variables under which all rows hold.

use crate::domain::candidates;
use crate::row::holds;
use crate::value::{Val, of_number, value_at};
use fz_program::{FzProgram, FzRow};
use mz_base::Memory;
use std::alloc::Global;

/// The values that each variable may have, one of which defines it where a row does.
#[derive(Drop)]
pub(crate) struct Choices {
    /// The values of a variable's domain.
    pub(crate) values: Vec<Val>,
    /// Whether a row defines it.
    pub(crate) defined: bool,
}

/// What each variable of a program may be.
pub(crate) fn possible(alloc: Global, p: &FzProgram) -> Result<Vec<Choices>, Memory> {
    let mut all = Vec::new(alloc);
    for v in &p.vars {
        let values = given!(candidates(alloc, &v.domain));
        all.push(Choices {
            values,
            defined: v.defined,
        })?;
    }
    Ok(all)
}

/// How many values the variables have that no row defines, at most 100,000.
pub(crate) fn ways(all: &[Choices]) -> u64 {
    let mut ways: u64 = 1;
    for c in all {
        if !c.defined {
            ways = ways.saturating_mul(c.values.len() as u64);
        }
    }
    if ways < 100_000 { ways } else { 100_000 }
}

/// The values of number `n` of those that no row defines, and 0 for what a row defines. The last variable changes first.
pub(crate) fn numbered(alloc: Global, all: &[Choices], n: u64) -> Result<Vec<Val>, Memory> {
    let mut turned = Vec::new(alloc);
    let mut left = n;
    for c in all.iter().rev() {
        let count = c.values.len() as u64;
        if c.defined || count == 0 {
            turned.push(of_number(0))?;
        } else {
            turned.push(value_at(c.values.as_slice(), left % count))?;
            left /= count;
        }
    }
    let mut values = Vec::new(alloc);
    for v in turned.iter().rev() {
        values.push(*v)?;
    }
    Ok(values)
}

// Gives a variable a value.
fn put(values: &mut [Val], k: u64, v: Val) {
    if let Some(place) = values.get_mut(k as usize) {
        *place = v;
    }
}

// Gives a variable the first value under which this row holds, and tells whether there is one.
fn define(values: &mut [Val], candidates: &[Val], k: u64, r: &FzRow) -> bool {
    for v in candidates {
        put(values, k, *v);
        if holds(values, r) {
            return true;
        }
    }
    false
}

// Gives the variable that a row defines, if any, its value, and tells whether the row holds then.
fn settle(values: &mut [Val], all: &[Choices], r: &FzRow) -> bool {
    match r.defines {
        Some(k) => match all.get(k as usize) {
            Some(c) => define(values, c.values.as_slice(), k, r),
            None => false,
        },
        None => holds(values, r),
    }
}

/// Gives what rows define its value, row by row, and tells whether all rows hold.
pub(crate) fn is_solution(values: &mut [Val], all: &[Choices], rows: &[FzRow]) -> bool {
    for r in rows {
        if !settle(values, all, r) {
            return false;
        }
    }
    true
}
