// Solutions, printed.

use crate::solve::{Choices, is_solution, numbered, possible, ways};
use crate::subset::has;
use crate::value::{Val, value_at};
use cases::Page;
use fz_program::{Domain, FzGoal, FzProgram, FzVar};
use mz_base::Memory;
use std::alloc::Global;

// A set, as its elements in braces.
fn put_set(page: &mut Page, mask: u64) {
    let mut first = true;
    page.put("{");
    for x in -20..44 {
        if has(mask, x) {
            if !first {
                page.put(",");
            }
            page.put(x);
            first = false;
        }
    }
    page.put("}");
}

fn put_value(page: &mut Page, domain: &Domain, v: Val) {
    match domain {
        Domain::Bool => page.put(if v.number == 1 { "true" } else { "false" }),
        Domain::Ints(_) => page.put(v.number),
        Domain::SetOf(_) => put_set(page, v.set),
    }
}

fn put_objective(page: &mut Page, values: &[Val], goal: FzGoal) {
    match goal {
        FzGoal::Satisfy => {}
        FzGoal::Minimize(k) => {
            page.put(" : ");
            page.put(value_at(values, k).number);
        }
        FzGoal::Maximize(k) => {
            page.put(" : ");
            page.put(value_at(values, k).number);
        }
    }
}

// The values of the variables that no row defines, and the objective, on a line.
fn print_solution(page: &mut Page, vars: &[FzVar], values: &[Val], goal: FzGoal) {
    page.put("solution");
    let mut k: u64 = 0;
    for v in vars {
        if !v.defined {
            page.put(" ");
            put_value(page, &v.domain, value_at(values, k));
        }
        k = k.wrapping_add(1);
    }
    put_objective(page, values, goal);
    page.put("\n");
}

// Prints the values of number `n`, where all rows hold under them.
fn print_numbered(
    alloc: Global,
    page: &mut Page,
    p: &FzProgram,
    all: &[Choices],
    n: u64,
) -> Result<(), Memory> {
    let mut values = given!(numbered(alloc, all, n));
    if is_solution(values.as_mut_slice(), all, p.rows.as_slice()) {
        print_solution(page, p.vars.as_slice(), values.as_slice(), p.goal);
    }
    Ok(())
}

/// Prints each solution of a program on a line: the values of the variables that no row defines, in order, and the
/// objective after a colon. What a row defines has the value that makes the row hold.
///
/// All values of the variables that no row defines are tried, the first 100,000 of them; integers are of -200 to 200,
/// and sets of integers of -20 to 43.
pub fn print_solutions(alloc: Global, page: &mut Page, p: &FzProgram) -> Result<(), Memory> {
    let all = given!(possible(alloc, p));
    let count = ways(all.as_slice());
    for n in 0..count {
        given!(print_numbered(alloc, page, p, all.as_slice(), n));
    }
    Ok(())
}
