// What operators and built-ins give of values, and what they cost, where no model says it: each line of the input is a call, and is
// written with its answer. What a model says of them stands among the cases of whole models.

use crate::case::{arguments_of, sizes_of};
use crate::rows::row_named;
use cases::Page;
use mz_base::{Fault, Memory, Span, Stop};
use mz_builtin_apply::{apply_row, cost_of, is_applied, is_failed, read_as};
use mz_operations::Row;
use mz_value::Value;
use std::alloc::Global;

fn refused(call: &str, fault: Fault, page: &mut Page) {
    page.put(call);
    page.put(": ");
    page.show(fault.kind);
    page.put(" ");
    page.show(fault.number);
    page.put("\n");
}

fn not_asked(call: &str, page: &mut Page) {
    page.put(call);
    page.put(": not asked\n");
}

fn answered(
    call: &str,
    answer: Result<Option<Value>, Stop>,
    page: &mut Page,
) -> Result<(), Memory> {
    match answer {
        Ok(value) => {
            page.case(call, value);
            Ok(())
        }
        Err(Stop::Refused(fault)) => {
            refused(call, fault, page);
            Ok(())
        }
        Err(Stop::Memory) => Err(Memory),
    }
}

fn called(
    alloc: Global,
    call: &str,
    row: Row,
    args: &[Option<Value>],
    page: &mut Page,
) -> Result<(), Memory> {
    let row = read_as(row, args);
    if !is_applied(row) || is_failed(row, args) {
        not_asked(call, page);
        return Ok(());
    }
    answered(call, apply_row(alloc, row, args, Span::start(0)), page)
}

/// The call of a line that begins with a row's name.
fn one(alloc: Global, name: &str, call: &str, words: &str, page: &mut Page) -> Result<(), Memory> {
    let args = arguments_of(alloc, words)?;
    match row_named(name) {
        Some(row) => called(alloc, call, row, &args, page),
        None => {
            not_asked(call, page);
            Ok(())
        }
    }
}

/// The cost that a line of `cost` asks for.
fn cost(alloc: Global, name: &str, call: &str, words: &str, page: &mut Page) -> Result<(), Memory> {
    let sizes = sizes_of(alloc, words)?;
    if let Some(row) = row_named(name) {
        page.put("cost of ");
        page.case(call, cost_of(row, &sizes));
    }
    Ok(())
}

/// The answer of a line. A line of another kind, as a comment, has no answer.
fn answer(alloc: Global, line: &str, page: &mut Page) -> Result<(), Memory> {
    let Some((name, rest)) = line.split_once(';') else {
        return Ok(());
    };
    let Some((call, words)) = rest.split_once(';') else {
        return Ok(());
    };
    match name.strip_prefix("cost ") {
        Some(name) => cost(alloc, name, call.trim(), words, page),
        None => one(alloc, name, call.trim(), words, page),
    }
}

/// All answers.
pub fn print(alloc: Global, input: &str, page: &mut Page) -> Result<(), Memory> {
    for line in input.lines() {
        answer(alloc, line, page)?;
    }
    Ok(())
}
