// What expressions and written types are typed to. The first line of the input is the model that all of them are typed in. Each other
// line is a case: an expression, after `output ` one in an output item, after `type ` a written type. It is written with its answer:
// the type and the typed tree, or the refusal and its column.
//
// After `given ` stand a declared type, ` = ` and a value of a data file: the answer is what that is typed to for a declaration of the
// type, in a model with some enums, declarations and functions. After `check ` and `scope ` stands a model of its own, with the text of
// a file `a.mzn`, which it may include, after ` @@ `, its data after ` ## ` and that of a second file after another ` ## `: `check` says
// whether it is typed, `scope` what its names mean. Refusals have the number of their file, the line and the column: the model's file
// is 0, and those of data come last.
#![tactic(auto)]

mod given;
mod model;
mod scoping;
mod typed;
mod types;
mod typing;
mod with_data;
mod words;

use cases::Page;
use mz_base::Memory;
use std::alloc::Global;
use std::io;
use std::io::ErrorKind;

/// What the case of a line answers.
fn answer(alloc: Global, model: &str, line: &str, page: &mut Page) -> Result<(), Memory> {
    if let Some(text) = line.strip_prefix("given ") {
        return with_data::print_given(alloc, text, page);
    }
    if let Some(text) = line.strip_prefix("check ") {
        return with_data::print_checked(alloc, text, page);
    }
    if let Some(text) = line.strip_prefix("scope ") {
        return with_data::print_scope_of(alloc, text, page);
    }
    model::print(alloc, model, line, page)
}

/// The cases of these lines, each with its answer.
fn print_cases(alloc: Global, model: &str, lines: &str, page: &mut Page) -> Result<(), Memory> {
    for line in lines.lines() {
        page.line(line);
        if !line.starts_with("#") {
            answer(alloc, model, line, page)?;
        }
    }
    Ok(())
}

/// The model and all cases with their answers.
fn all(alloc: Global, input: &str) -> Result<String, Memory> {
    let mut page = Page::new(alloc);
    let (model, lines) = match input.split_once("\n") {
        Some((model, lines)) => (model, lines),
        None => (input, ""),
    };
    page.line(model);
    print_cases(alloc, model, lines, &mut page)?;
    Ok(page.into_text()?)
}

fn main(rt: HostRuntime) -> io::Result<()> {
    let alloc = rt.alloc();
    let input = io::read_to_string(alloc, rt.reader())?;
    match all(alloc, input.as_str()) {
        Ok(text) => rt.print(text),
        Err(Memory) => Err(io::Error::from(ErrorKind::OutOfMemory)),
    }
}
