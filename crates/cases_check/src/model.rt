// The model of a case: the expression is that of its last constraint, and the written type that of the result of its last function.

ghost use Rattle.std.specs.Prelude.{List, ℕ};
ghost use Rattle.mz_include.specs.WithData.{AreKnownWithData};

use crate::typing;
use crate::typing::Kind;
use cases::{Page, bytes_of};
use mz_analysis::scoped_model;
use mz_base::{Memory, Names};
use mz_include::GatherEnd;
use mz_include::with_data::{SourcesWithData, gather_with_data};
use mz_io::MemFiles;
use std::alloc::Global;

/// The text of the model with that of the case, which is its third line.
fn text_of(alloc: Global, model: &str, kind: Kind, text: &str) -> Result<String, Memory> {
    let (before, after) = match kind {
        Kind::Written => ("function", ": the_last = 1"),
        _ => ("constraint", ""),
    };
    Ok(format!(in alloc; "{model}\n{before}\n{text}\n{after}; solve satisfy;")?)
}

/// Adds a file.
fn push_file(
    alloc: Global,
    files: &mut Vec<(String, Vec<u8>)>,
    name: &str,
    text: &str,
) -> Result<(), Memory> {
    let name = String::from_str(alloc, name)?;
    let bytes = bytes_of(alloc, text)?;
    files.push((name, bytes))?;
    Ok(())
}

/// The model, and after ` @@ ` the file `a.mzn`, which it may include; without one that file is empty.
pub fn files_of(alloc: Global, text: &str) -> Result<MemFiles, Memory> {
    let (model, included) = match text.split_once(" @@ ") {
        Some((model, included)) => (model, included),
        None => (text, ""),
    };
    let mut files = Vec::new(alloc);
    push_file(alloc, &mut files, "m.mzn", model)?;
    push_file(alloc, &mut files, "a.mzn", included)?;
    Ok(MemFiles::new(files, Vec::new(alloc)))
}

/// What a case is typed to in the scope of these files.
fn print_in(
    alloc: Global,
    read: &SourcesWithData,
    names: &Names,
    kind: Kind,
    text: &str,
    page: &mut Page,
) -> Result<(), Memory>
    requires { (data_names : List (List ℕ)) × AreKnownWithData names.now data_names read.now }
{
    if read.sources.files.is_empty() {
        return Ok(());
    }
    match scoped_model(alloc, read, names) {
        Ok(scoped) => typing::print(alloc, &scoped, names, kind, text, page),
        Err(stop) => typing::print_stop(page, stop),
    }
}

/// The kind of a case, and its text.
fn case_of(line: &str) -> (Kind, &str) {
    if let Some(text) = line.strip_prefix("type ") {
        return (Kind::Written, text);
    }
    if let Some(text) = line.strip_prefix("output ") {
        return (Kind::Output, text);
    }
    (Kind::Expression, line)
}

/// What a case is typed to in a model, or that the two aren't read.
pub fn print(alloc: Global, model: &str, line: &str, page: &mut Page) -> Result<(), Memory> {
    let (kind, text) = case_of(line);
    let source = text_of(alloc, model, kind, text)?;
    let mut files = files_of(alloc, source.as_str())?;
    let mut names = Names::new(alloc);
    match gather_with_data(alloc, "m.mzn", &[], &mut files, &mut names) {
        Ok(read) => print_in(alloc, &read, &names, kind, text, page),
        Err(GatherEnd::Memory) => Err(Memory),
        Err(_) => {
            page.line("  not read");
            Ok(())
        }
    }
}
