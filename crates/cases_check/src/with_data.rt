// What the names of a model with its data mean, and what it is typed to.

ghost use Rattle.std.specs.Prelude.{length, map, All};
ghost use Rattle.mz_tree.specs.Data.{given};
ghost use Rattle.mz_tree.specs.Named.{IsGivenWithin};
ghost use Rattle.mz_include.specs.Views.{AreKnown};

use crate::given::all_data;
use crate::model::files_of;
use crate::scoping::print_scoped;
use crate::typed::put_tree;
use crate::types::put_type;
use cases::Page;
use mz_base::{Memory, Names, Stop};
use mz_check::check;
use mz_core::Program;
use mz_include::{GatherEnd, gather};
use mz_scope::scope;
use mz_tree::{Data, Sources};
use std::alloc::Global;

/// What is written of a model: its scope, the value of its last declaration, or that it is typed.
#[derive(Clone, Copy, Debug, PartialEq, Eq)]
enum Shown {
    Scope,
    LastValue,
    IsTyped,
}

/// A refusal: its kind, and its place as the number of its file, its line and its column.
fn print_stop(page: &mut Page, stop: Stop) -> Result<(), Memory> {
    match stop {
        Stop::Refused(fault) => {
            let at = fault.span;
            page.put("  ");
            page.put(fault.kind.name());
            page.line(format_args!(" at {}:{}:{}", at.file, at.line, at.col));
            Ok(())
        }
        Stop::Memory => Err(Memory),
    }
}

/// The value of the last declaration, with its type.
fn print_last(program: &Program, page: &mut Page) {
    let count = program.decls.len() as u64;
    if let [.., last] = program.decls.as_slice() {
        if let Some(e) = &last.value {
            page.put("  ");
            put_type(page, &e.ty);
            page.put(": ");
            put_tree(page, "", count, e);
        }
    }
    page.line("");
}

/// What the names of these files mean with their data.
fn print_scope(
    alloc: Global,
    sources: &Sources,
    given_data: &Data,
    names: &Names,
    page: &mut Page,
) -> Result<(), Memory>
    requires known { AreKnown names.now sources.now.files.items }
    requires within { All (IsGivenWithin (length names.now)) (map given given_data.now.items.items) }
{
    match scope(alloc, sources, given_data, names) {
        Ok(scoped) => {
            print_scoped(page, &scoped);
            Ok(())
        }
        Err(stop) => print_stop(page, stop),
    }
}

/// What these files are typed to with their data.
fn typed(
    alloc: Global,
    sources: &Sources,
    given_data: &Data,
    names: &Names,
) -> Result<Program, Stop>
    requires known { AreKnown names.now sources.now.files.items }
    requires within { All (IsGivenWithin (length names.now)) (map given given_data.now.items.items) }
{
    let scoped = scope(alloc, sources, given_data, names)?;
    check(alloc, &scoped, names)
}

/// The program that these files are typed to with their data: the value of its last declaration, or that there is one.
fn print_typed(
    alloc: Global,
    sources: &Sources,
    given_data: &Data,
    names: &Names,
    shows_last: bool,
    page: &mut Page,
) -> Result<(), Memory>
    requires known { AreKnown names.now sources.now.files.items }
    requires within { All (IsGivenWithin (length names.now)) (map given given_data.now.items.items) }
{
    match typed(alloc, sources, given_data, names) {
        Ok(program) => {
            if shows_last {
                print_last(&program, page);
            } else {
                page.line("  typed");
            }
            Ok(())
        }
        Err(stop) => print_stop(page, stop),
    }
}

/// What is to be written of these files with their data.
fn print_model(
    alloc: Global,
    sources: &Sources,
    given_data: &Data,
    names: &Names,
    shown: Shown,
    page: &mut Page,
) -> Result<(), Memory>
    requires known { AreKnown names.now sources.now.files.items }
    requires within { All (IsGivenWithin (length names.now)) (map given given_data.now.items.items) }
{
    match shown {
        Shown::Scope => print_scope(alloc, sources, given_data, names, page),
        Shown::LastValue => print_typed(alloc, sources, given_data, names, true, page),
        Shown::IsTyped => print_typed(alloc, sources, given_data, names, false, page),
    }
}

/// What is to be written of these files with the data in a text, or that it isn't read.
fn print_in(
    alloc: Global,
    sources: &Sources,
    data: &str,
    names: &mut Names,
    shown: Shown,
    page: &mut Page,
) -> Result<(), Memory>
    requires { AreKnown names.old sources.now.files.items }
{
    match all_data(alloc, data, sources.files.len() as u64, names) {
        Ok(data) => print_model(alloc, sources, &data, names, shown, page),
        Err(Stop::Memory) => Err(Memory),
        Err(Stop::Refused(_)) => {
            page.line("  data not read");
            Ok(())
        }
    }
}

/// What is to be written of a model with the data in a text, or that they aren't read.
fn print_with(
    alloc: Global,
    model: &str,
    data: &str,
    shown: Shown,
    page: &mut Page,
) -> Result<(), Memory> {
    let mut files = files_of(alloc, model)?;
    let mut names = Names::new(alloc);
    match gather(alloc, "m.mzn", &mut files, &mut names) {
        Ok(sources) => print_in(alloc, &sources, data, &mut names, shown, page),
        Err(GatherEnd::Memory) => Err(Memory),
        Err(_) => {
            page.line("  not read");
            Ok(())
        }
    }
}

/// The model in which values from data are typed.
fn given_model() -> &'static str {
    "enum E = {A, B, C}; enum F = {P, Q}; int: n = 1; var int: x; function int: one = 1; function int: dbl(int: i) = i;"
}

/// What the value of a declaration from data is typed to: `TYPE = VALUE`, where the model has one more declaration of the type.
pub fn print_given(alloc: Global, text: &str, page: &mut Page) -> Result<(), Memory> {
    let (ty, value) = match text.split_once(" = ") {
        Some((ty, value)) => (ty, value),
        None => (text, ""),
    };
    let model = given_model();
    let source = format!(in alloc; "{model} {ty}: the_last; solve satisfy;")?;
    let data = format!(in alloc; "the_last = {value}")?;
    print_with(
        alloc,
        source.as_str(),
        data.as_str(),
        Shown::LastValue,
        page,
    )
}

/// A model, with its data after ` ## `.
fn model_and_data(text: &str) -> (&str, &str) {
    match text.split_once(" ## ") {
        Some((model, data)) => (model, data),
        None => (text, ""),
    }
}

/// The scope of a model with its data: `MODEL ## DATA`.
pub fn print_scope_of(alloc: Global, text: &str, page: &mut Page) -> Result<(), Memory> {
    let (model, data) = model_and_data(text);
    print_with(alloc, model, data, Shown::Scope, page)
}

/// Whether a model is typed with its data: `MODEL ## DATA`, or with the data of two files `MODEL ## DATA ## DATA`.
pub fn print_checked(alloc: Global, text: &str, page: &mut Page) -> Result<(), Memory> {
    let (model, data) = model_and_data(text);
    print_with(alloc, model, data, Shown::IsTyped, page)
}
