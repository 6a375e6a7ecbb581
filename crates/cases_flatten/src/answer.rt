// What an instance is flattened to.

use crate::draft::Draft;
use cases::Page;
use cases_instances::{are_named, is_instance};
use cases_solver::print_solutions;
use flat::flatten;
use fz_program::{FzProgram, well_formed};
use fz_text::write;
use mz_arena::Instance;
use mz_base::{Memory, Names};
use mz_io::MemSink;
use std::alloc::Global;

// Prints a program's text.
fn print_text(alloc: Global, p: &FzProgram, page: &mut Page) -> Result<(), Memory> {
    if !well_formed(p) {
        page.line("not well formed");
        return Ok(());
    }
    let mut sink = MemSink::new(alloc, Vec::new(alloc));
    let _wrote = write(alloc, p, &mut sink);
    match str::from_utf8(sink.bytes()) {
        Ok(text) => page.put(text),
        Err(_) => page.line("no text"),
    }
    Ok(())
}

// Prints what an instance is flattened to, and its solutions.
fn print_flattened(
    alloc: Global,
    inst: Instance,
    names: &Names,
    texts: &[String],
    page: &mut Page,
) -> Result<(), Memory> {
    let sound = given!(is_instance(alloc, &inst));
    if !sound {
        page.line("no instance");
        return Ok(());
    }
    let vars = inst.vars.as_slice();
    if !are_named(names, vars, texts) {
        page.line("no names");
        return Ok(());
    }
    let p = given!(flatten(alloc, inst, names));
    given!(print_text(alloc, &p, page));
    print_solutions(alloc, page, &p)
}

/// Prints what an instance is flattened to.
pub fn print_answer(alloc: Global, draft: Draft, page: &mut Page) -> Result<(), Memory> {
    let Draft {
        arena,
        names,
        vars,
        texts,
        labels: _labels,
        parts: _parts,
        choices: _choices,
        roots,
        goal,
    } = draft;
    let inst = Instance {
        arena,
        vars,
        roots,
        goal,
        pars: Vec::new(alloc),
    };
    print_flattened(alloc, inst, &names, texts.as_slice(), page)
}
