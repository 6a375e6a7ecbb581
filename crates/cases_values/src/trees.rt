// Trees that are made from parts.

use cases::Page;
use mz_base::{Memory, Names, Span};
use mz_tree::{BinOp, PlacedOp, make_chain, make_ident, make_int, make_let, make_rows};
use std::alloc::Global;

pub fn made(alloc: Global, page: &mut Page) -> Result<(), Memory> {
    page.line("# trees");
    let at = Span::start(0);
    let mut names = Names::new(alloc);
    let x = names.intern("x")?;
    let mut steps = Vec::new(alloc);
    let op = PlacedOp {
        op: BinOp::Add,
        start: at,
    };
    steps.push((op, make_int(at, 1)))?;
    let sum = make_chain(alloc, at, make_ident(at, x), steps)?;
    let body = make_let(alloc, at, Vec::new(alloc), sum)?;
    page.case("let {} in x + 1", &body);
    let rows = make_rows(at, Vec::new(alloc));
    page.case("[| |]", &rows);
    Ok(())
}
