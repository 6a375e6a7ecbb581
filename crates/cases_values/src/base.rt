// Kinds of refusal, names, and what is counted against a limit.

use cases::Page;
use mz_base::{Depth, Kind, Memory, Names, Steps, Stop};
use std::alloc::Global;

pub fn kinds(page: &mut Page) {
    page.line("# kinds of refusal, and why a stage stops");
    for kind in [Kind::Lexical, Kind::Cyclic, Kind::Budget, Kind::Syntax] {
        page.put(kind.name());
        page.case(" shows its number", kind.shows_number());
    }
    page.case("out of memory", Stop::from(Memory));
}

pub fn names(alloc: Global, page: &mut Page) -> Result<(), Memory> {
    page.line("# equal texts alone have equal names, and a name keeps its text");
    let mut names = Names::new(alloc);
    let queens = names.intern("queens")?;
    let queen = names.intern("queen")?;
    let none = names.intern("")?;
    page.case("queens and queens", names.intern("queens")? == queens);
    page.case("the empty text and itself", names.intern("")? == none);
    page.case("queens and queen", queens == queen);
    page.case("queens and the empty text", queens == none);
    found_text(alloc, page)?;
    kept_text(alloc, page)
}

fn found_text(alloc: Global, page: &mut Page) -> Result<(), Memory> {
    let mut names = Names::new(alloc);
    let rook = names.intern("rook")?;
    page.case(
        "rook is found as what it is",
        names.find("rook") == Some(rook),
    );
    page.case("knight is found", names.find("knight").is_some());
    Ok(())
}

fn kept_text(alloc: Global, page: &mut Page) -> Result<(), Memory> {
    let mut names = Names::new(alloc);
    let first = names.intern("\u{e9}t\u{e9}")?;
    names.intern("x")?;
    page.case("the first text, after one more", names.text(first));
    Ok(())
}

pub fn steps(page: &mut Page) {
    page.line("# steps against a budget of 10");
    let mut steps = Steps::new(10);
    page.case("spend 4", steps.spend(4));
    page.case("spend 6", steps.spend(6));
    page.case("used", steps.used());
    page.case("spend 1", steps.spend(1));
    page.case("used", steps.used());
    page.case("spend 0", steps.spend(0));
}

pub fn nesting(page: &mut Page) {
    page.line("# nesting of at most 2");
    let mut depth = Depth::new(2);
    page.case("enter", depth.enter());
    page.case("enter", depth.enter());
    page.case("enter", depth.enter());
    depth.leave();
    page.case("leave, and enter", depth.enter());
}
