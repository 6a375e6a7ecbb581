// The items of a text, as a model's file.

ghost use Rattle.std.specs.Prelude.{◌≤◌, length};
ghost use Rattle.mz_base.specs.declared.limit.TheConstants.{FILE_LIMIT};

use crate::expressions::put_expression;
use crate::file::{FILE, end_of};
use crate::spellings::Spellings;
use crate::stopped;
use crate::stopped::put_place;
use crate::types::{put_declaration, put_type};
use cases::Page;
use mz_base::{Memory, Name, Names, Span, Stop};
use mz_lexer::tokens;
use mz_parser::items;
use mz_tree::{Expr, Function, Goal, Item};
use std::alloc::Global;

/// A text's items, and how their names are spelled.
#[derive(Drop)]
pub struct ReadItems {
    pub items: Vec<Item>,
    names: Spellings,
}

/// Reads a text.
pub fn read(alloc: Global, bytes: &[u8]) -> Result<ReadItems, Stop>
    requires { length bytes.now ≤ FILE_LIMIT }
{
    let mut table = Names::new(alloc);
    let all = tokens(alloc, bytes, FILE, &mut table)?;
    let names = Spellings::of(alloc, all.as_slice(), &table)?;
    let items = items(alloc, all.as_slice(), end_of(bytes))?;
    Ok(ReadItems { items, names })
}

/// Each item, or the refusal.
pub fn print(alloc: Global, bytes: &[u8], page: &mut Page) -> Result<(), Memory>
    requires { length bytes.now ≤ FILE_LIMIT }
{
    match read(alloc, bytes) {
        Ok(read) => {
            for item in read.items.as_slice() {
                page.put("  ");
                put_item(page, &read.names, item);
                page.line("");
            }
            Ok(())
        }
        Err(stop) => stopped::print(page, stop),
    }
}

fn put_item(page: &mut Page, names: &Spellings, item: &Item) {
    match item {
        Item::Include(n, _) => page.put(format_args!("(include \"{}\")", names.text(*n))),
        Item::Decl(d) => put_declaration(page, names, d),
        Item::Assign(n, _, e) => {
            page.put(format_args!("(= {} ", names.text(*n)));
            put_last(page, names, e);
        }
        Item::Constraint(e) => {
            page.put("(constraint ");
            put_last(page, names, e);
        }
        Item::Solve(_, goal) => put_goal(page, names, goal),
        Item::Output(e) => {
            page.put("(output ");
            put_last(page, names, e);
        }
        Item::Function(f) => put_function(page, names, f),
        Item::Enum(n, _, None) => page.put(format_args!("(enum {})", names.text(*n))),
        Item::Enum(n, _, Some(cases)) => {
            page.put(format_args!("(enum {} =", names.text(*n)));
            put_cases(page, names, cases.as_slice());
        }
        Item::Annotation(n) => page.put(format_args!("(annotation {})", names.text(*n))),
    }
}

/// An expression, and the closing parenthesis.
fn put_last(page: &mut Page, names: &Spellings, e: &Expr) {
    put_expression(page, names, e);
    page.put(")");
}

fn put_goal(page: &mut Page, names: &Spellings, goal: &Goal) {
    match goal {
        Goal::Satisfy => page.put("(solve satisfy)"),
        Goal::Minimize(e) => {
            page.put("(solve minimize ");
            put_last(page, names, e);
        }
        Goal::Maximize(e) => {
            page.put("(solve maximize ");
            put_last(page, names, e);
        }
    }
}

fn put_function(page: &mut Page, names: &Spellings, f: &Function) {
    page.put("(function ");
    put_type(page, names, &f.result);
    page.put(format_args!(" {}", names.text(f.name)));
    for d in f.params.as_slice() {
        page.put(" ");
        put_declaration(page, names, d);
    }
    page.put(" = ");
    put_last(page, names, &f.body);
}

/// The cases of an enum, and the closing parenthesis.
fn put_cases(page: &mut Page, names: &Spellings, cases: &[(Name, Span)]) {
    for (n, _) in cases {
        page.put(format_args!(" {}", names.text(*n)));
    }
    page.put(")");
}

/// The place of each item, or the refusal.
pub fn print_places(alloc: Global, bytes: &[u8], page: &mut Page) -> Result<(), Memory>
    requires { length bytes.now ≤ FILE_LIMIT }
{
    match read(alloc, bytes) {
        Ok(read) => {
            for item in read.items.as_slice() {
                print_place(page, place_of(item));
            }
            Ok(())
        }
        Err(stop) => stopped::print(page, stop),
    }
}

fn print_place(page: &mut Page, place: Option<Span>) {
    page.put("  ");
    if let Some(at) = place {
        put_place(page, at);
    }
    page.line("");
}

/// The place that an item tells: of a declaration or a function that of its type, of others as the trees say.
fn place_of(item: &Item) -> Option<Span> {
    match item {
        Item::Include(_, at) => Some(*at),
        Item::Decl(d) => Some(d.ty.span),
        Item::Assign(_, at, _) => Some(*at),
        Item::Constraint(e) => Some(e.span),
        Item::Solve(at, _) => Some(*at),
        Item::Output(e) => Some(e.span),
        Item::Function(f) => Some(f.result.span),
        Item::Enum(_, at, _) => Some(*at),
        Item::Annotation(_) => None,
    }
}
