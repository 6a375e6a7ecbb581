// Typed trees as texts: each is written as in the source, with parentheses round each operator, and with a mark after each tree for each
// of its coercions.

use crate::types::{mark_of, put_marks, put_type};
use crate::words::{put_local, put_locals, put_word, row_name};
use cases::Page;
use mz_core::{Core, CoreDecl, CoreForm, CoreGen, CoreItem, CoreStep, CoreType};

/// A typed tree that was written in this line. The slots of declarations are those below `count`.
#[cycle(trees)]
pub fn put_tree(page: &mut Page, line: &str, count: u64, e: &Core) {
    match &e.form {
        CoreForm::Bool(b) => page.put(*b),
        CoreForm::Int(n) => page.put(*n),
        CoreForm::Enum(of, case) => page.put(format_args!("{of}.{case}")),
        CoreForm::Text(_) => page.put("text"),
        CoreForm::Absent => page.put("<>"),
        CoreForm::EnumSet(of) => page.put(format_args!("enum {of}")),
        CoreForm::Slot(slot) => {
            put_word(page, line, e.span.col);
            put_local(page, count, *slot);
        }
        CoreForm::Whole => page.put(".."),
        CoreForm::Chain(x, steps) => {
            put_opens(page, steps.as_slice());
            put_tree(page, line, count, x);
            put_steps(page, line, count, steps.as_slice());
        }
        CoreForm::Builtin(row, es) => {
            page.put(row_name(*row));
            put_all(page, line, count, "(", es.as_slice(), ")");
        }
        CoreForm::Call(function, es) => {
            put_word(page, line, e.span.col);
            page.put("@");
            page.put(*function);
            put_all(page, line, count, "(", es.as_slice(), ")");
        }
        CoreForm::Access(x, es) => {
            put_tree(page, line, count, x);
            put_all(page, line, count, "[", es.as_slice(), "]");
        }
        CoreForm::Array(es) => put_all(page, line, count, "[", es.as_slice(), "]"),
        CoreForm::Rows(rows) => {
            page.put("[|");
            for row in rows.as_slice() {
                put_all(page, line, count, "", row.as_slice(), "|");
            }
            page.put("]");
        }
        CoreForm::Set(es) => put_all(page, line, count, "{", es.as_slice(), "}"),
        CoreForm::Comp(braces, head, gens) => {
            page.put(if *braces { "{" } else { "[" });
            put_tree(page, line, count, head);
            put_gens(page, line, count, gens.as_slice());
            page.put(if *braces { "}" } else { "]" });
        }
        CoreForm::If(branches, last) => {
            put_branches(page, line, count, branches.as_slice());
            if let Some(x) = last {
                page.put("else ");
                put_tree(page, line, count, x);
                page.put(" ");
            }
            page.put("end");
        }
        CoreForm::Let(items, body) => {
            put_items(page, line, count, items.as_slice());
            put_tree(page, line, count, body);
        }
        CoreForm::Coerce(coercion, x) => {
            put_tree(page, line, count, x);
            page.put(mark_of(*coercion));
        }
    }
}

/// Trees between two texts.
#[cycle(trees)]
fn put_all(page: &mut Page, line: &str, count: u64, open: &str, es: &[Core], close: &str) {
    page.put(open);
    let mut is_first = true;
    for e in es {
        if !is_first {
            page.put(", ");
        }
        put_tree(page, line, count, e);
        is_first = false;
    }
    page.put(close);
}

/// What comes before the first operand of a chain: a parenthesis for each operator that groups to the left.
fn put_opens(page: &mut Page, steps: &[CoreStep]) {
    if groups_right(steps) {
        return;
    }
    for _ in steps {
        page.put("(");
    }
}

/// The operators of a chain, each with its second operand. Those that group to the right have no parentheses round the whole, and round
/// each second operand.
#[cycle(trees)]
fn put_steps(page: &mut Page, line: &str, count: u64, steps: &[CoreStep]) {
    if groups_right(steps) {
        put_right(page, line, count, steps);
    } else {
        put_left(page, line, count, steps);
    }
}

/// Whether the operators of a chain are `++`.
fn groups_right(steps: &[CoreStep]) -> bool {
    match steps {
        [] => false,
        [s, ..] => row_name(s.row) == "++",
    }
}

/// Operators that group to the left, each with its second operand.
#[cycle(trees)]
fn put_left(page: &mut Page, line: &str, count: u64, steps: &[CoreStep]) {
    for s in steps {
        put_operator(page, s);
        put_tree(page, line, count, &s.operand);
        put_marks(page, s.right.as_slice());
        page.put(")");
    }
}

/// Operators that group to the right: the second operand of each has the rest in it.
#[cycle(trees)]
fn put_right(page: &mut Page, line: &str, count: u64, steps: &[CoreStep]) {
    for s in steps {
        put_operator(page, s);
        page.put("(");
        put_tree(page, line, count, &s.operand);
    }
    for s in steps.iter().rev() {
        page.put(")");
        put_marks(page, s.right.as_slice());
    }
}

/// An operator after its first operand, with the coercions of that.
fn put_operator(page: &mut Page, s: &CoreStep) {
    put_marks(page, s.left.as_slice());
    page.put(" ");
    page.put(row_name(s.row));
    page.put(" ");
}

/// Generators after a head.
#[cycle(trees)]
fn put_gens(page: &mut Page, line: &str, count: u64, gens: &[CoreGen]) {
    for g in gens {
        page.put(" |");
        put_locals(page, count, g.slots.as_slice());
        page.put(" in ");
        put_tree(page, line, count, &g.set);
        if let Some(cond) = &g.cond {
            page.put(" where ");
            put_tree(page, line, count, cond);
        }
    }
}

/// The conditions of an `if` with their branches.
#[cycle(trees)]
fn put_branches(page: &mut Page, line: &str, count: u64, branches: &[(Core, Core)]) {
    for b in branches {
        page.put("if ");
        put_tree(page, line, count, &b.0);
        page.put(" then ");
        put_tree(page, line, count, &b.1);
        page.put(" ");
    }
}

/// The items of a `let`.
#[cycle(trees)]
fn put_items(page: &mut Page, line: &str, count: u64, items: &[CoreItem]) {
    page.put("let {");
    for item in items {
        page.put(" ");
        match item {
            CoreItem::Constraint(e) => put_tree(page, line, count, e),
            CoreItem::Decl(d) => put_decl(page, line, count, d),
        }
        page.put(";");
    }
    page.put(" } in ");
}

/// A declaration of a `let`.
#[cycle(trees)]
fn put_decl(page: &mut Page, line: &str, count: u64, d: &CoreDecl) {
    put_declared(page, line, count, &d.ty);
    put_local(page, count, d.slot);
    if let Some(value) = &d.value {
        page.put(" = ");
        put_tree(page, line, count, value);
    }
}

/// A declared type: its sets in parentheses after it, `_` where an index has none.
#[cycle(trees)]
pub fn put_declared(page: &mut Page, line: &str, count: u64, t: &CoreType) {
    put_type(page, &t.ty);
    for index in t.index.as_slice() {
        match index {
            None => page.put(" (_)"),
            Some(set) => put_set(page, line, count, set),
        }
    }
    if let Some(set) = &t.set {
        put_set(page, line, count, set);
    }
}

/// A set of a declared type.
#[cycle(trees)]
fn put_set(page: &mut Page, line: &str, count: u64, e: &Core) {
    page.put(" (");
    put_tree(page, line, count, e);
    page.put(")");
}
