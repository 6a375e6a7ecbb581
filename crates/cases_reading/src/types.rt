// Declarations and types, each in parentheses.

use crate::expressions::put_expression;
use crate::spellings::Spellings;
use cases::Page;
use mz_tree::{Decl, TypeBase, TypeText};

#[cycle(trees)]
pub fn put_declaration(page: &mut Page, names: &Spellings, d: &Decl) {
    page.put("(");
    put_type(page, names, &d.ty);
    page.put(": ");
    page.put(names.text(d.name));
    if let Some(value) = &d.value {
        page.put(" = ");
        put_expression(page, names, value);
    }
    page.put(")");
}

#[cycle(trees)]
pub fn put_type(page: &mut Page, names: &Spellings, t: &TypeText) {
    if let Some(dims) = &t.dims {
        page.put("array [ ");
        for base in dims.as_slice() {
            put_base(page, names, base);
            page.put(" ");
        }
        page.put("] of ");
    }
    if t.var {
        page.put("var ");
    }
    if t.opt {
        page.put("opt ");
    }
    if t.set {
        page.put("set of ");
    }
    put_base(page, names, &t.base);
}

#[cycle(trees)]
fn put_base(page: &mut Page, names: &Spellings, base: &TypeBase) {
    match base {
        TypeBase::Bool => page.put("bool"),
        TypeBase::Int => page.put("int"),
        TypeBase::Of(e) => put_expression(page, names, e),
    }
}
