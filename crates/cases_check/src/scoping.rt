// The scope of a model with its data.

use cases::Page;
use mz_base::Span;
use mz_scope_order::Scoped;

/// A place as the number of its file, its line and its column.
fn put_place(page: &mut Page, at: Span) {
    page.put(format_args!("{}:{}:{}", at.file, at.line, at.col));
}

/// How many cases each enum has, the places of the declarations in order of evaluation, a `=` after each that has its value in
/// the model, and the places of the names in the data, but for those of enums.
pub fn print_scoped(page: &mut Page, scoped: &Scoped<'_>) {
    page.put("  ok");
    for e in scoped.enums.as_slice() {
        page.put(format_args!(" enum({})", e.cases.len()));
    }
    for d in scoped.decls.as_slice() {
        page.put(" ");
        put_place(page, d.decl.span);
        if d.value.is_some() {
            page.put("=");
        }
    }
    for item in scoped.given.as_slice() {
        page.put(" given ");
        put_place(page, item.span);
    }
    page.line("");
}
