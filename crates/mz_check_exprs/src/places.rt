// Where functions are declared.

ghost use Rattle.std.specs.Prelude.{◌≡◌};
ghost use Rattle.mz_scope_order.specs.Parts.{function_at};
ghost use Rattle.mz_scope_order.specs.Scoped.{scoped_tree};

use mz_base::Span;
use mz_scope_order::Scoped;

/// The place of a function.
pub(crate) fn function_place(scoped: &Scoped<'_>, f: u64) -> Span
    ensures { result ≡ (function_at (scoped_tree scoped.now).functions f).span }
{
    match scoped.functions.get(f as usize) {
        Some(f) => f.span,
        None => Span::start(0),
    }
}
