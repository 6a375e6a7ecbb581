// What is read of a typed expression.

ghost use Rattle.std.specs.Prelude.{◌≡◌};
ghost use Rattle.mz_core.specs.Types.{plain_type};
ghost use Rattle.mz_core.specs.Tree as pure;
ghost use Rattle.mz_core.specs.TreeViews.{tree};

use mz_base::Span;
use mz_core::{Core, TypeInst};

/// The place of an expression's first token.
pub fn place_of(e: &Core) -> Span
    ensures { result ≡ pure.place_of (tree e.now) }
{
    e.span
}

/// An expression's type.
pub fn type_of(e: &Core) -> &TypeInst
    ensures { plain_type result.now ≡ pure.type_of (tree e.now) }
{
    &e.ty
}
