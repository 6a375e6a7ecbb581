// What is known of a model when all its types are typed.

ghost use Rattle.std.specs.Prelude.{◌≡◌, length, map, IfOk};
ghost use Rattle.mz_scope_order.specs.Scoped.{scoped_tree, shared_names, AreDistinct};
ghost use Rattle.mz_scope_order.specs.Subjects.{subject, IsOrderOf};
ghost use Rattle.mz_check_meaning.specs.Headings.{with_types};
ghost use Rattle.mz_check_meaning.specs.Checks.{untyped};
ghost use Rattle.mz_check_context.specs.Known.{known};
ghost use Rattle.mz_check_exprs.specs.NamedModels.{AreNamed};

use mz_base::{Memory, Names};
use mz_check_context::Context;
use mz_check_exprs::{untyped, with_types};
use mz_scope_order::{Scoped, Subject};
use std::alloc::Global;

/// What is known of a model when its types are typed in this order.
pub(crate) fn typed_context<'a>(
    alloc: Global,
    scoped: &Scoped<'_>,
    names: &'a Names,
    order: &[Subject],
) -> Result<Context<'a>, Memory>
    requires distinct { AreDistinct (shared_names (scoped_tree scoped.now)) }
    requires named { AreNamed (length names.now) (scoped_tree scoped.now) }
    requires order { IsOrderOf (scoped_tree scoped.now) (map subject order.now) }
    ensures { IfOk result (λ c. known c ≡ with_types (scoped_tree scoped.now) (untyped names.now (scoped_tree scoped.now)) (map subject order.now)) }
{
    let mut context = untyped(alloc, scoped, names)?;
    with_types(alloc, scoped, &mut context, order)?;
    Ok(context)
}
