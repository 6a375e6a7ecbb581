// Written types, and the type of `<>`.

ghost use Rattle.std.specs.Prelude.{◌≡◌, ◌<◌, OnOk, length};
ghost use Rattle.mz_core.specs.Types.{plain_type};
ghost use Rattle.mz_core.specs.TreeViews.{declared_type};
ghost use Rattle.mz_tree.specs.Views.{written};
ghost use Rattle.mz_check_meaning.specs.Coerced.{absent_type};
ghost use Rattle.mz_check_meaning.specs.Typing.{check_written};
ghost use Rattle.mz_check_meaning.specs.Passes.{Passes};
ghost use Rattle.mz_check_context.specs.Known.{known};
ghost use Rattle.mz_check_exprs.specs.Naming.{IsNamedType};

use crate::cycle::check_type;
use mz_base::Stop;
use mz_check_context::{Context, Scope};
use mz_core::{Base, CoreType, TypeInst};
use mz_tree::TypeText;
use std::alloc::Global;

/// The type of `<>`.
#[tactic(auto, unfolding(mz_core::specs::Types::plain_type))]
pub(crate) fn absent_type(alloc: Global) -> TypeInst
    ensures { plain_type result ≡ absent_type }
{
    TypeInst {
        var: false,
        opt: true,
        base: Base::Bottom,
        dims: Vec::new(alloc),
    }
}

/// A written type, typed where these names are in scope; or the first fault. The scope is as it was, but where the type is refused or
/// memory runs out: then some local names may still be in scope.
pub fn check_written(
    alloc: Global,
    context: &Context<'_>,
    scope: &mut Scope,
    t: &TypeText,
) -> Result<CoreType, Stop>
    requires { IsNamedType (length (known context.now).texts) (written t.now) }
    ensures passes { Passes declared_type result (check_written (known context.now) (written t.now) scope.old) }
    ensures kept { OnOk result (scope.new ≡ scope.old) }
{
    check_type(alloc, context, scope, t)
}
