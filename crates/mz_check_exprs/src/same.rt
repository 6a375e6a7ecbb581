// Lists of types that are the same.

ghost use Rattle.std.specs.Prelude.{◌≡◌, map};
ghost use Rattle.mz_core.specs.Types.{plain_type};
ghost use Rattle.mz_core.specs.TreeViews.{decl};
ghost use Rattle.mz_check_meaning.specs.Duplicates.{same_types};

use mz_check_context::param_type;
use mz_core::{CoreDecl, TypeInst, same_type};

/// Whether two lists of parameters have the same types.
#[tactic(auto, unfolding(mz_check_meaning::specs::Duplicates::same_types))]
pub(crate) fn same_params(ps: &[CoreDecl], qs: &[CoreDecl]) -> bool
    ensures { result ≡ same_types (map (λ d. d.ty.ty) (map decl ps.now)) (map (λ d. d.ty.ty) (map decl qs.now)) }
{
    match ps {
        [] => qs.is_empty(),
        [p, ps @ ..] => match qs {
            [] => false,
            [q, qs @ ..] => same_type(param_type(p), param_type(q)) && same_params(ps, qs),
        },
    }
}

/// Whether two lists of types are the same.
#[tactic(auto, unfolding(mz_check_meaning::specs::Duplicates::same_types))]
pub(crate) fn same_types(ts: &[TypeInst], us: &[TypeInst]) -> bool
    ensures { result ≡ same_types (map plain_type ts.now) (map plain_type us.now) }
{
    match ts {
        [] => us.is_empty(),
        [t, ts @ ..] => match us {
            [] => false,
            [u, us @ ..] => same_type(t, u) && same_types(ts, us),
        },
    }
}
