// Types that are made from parts, and copies of types.

ghost use Rattle.std.specs.Prelude.{◌≡◌, IfOk};
ghost use Rattle.mz_core.specs.Types.{plain_type};

use crate::types::{Base, Ix, TypeInst};
use mz_base::Memory;
use std::alloc::Global;

/// The type with these marks, this base, and copies of these index types.
#[tactic(auto, unfolding(crate::specs::Types::plain_type))]
pub fn make_type(
    alloc: Global,
    var: bool,
    opt: bool,
    base: Base,
    dims: &[Ix],
) -> Result<TypeInst, Memory>
    ensures { IfOk result (λ x. plain_type x ≡ record { var = var; opt = opt; base = base; dims = dims.now }) }
{
    let dims = Vec::from_slice(alloc, dims)?;
    Ok(TypeInst {
        var,
        opt,
        base,
        dims,
    })
}

/// An equal type.
#[tactic(auto, unfolding(crate::specs::Types::plain_type))]
pub fn copy_type(alloc: Global, t: &TypeInst) -> Result<TypeInst, Memory>
    ensures { IfOk result (λ x. plain_type x ≡ plain_type t.now) }
{
    make_type(alloc, t.var, t.opt, t.base, &t.dims)
}
