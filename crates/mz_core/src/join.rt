// The least type above two.

ghost use Rattle.std.specs.Prelude.{◌≡◌, IfOk};
ghost use Rattle.std.specs.Option.{option_map};
ghost use Rattle.mz_core.specs.Types.{plain_type};
ghost use Rattle.mz_core.specs.Join.{IsJoin, base_apart, base_join, index_join, indices_join, dims_join, plain_join, number_above, element_join, array_join, join_apart, join};

use crate::make::{copy_type, make_type};
use crate::order::{base_below, below, is_allowed, is_par_scalar, same_index};
use crate::types::{Base, Ix, TypeInst};
use mz_base::Memory;
use std::alloc::Global;

fn base_apart(a: Base, b: Base) -> Option<Base>
    ensures { result ≡ base_apart a b }
{
    match (a, b) {
        (Base::Bool, Base::Enum(_))
        | (Base::Enum(_), Base::Bool)
        | (Base::Enum(_), Base::Enum(_)) => Some(Base::Int),
        (Base::SetEnum(_), Base::SetEnum(_)) => Some(Base::SetInt),
        _ => None,
    }
}

fn base_join(a: Base, b: Base) -> Option<Base>
    ensures { result ≡ base_join a b }
{
    if base_below(a, b) {
        Some(b)
    } else if base_below(b, a) {
        Some(a)
    } else {
        base_apart(a, b)
    }
}

fn index_join(x: Ix, y: Ix) -> Ix
    ensures { result ≡ index_join x y }
{
    if same_index(x, y) { x } else { Ix::Int }
}

fn indices_join(alloc: Global, xs: &[Ix], ys: &[Ix]) -> Result<Vec<Ix>, Memory>
    ensures { IfOk result (λ v. v.items ≡ indices_join xs.now ys.now) }
{
    let joined = xs
        .iter()
        .zip(ys)
        .map(|(x, y)| index_join(*x, *y))
        .collect(alloc)?;
    Ok(joined)
}

fn dims_join(alloc: Global, xs: &[Ix], ys: &[Ix]) -> Result<Option<Vec<Ix>>, Memory>
    ensures { IfOk result (λ o. option_map (λ v. v.items) o ≡ dims_join xs.now ys.now) }
{
    if xs.len() != ys.len() {
        return Ok(None);
    }
    Ok(Some(indices_join(alloc, xs, ys)?))
}

#[tactic(auto, unfolding(crate::specs::Types::plain_type))]
fn plain_join(t: &TypeInst, u: &TypeInst, dims: Vec<Ix>) -> Option<TypeInst>
    ensures { option_map plain_type result ≡ plain_join (plain_type t.now) (plain_type u.now) dims.items (base_join t.now.base u.now.base) }
{
    let base = base_join(t.base, u.base)?;
    let joined = TypeInst {
        var: t.var || u.var,
        opt: t.opt || u.opt,
        base,
        dims,
    };
    if is_allowed(&joined) {
        Some(joined)
    } else {
        None
    }
}

fn number_above(b: Base) -> Option<Base>
    ensures { result ≡ number_above b }
{
    match b {
        Base::Bool | Base::Int => Some(Base::Int),
        Base::Enum(e) => Some(Base::Enum(e)),
        _ => None,
    }
}

fn element_join(a: Base, b: Base) -> Option<Base>
    ensures { result ≡ element_join a b }
{
    match a {
        Base::SetInt => base_join(Base::Int, b),
        Base::SetEnum(e) => base_join(Base::Enum(e), b),
        Base::SetBottom | Base::Bottom => number_above(b),
        _ => None,
    }
}

#[tactic(auto, unfolding(crate::specs::Types::plain_type))]
fn array_join(alloc: Global, t: &TypeInst, u: &TypeInst) -> Result<Option<TypeInst>, Memory>
    ensures { IfOk result (λ o. option_map plain_type o ≡ array_join (plain_type t.now) (plain_type u.now)) }
{
    if !is_par_scalar(t) || u.dims.len() != 1 {
        return Ok(None);
    }
    let Some(base) = element_join(t.base, u.base) else {
        return Ok(None);
    };
    Ok(Some(make_type(alloc, u.var, u.opt, base, &[Ix::Int])?))
}

fn join_apart(alloc: Global, t: &TypeInst, u: &TypeInst) -> Result<Option<TypeInst>, Memory>
    ensures { IfOk result (λ o. option_map plain_type o ≡ join_apart (plain_type t.now) (plain_type u.now) (dims_join t.now.dims.items u.now.dims.items)) }
{
    if let Some(dims) = dims_join(alloc, &t.dims, &u.dims)? {
        return Ok(plain_join(t, u, dims));
    }
    if let Some(joined) = array_join(alloc, t, u)? {
        return Ok(Some(joined));
    }
    array_join(alloc, u, t)
}

#[tactic(auto, unfolding(crate::specs::Join::join, crate::specs::Types::plain_type))]
fn joined(alloc: Global, t: &TypeInst, u: &TypeInst) -> Result<Option<TypeInst>, Memory>
    ensures { IfOk result (λ o. option_map plain_type o ≡ join (plain_type t.now) (plain_type u.now)) }
{
    if below(t, u) {
        return Ok(Some(copy_type(alloc, u)?));
    }
    if below(u, t) {
        return Ok(Some(copy_type(alloc, t)?));
    }
    join_apart(alloc, t, u)
}

/// The least type that is above both, and `None` exactly where there is none.
pub fn join_types(alloc: Global, t: &TypeInst, u: &TypeInst) -> Result<Option<TypeInst>, Memory>
    ensures least { IfOk result (λ o. IsJoin (plain_type t.now) (plain_type u.now) (option_map plain_type o)) }
    ensures computed { IfOk result (λ o. option_map plain_type o ≡ join (plain_type t.now) (plain_type u.now)) }
{
    joined(alloc, t, u)
}
