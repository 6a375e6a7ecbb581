// The order of types, and equality of types.

ghost use Rattle.std.specs.Prelude.{◌≡◌, ◌↔◌, IsTrue};
ghost use Rattle.mz_core.specs.Types.{plain_type, is_set, is_text, is_allowed};
ghost use Rattle.mz_core.specs.Coercions.{Below};
ghost use Rattle.mz_core.specs.Order.{same_base, same_index, same_dims, same_type, raises, base_below, index_below, dims_below, is_list, is_par_scalar, set_of, below_some, becomes_array, marks_below, shape_below, below};

use crate::types::{Base, Ix, TypeInst};

fn is_set(b: Base) -> bool
    ensures { result ≡ is_set b }
{
    matches!(b, Base::SetInt | Base::SetEnum(_) | Base::SetBottom)
}

fn is_text(b: Base) -> bool
    ensures { result ≡ is_text b }
{
    matches!(b, Base::Text)
}

#[tactic(auto, unfolding(crate::specs::Types::plain_type))]
pub(crate) fn is_allowed(t: &TypeInst) -> bool
    ensures { result ≡ is_allowed (plain_type t.now) }
{
    !(t.opt && (is_set(t.base) || is_text(t.base))) && !(t.var && is_text(t.base))
}

pub(crate) fn same_base(a: Base, b: Base) -> bool
    ensures { result ≡ same_base a b }
{
    a == b
}

pub(crate) fn same_index(a: Ix, b: Ix) -> bool
    ensures { result ≡ same_index a b }
{
    a == b
}

#[tactic(auto, unfolding(crate::specs::Order::same_dims))]
fn same_dims(xs: &[Ix], ys: &[Ix]) -> bool
    ensures { result ≡ same_dims xs.now ys.now }
{
    match xs {
        [] => ys.is_empty(),
        [x, xs @ ..] => match ys {
            [] => false,
            [y, ys @ ..] => same_index(*x, *y) && same_dims(xs, ys),
        },
    }
}

fn raises(a: Base, b: Base) -> bool
    ensures { result ≡ raises a b }
{
    match (a, b) {
        (Base::Bool | Base::Enum(_), Base::Int) | (Base::SetEnum(_), Base::SetInt) => true,
        (Base::SetBottom, _) => is_set(b),
        (Base::Bottom, _) => true,
        _ => false,
    }
}

pub(crate) fn base_below(a: Base, b: Base) -> bool
    ensures { result ≡ base_below a b }
{
    same_base(a, b) || raises(a, b)
}

fn index_below(x: Ix, y: Ix) -> bool
    ensures { result ≡ index_below x y }
{
    match (x, y) {
        (_, Ix::Int) => true,
        (Ix::Enum(e), Ix::Enum(f)) => e == f,
        (Ix::Int, Ix::Enum(_)) => false,
    }
}

/// Whether steps of coercion lead from the one list of index types to the other. Takes no memory.
#[tactic(auto, unfolding(crate::specs::Order::dims_below))]
pub fn dims_below(xs: &[Ix], ys: &[Ix]) -> bool
    ensures { result ≡ dims_below xs.now ys.now }
{
    match xs {
        [] => ys.is_empty(),
        [x, xs @ ..] => match ys {
            [] => false,
            [y, ys @ ..] => index_below(*x, *y) && dims_below(xs, ys),
        },
    }
}

fn is_list(dims: &[Ix]) -> bool
    ensures { result ≡ is_list dims.now }
{
    matches!(dims, [Ix::Int])
}

#[tactic(auto, unfolding(crate::specs::Types::plain_type))]
pub(crate) fn is_par_scalar(t: &TypeInst) -> bool
    ensures { result ≡ is_par_scalar (plain_type t.now) }
{
    !t.var && !t.opt && t.dims.is_empty()
}

pub(crate) fn set_of(b: Base) -> Option<Base>
    ensures { result ≡ set_of b }
{
    match b {
        Base::Int => Some(Base::SetInt),
        Base::Enum(e) => Some(Base::SetEnum(e)),
        _ => None,
    }
}

fn below_some(a: Base, b: Option<Base>) -> bool
    ensures { result ≡ below_some a b }
{
    match b {
        None => false,
        Some(b) => base_below(a, b),
    }
}

#[tactic(auto, unfolding(crate::specs::Types::plain_type))]
pub(crate) fn becomes_array(t: &TypeInst, u: &TypeInst) -> bool
    ensures { result ≡ becomes_array (plain_type t.now) (plain_type u.now) }
{
    is_par_scalar(t) && is_list(&u.dims) && below_some(t.base, set_of(u.base))
}

#[tactic(auto, unfolding(crate::specs::Types::plain_type, crate::specs::Order::same_type))]
fn are_same(t: &TypeInst, u: &TypeInst) -> bool
    ensures { result ≡ same_type (plain_type t.now) (plain_type u.now) }
{
    t.var == u.var && t.opt == u.opt && same_base(t.base, u.base) && same_dims(&t.dims, &u.dims)
}

#[tactic(auto, unfolding(crate::specs::Types::plain_type))]
fn marks_below(t: &TypeInst, u: &TypeInst) -> bool
    ensures { result ≡ marks_below (plain_type t.now) (plain_type u.now) }
{
    (!t.var || u.var) && (!t.opt || u.opt)
}

#[tactic(auto, unfolding(crate::specs::Types::plain_type))]
fn shape_below(t: &TypeInst, u: &TypeInst) -> bool
    ensures { result ≡ shape_below (plain_type t.now) (plain_type u.now) }
{
    (base_below(t.base, u.base) && dims_below(&t.dims, &u.dims)) || becomes_array(t, u)
}

#[tactic(auto, unfolding(crate::specs::Order::below))]
fn is_below(t: &TypeInst, u: &TypeInst) -> bool
    ensures { result ≡ below (plain_type t.now) (plain_type u.now) }
{
    are_same(t, u) || (is_allowed(u) && marks_below(t, u) && shape_below(t, u))
}

/// Whether two types are equal. Takes no memory.
pub fn same_type(t: &TypeInst, u: &TypeInst) -> bool
    ensures same { IsTrue result ↔ (plain_type t.now ≡ plain_type u.now) }
    ensures computed { result ≡ same_type (plain_type t.now) (plain_type u.now) }
{
    are_same(t, u)
}

/// Whether steps of coercion lead from `t` to `u`, or the two are equal. Takes no memory.
pub fn below(t: &TypeInst, u: &TypeInst) -> bool
    ensures order { IsTrue result ↔ Below (plain_type t.now) (plain_type u.now) }
    ensures computed { result ≡ below (plain_type t.now) (plain_type u.now) }
{
    is_below(t, u)
}
