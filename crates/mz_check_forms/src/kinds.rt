// Types, and the tests of them.

ghost use Rattle.std.specs.Prelude.{◌≡◌, [], false, IfOk};
ghost use Rattle.mz_base.specs.Faults.{fault_at};
ghost use Rattle.mz_base.specs.declared.stop.Stop.TheVariants as stop;
ghost use Rattle.mz_base.specs.declared.kind.Kind.TheVariants as kind;
ghost use Rattle.mz_core.specs.Types.{plain_type, is_allowed, is_set, is_text};
ghost use Rattle.mz_core.specs.TreeViews.{tree};
ghost use Rattle.mz_check_meaning.specs.Coerced.{scalar, as_var, element_of, list_of, table_of, made_var, is_scalar, is_set_type};

use crate::type_of;
use mz_base::{Fault, Kind, Memory, Span, Stop};
use mz_core::{Base, Core, Ix, TypeInst};
use std::alloc::Global;

/// A refusal of this kind.
pub fn refusal(kind: Kind, span: Span) -> Stop
    ensures { result ≡ stop.Refused (fault_at kind span) }
{
    Stop::Refused(Fault::at(kind, span))
}

/// The refusal of a type that isn't below the one that its place needs.
pub fn mismatch(span: Span) -> Stop
    ensures { result ≡ stop.Refused (fault_at kind.TypeMismatch span) }
{
    refusal(Kind::TypeMismatch, span)
}

/// The par type of scalars of this base.
#[tactic(auto, unfolding(mz_core::specs::Types::plain_type))]
pub fn scalar(alloc: Global, base: Base) -> TypeInst
    ensures { plain_type result ≡ scalar base }
{
    TypeInst {
        var: false,
        opt: false,
        base,
        dims: Vec::new(alloc),
    }
}

/// The type of scalars of this base, var where the expression is.
#[tactic(auto, unfolding(mz_core::specs::Types::plain_type))]
fn marked_as(alloc: Global, t: &TypeInst, base: Base) -> TypeInst
    ensures { plain_type result ≡ record { var = (plain_type t.now).var; opt = false; base = base; dims = [] } }
{
    TypeInst {
        var: t.var,
        opt: false,
        base,
        dims: Vec::new(alloc),
    }
}

/// The type of scalars of this base, var where the expression is.
pub fn typed_as(alloc: Global, e: &Core, base: Base) -> TypeInst
    ensures { plain_type result ≡ as_var (tree e.now) base }
{
    marked_as(alloc, type_of(e), base)
}

/// The type of an array's elements.
#[tactic(auto, unfolding(mz_core::specs::Types::plain_type))]
pub fn element_of(alloc: Global, t: &TypeInst) -> TypeInst
    ensures { plain_type result ≡ element_of (plain_type t.now) }
{
    TypeInst {
        var: t.var,
        opt: t.opt,
        base: t.base,
        dims: Vec::new(alloc),
    }
}

/// The type of arrays of one dimension, indexed by integers.
#[tactic(auto, unfolding(mz_core::specs::Types::plain_type))]
pub fn list_of(alloc: Global, t: &TypeInst) -> Result<TypeInst, Memory>
    ensures { IfOk result (λ x. plain_type x ≡ list_of (plain_type t.now)) }
{
    let dims = vec![in alloc; Ix::Int]?;
    Ok(TypeInst {
        var: t.var,
        opt: t.opt,
        base: t.base,
        dims,
    })
}

/// The type of arrays of two dimensions, indexed by integers.
#[tactic(auto, unfolding(mz_core::specs::Types::plain_type))]
pub fn table_of(alloc: Global, t: &TypeInst) -> Result<TypeInst, Memory>
    ensures { IfOk result (λ x. plain_type x ≡ table_of (plain_type t.now)) }
{
    let dims = vec![in alloc; Ix::Int, Ix::Int]?;
    Ok(TypeInst {
        var: t.var,
        opt: t.opt,
        base: t.base,
        dims,
    })
}

/// The type, var where this is so.
#[tactic(auto, unfolding(mz_core::specs::Types::plain_type))]
pub fn made_var(var: bool, t: TypeInst) -> TypeInst
    ensures { plain_type result ≡ made_var var (plain_type t) }
{
    TypeInst {
        var: t.var || var,
        opt: t.opt,
        base: t.base,
        dims: t.dims,
    }
}

/// Whether the type is var.
#[tactic(auto, unfolding(mz_core::specs::Types::plain_type))]
pub fn var_of(t: &TypeInst) -> bool
    ensures { result ≡ (plain_type t.now).var }
{
    t.var
}

/// The base of a scalar or of an array's elements.
#[tactic(auto, unfolding(mz_core::specs::Types::plain_type))]
pub fn base_of(t: &TypeInst) -> Base
    ensures { result ≡ (plain_type t.now).base }
{
    t.base
}

/// Whether the type is none of arrays.
#[tactic(auto, unfolding(mz_core::specs::Types::plain_type))]
pub fn is_scalar(t: &TypeInst) -> bool
    ensures { result ≡ is_scalar (plain_type t.now) }
{
    t.dims.is_empty()
}

/// The index types of an array, of which a scalar has none.
#[tactic(auto, unfolding(mz_core::specs::Types::plain_type))]
pub fn dims_of(t: &TypeInst) -> &[Ix]
    ensures { result.now ≡ (plain_type t.now).dims }
{
    &t.dims
}

fn is_set(base: Base) -> bool
    ensures { result ≡ is_set base }
{
    match base {
        Base::SetInt => true,
        Base::SetEnum(_) => true,
        Base::SetBottom => true,
        _ => false,
    }
}

fn is_text(base: Base) -> bool
    ensures { result ≡ is_text base }
{
    match base {
        Base::Text => true,
        _ => false,
    }
}

/// Whether the type is one of sets, and of no arrays of them.
#[tactic(auto, unfolding(mz_core::specs::Types::plain_type))]
pub fn is_set_type(t: &TypeInst) -> bool
    ensures { result ≡ is_set_type (plain_type t.now) }
{
    is_set(t.base) && is_scalar(t)
}

/// Whether there is such a type: no option of a set or of a text, and no var text.
#[tactic(auto, unfolding(mz_core::specs::Types::plain_type))]
pub fn is_allowed(t: &TypeInst) -> bool
    ensures { result ≡ is_allowed (plain_type t.now) }
{
    !(t.opt && (is_set(t.base) || is_text(t.base))) && !(t.var && is_text(t.base))
}
