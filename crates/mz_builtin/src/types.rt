// The types of an entry's parameters and of its result in one reading.

ghost use Rattle.std.specs.Prelude.{◌≡◌, ◌++◌, [], map, IfOk, Option, slice_get};
ghost use Rattle.mz_core.specs.Types.{plain_type};
ghost use Rattle.mz_builtin.specs.Readings.{set_with, opt_of, base_of, type_of, types_with, set_type, index_sets, index_with, given_indices, array_indices, index_set_base, result_type};
ghost use Rattle.mz_builtin.specs.Views.{index_lists_of};

use crate::entry::{Of, Outcome};
use crate::readings::Meaning;
use mz_base::Memory;
use mz_core::{Base, Ix, TypeInst, make_type};
use std::alloc::Global;

fn set_with(b: Base) -> Base
    ensures { result ≡ set_with b }
{
    match b {
        Base::Enum(e) => Base::SetEnum(e),
        _ => Base::SetInt,
    }
}

#[tactic(auto, unfolding(crate::specs::Readings::opt_of))]
fn opt_of(m: Meaning, o: Of) -> bool
    ensures { result ≡ opt_of m o }
{
    match o {
        Of::OptBool | Of::OptInt | Of::OptT => true,
        Of::T => m.0,
        Of::Bool | Of::Int | Of::SetInt | Of::Text | Of::SetT => false,
    }
}

#[tactic(auto, unfolding(crate::specs::Readings::base_of))]
fn base_of(m: Meaning, o: Of) -> Base
    ensures { result ≡ base_of m o }
{
    match o {
        Of::Bool | Of::OptBool => Base::Bool,
        Of::Int | Of::OptInt => Base::Int,
        Of::SetInt => Base::SetInt,
        Of::Text => Base::Text,
        Of::T | Of::OptT => m.1,
        Of::SetT => set_with(m.1),
    }
}

#[tactic(auto, unfolding(crate::specs::Readings::type_of))]
pub(crate) fn type_of(
    alloc: Global,
    m: Meaning,
    var: bool,
    o: Of,
    dims: &[Ix],
) -> Result<TypeInst, Memory>
    ensures { IfOk result (λ t. plain_type t ≡ type_of m var o dims.now) }
{
    make_type(alloc, var, opt_of(m, o), base_of(m, o), dims)
}

/// Adds an array type for each list of index types.
#[tactic(auto, unfolding(crate::specs::Readings::types_with))]
pub(crate) fn add_types_with(
    alloc: Global,
    all: &mut Vec<TypeInst>,
    m: Meaning,
    var: bool,
    o: Of,
    lists: &[Vec<Ix>],
) -> Result<(), Memory>
    ensures { IfOk result (λ _. map plain_type all.new.items ≡ map plain_type all.old.items ++ types_with m var o (index_lists_of lists.now)) }
{
    for dims in lists {
        all.push(type_of(alloc, m, var, o, dims)?)?;
    }
    Ok(())
}

fn set_type(alloc: Global, b: Base) -> Result<TypeInst, Memory>
    ensures { IfOk result (λ t. plain_type t ≡ set_type b) }
{
    make_type(alloc, false, false, b, &[])
}

/// The sets that may be an index set.
#[tactic(auto, unfolding(crate::specs::Readings::index_sets))]
pub(crate) fn index_sets(alloc: Global, enums: &[u64]) -> Result<Vec<TypeInst>, Memory>
    ensures { IfOk result (λ v. map plain_type v.items ≡ index_sets enums.now) }
{
    let mut all = Vec::new(alloc);
    for e in enums {
        all.push(set_type(alloc, Base::SetEnum(*e))?)?;
    }
    all.push(set_type(alloc, Base::SetInt)?)?;
    Ok(all)
}

fn index_with(b: Base) -> Ix
    ensures { result ≡ index_with b }
{
    match b {
        Base::SetEnum(e) => Ix::Enum(e),
        _ => Ix::Int,
    }
}

// The index types that the index sets among the parameters give.
#[tactic(auto, unfolding(crate::specs::Readings::given_indices, mz_core::specs::Types::plain_type))]
fn given_indices(alloc: Global, params: &[TypeInst]) -> Result<Vec<Ix>, Memory>
    ensures { IfOk result (λ v. v.items ≡ given_indices (map plain_type params.now)) }
{
    let mut all = Vec::new(alloc);
    for t in params {
        if t.dims.is_empty() {
            all.push(index_with(t.base))?;
        }
    }
    Ok(all)
}

// The index types of the arrays among the parameters.
#[tactic(auto, unfolding(crate::specs::Readings::array_indices, mz_core::specs::Types::plain_type))]
fn array_indices(alloc: Global, params: &[TypeInst]) -> Result<Vec<Ix>, Memory>
    ensures { IfOk result (λ v. v.items ≡ array_indices (map plain_type params.now)) }
{
    let mut all = Vec::new(alloc);
    for t in params {
        all.extend_from_slice(&t.dims)?;
    }
    Ok(all)
}

fn index_set_base(i: Option<Ix>) -> Base
    ensures { result ≡ index_set_base i }
{
    match i {
        Some(Ix::Enum(e)) => Base::SetEnum(e),
        Some(Ix::Int) | None => Base::SetInt,
    }
}

fn index_at(indices: &[Ix], k: u64) -> Option<Ix>
    ensures { result ≡ slice_get indices.now k }
{
    indices.get(k as usize).copied()
}

#[tactic(auto, unfolding(crate::specs::Readings::result_type))]
pub(crate) fn result_type(
    alloc: Global,
    m: Meaning,
    var: bool,
    o: Outcome,
    params: &[TypeInst],
) -> Result<TypeInst, Memory>
    ensures { IfOk result (λ t. plain_type t ≡ result_type m var o (map plain_type params.now)) }
{
    match o {
        Outcome::One(o) => type_of(alloc, m, var, o, &[]),
        Outcome::List(o) => type_of(alloc, m, var, o, &[Ix::Int]),
        Outcome::Shaped(o) => {
            let dims = given_indices(alloc, params)?;
            type_of(alloc, m, var, o, &dims)
        }
        Outcome::Alike(o) => {
            let dims = array_indices(alloc, params)?;
            type_of(alloc, m, var, o, &dims)
        }
        Outcome::IndexSet(k) => {
            let dims = array_indices(alloc, params)?;
            set_type(alloc, index_set_base(index_at(&dims, k)))
        }
    }
}
