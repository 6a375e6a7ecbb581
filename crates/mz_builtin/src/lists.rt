// Lists that take one of each of several lists.

ghost use Rattle.std.specs.Prelude.{◌≡◌, ◌++◌, ◌∷◌, [], map, IfOk};
ghost use Rattle.mz_core.specs.Types.{plain_type};
ghost use Rattle.mz_builtin.specs.Readings.{joined, index_lists};
ghost use Rattle.mz_builtin.specs.Views.{index_lists_of, type_lists_of};

use mz_base::Memory;
use mz_core::{Ix, TypeInst, copy_type};
use std::alloc::Global;

fn index_list(alloc: Global, first: Ix, tail: &[Ix]) -> Result<Vec<Ix>, Memory>
    ensures { IfOk result (λ v. v.items ≡ first ∷ tail.now) }
{
    let mut all = vec![in alloc; first]?;
    all.extend_from_slice(tail)?;
    Ok(all)
}

fn add_index_lists(
    alloc: Global,
    all: &mut Vec<Vec<Ix>>,
    first: Ix,
    tails: &[Vec<Ix>],
) -> Result<(), Memory>
    ensures { IfOk result (λ _. index_lists_of all.new.items ≡ index_lists_of all.old.items ++ map (λ tail. first ∷ tail) (index_lists_of tails.now)) }
{
    for tail in tails {
        all.push(index_list(alloc, first, tail)?)?;
    }
    Ok(())
}

#[tactic(auto, unfolding(crate::specs::Readings::joined))]
pub(crate) fn joined_indices(
    alloc: Global,
    firsts: &[Ix],
    tails: &[Vec<Ix>],
) -> Result<Vec<Vec<Ix>>, Memory>
    ensures { IfOk result (λ v. index_lists_of v.items ≡ joined firsts.now (index_lists_of tails.now)) }
{
    let mut all = Vec::new(alloc);
    for first in firsts {
        add_index_lists(alloc, &mut all, *first, tails)?;
    }
    Ok(all)
}

pub(crate) fn no_index(alloc: Global) -> Result<Vec<Vec<Ix>>, Memory>
    ensures { IfOk result (λ v. index_lists_of v.items ≡ [] ∷ []) }
{
    let mut all = Vec::new(alloc);
    all.push(Vec::new(alloc))?;
    Ok(all)
}

/// The index types of an array of `n` dimensions.
#[tactic(auto, using(crate::proofs::IndexLists::index_lists_next), unfolding(crate::specs::Readings::index_lists))]
pub(crate) fn index_lists(alloc: Global, indices: &[Ix], n: u64) -> Result<Vec<Vec<Ix>>, Memory>
    ensures { IfOk result (λ v. index_lists_of v.items ≡ index_lists indices.now n) }
{
    if n == 0 {
        return no_index(alloc);
    }
    let tails = index_lists(alloc, indices, n - 1)?;
    joined_indices(alloc, indices, &tails)
}

fn type_list(alloc: Global, first: &TypeInst, tail: &[TypeInst]) -> Result<Vec<TypeInst>, Memory>
    ensures { IfOk result (λ v. map plain_type v.items ≡ plain_type first.now ∷ map plain_type tail.now) }
{
    let mut all = Vec::new(alloc);
    all.push(copy_type(alloc, first)?)?;
    for t in tail {
        all.push(copy_type(alloc, t)?)?;
    }
    Ok(all)
}

fn add_type_lists(
    alloc: Global,
    all: &mut Vec<Vec<TypeInst>>,
    first: &TypeInst,
    tails: &[Vec<TypeInst>],
) -> Result<(), Memory>
    ensures { IfOk result (λ _. type_lists_of all.new.items ≡ type_lists_of all.old.items ++ map (λ tail. plain_type first.now ∷ tail) (type_lists_of tails.now)) }
{
    for tail in tails {
        all.push(type_list(alloc, first, tail)?)?;
    }
    Ok(())
}

#[tactic(auto, unfolding(crate::specs::Readings::joined))]
pub(crate) fn joined_types(
    alloc: Global,
    firsts: &[TypeInst],
    tails: &[Vec<TypeInst>],
) -> Result<Vec<Vec<TypeInst>>, Memory>
    ensures { IfOk result (λ v. type_lists_of v.items ≡ joined (map plain_type firsts.now) (type_lists_of tails.now)) }
{
    let mut all = Vec::new(alloc);
    for first in firsts {
        add_type_lists(alloc, &mut all, first, tails)?;
    }
    Ok(all)
}

pub(crate) fn no_type(alloc: Global) -> Result<Vec<Vec<TypeInst>>, Memory>
    ensures { IfOk result (λ v. type_lists_of v.items ≡ [] ∷ []) }
{
    let mut all = Vec::new(alloc);
    all.push(Vec::new(alloc))?;
    Ok(all)
}
