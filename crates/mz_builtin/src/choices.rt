// What occurs in the types of a call's arguments, from which readings are made.

ghost use Rattle.std.specs.Prelude.{◌≡◌, ◌++◌, ◌∷◌, [], map, IfOk};
ghost use Rattle.mz_core.specs.Types.{plain_type};
ghost use Rattle.mz_builtin.specs.Readings.{with_number, with_base, with_indices, enums_from, index_enums_from, with_rank, ranks_from, choices};
ghost use Rattle.mz_builtin.specs.Views.{plain_choices};

use mz_base::Memory;
use mz_core::{Base, Ix, TypeInst};
use std::alloc::Global;

/// The enums that occur; the index types, `int` the last; and the numbers of dimensions, 1 the
/// first.
#[derive(Drop)]
pub struct Choices {
    pub enums: Vec<u64>,
    pub indices: Vec<Ix>,
    pub ranks: Vec<u64>,
}

#[tactic(auto, unfolding(crate::specs::Readings::with_number))]
fn with_number(all: &mut Vec<u64>, n: u64) -> Result<(), Memory>
    ensures { IfOk result (λ _. all.new.items ≡ with_number all.old.items n) }
{
    if !all.contains(&n) {
        all.push(n)?;
    }
    Ok(())
}

#[tactic(auto, unfolding(crate::specs::Readings::with_base))]
fn with_base(all: &mut Vec<u64>, b: Base) -> Result<(), Memory>
    ensures { IfOk result (λ _. all.new.items ≡ with_base all.old.items b) }
{
    match b {
        Base::Enum(e) | Base::SetEnum(e) => with_number(all, e),
        _ => Ok(()),
    }
}

#[tactic(auto, unfolding(crate::specs::Readings::with_indices))]
fn with_indices(all: &mut Vec<u64>, indices: &[Ix]) -> Result<(), Memory>
    ensures { IfOk result (λ _. all.new.items ≡ with_indices all.old.items indices.now) }
{
    for i in indices {
        if let Ix::Enum(e) = *i {
            with_number(all, e)?;
        }
    }
    Ok(())
}

#[tactic(auto, unfolding(crate::specs::Readings::with_rank))]
fn with_rank(all: &mut Vec<u64>, dims: &[Ix]) -> Result<(), Memory>
    ensures { IfOk result (λ _. all.new.items ≡ with_rank all.old.items dims.now) }
{
    if dims.is_empty() {
        return Ok(());
    }
    with_number(all, dims.len() as u64)
}

#[tactic(auto, unfolding(crate::specs::Readings::enums_from, mz_core::specs::Types::plain_type))]
fn enums_of(alloc: Global, args: &[TypeInst]) -> Result<Vec<u64>, Memory>
    ensures { IfOk result (λ v. v.items ≡ enums_from [] (map plain_type args.now)) }
{
    let mut all = Vec::new(alloc);
    for t in args {
        with_base(&mut all, t.base)?;
        with_indices(&mut all, &t.dims)?;
    }
    Ok(all)
}

#[tactic(auto, unfolding(crate::specs::Readings::index_enums_from, mz_core::specs::Types::plain_type))]
fn index_enums_of(alloc: Global, args: &[TypeInst]) -> Result<Vec<u64>, Memory>
    ensures { IfOk result (λ v. v.items ≡ index_enums_from [] (map plain_type args.now)) }
{
    let mut all = Vec::new(alloc);
    for t in args {
        with_indices(&mut all, &t.dims)?;
    }
    Ok(all)
}

#[tactic(auto, unfolding(crate::specs::Readings::ranks_from, mz_core::specs::Types::plain_type))]
fn ranks_of(alloc: Global, args: &[TypeInst]) -> Result<Vec<u64>, Memory>
    ensures { IfOk result (λ v. v.items ≡ ranks_from (1 ∷ []) (map plain_type args.now)) }
{
    let mut all = vec![in alloc; 1u64]?;
    for t in args {
        with_rank(&mut all, &t.dims)?;
    }
    Ok(all)
}

fn indices_of(alloc: Global, enums: &[u64]) -> Result<Vec<Ix>, Memory>
    ensures { IfOk result (λ v. v.items ≡ map Ix.Enum enums.now ++ (Ix.Int ∷ [])) }
{
    let mut all = Vec::new(alloc);
    for e in enums {
        all.push(Ix::Enum(*e))?;
    }
    all.push(Ix::Int)?;
    Ok(all)
}

#[tactic(auto, unfolding(crate::specs::Readings::choices))]
pub(crate) fn choices_of(alloc: Global, args: &[TypeInst]) -> Result<Choices, Memory>
    ensures { IfOk result (λ c. plain_choices c ≡ choices (map plain_type args.now)) }
{
    let enums = enums_of(alloc, args)?;
    let index_enums = index_enums_of(alloc, args)?;
    let indices = indices_of(alloc, &index_enums)?;
    let ranks = ranks_of(alloc, args)?;
    Ok(Choices {
        enums,
        indices,
        ranks,
    })
}
