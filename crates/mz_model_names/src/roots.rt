// The roots of names, which have a value or have none.

ghost use Rattle.std.specs.Prelude.{◌≡◌, ◌∷◌, [], IfOk, List, None, Some, true};
ghost use Rattle.mz_value.specs.Ranges.{Range};
ghost use Rattle.mz_symbol.specs.declared.types.Free.{Free};
ghost use Rattle.mz_model_state.specs.Hands.{OnePlace, ManyPlaces};
ghost use Rattle.mz_model_roots.specs.Rooted.{HasRanges};
ghost use Rattle.mz_model_names.specs.Named.{AreRootsIf, Stands, view_if};

use mz_arena::Id;
use mz_base::Memory;
use mz_core::Base;
use mz_eval_cells::Known;
use mz_model_roots::{array_roots, place_root};
use mz_model_state::roots_tell_values;
use mz_symbol::{Free, Run};
use std::alloc::Global;

#[tactic(auto, using(crate::proofs::Rooted::not_rooted))]
fn no_roots(alloc: Global, run: &Run) -> Vec<Id>
    ensures one { (f : Free) → AreRootsIf run.now (OnePlace f) None result.items }
    ensures many { (ix : List Range) (fs : List Free) → AreRootsIf run.now (ManyPlaces ix fs) None result.items }
{
    roots_tell_values();
    Vec::new(alloc)
}

fn only(alloc: Global, id: Id) -> Result<Vec<Id>, Memory>
    ensures { IfOk result (λ v. v.items ≡ id ∷ []) }
{
    let mut all = Vec::new(alloc);
    all.push(id)?;
    Ok(all)
}

#[tactic(auto, using(crate::proofs::Rooted::rooted_if))]
fn value_root(alloc: Global, run: &mut Run, place: &Free, k: &Known) -> Result<Vec<Id>, Memory>
    ensures stands { IfOk result (λ _. Stands run.old run.new) }
    ensures roots { IfOk result (λ ids. AreRootsIf run.new (OnePlace place.now) (view_if (Some k.now)) ids.items) }
{
    let Ok(id) = place_root(alloc, run, place, k) else {
        return Err(Memory);
    };
    let all = only(alloc, id)?;
    Ok(all)
}

/// The roots of a variable that is no array.
#[tactic(auto, using(crate::proofs::Rooted::stands_still))]
pub(crate) fn one_roots(
    alloc: Global,
    run: &mut Run,
    place: &Free,
    value: &Option<Known>,
) -> Result<Vec<Id>, Memory>
    ensures stands { IfOk result (λ _. Stands run.old run.new) }
    ensures roots { IfOk result (λ ids. AreRootsIf run.new (OnePlace place.now) (view_if value.now) ids.items) }
{
    match value {
        None => Ok(no_roots(alloc, run)),
        Some(k) => value_root(alloc, run, place, k),
    }
}

fn same_ranges(a: &[(i64, i64)], b: &[(i64, i64)]) -> bool
    ensures { result ≡ true → a.now ≡ b.now }
{
    a == b
}

/// Whether an array's value has these index ranges; nothing is asked of one without a shape.
fn has_ranges(ix: &[(i64, i64)], k: &Known) -> bool
    ensures { result ≡ true → HasRanges ix.now k.now }
{
    match k {
        Known::Unshaped(_) => true,
        Known::Array(jx, _) => same_ranges(jx.as_slice(), ix),
        Known::Row(jx, _) => same_ranges(jx.as_slice(), ix),
        Known::Undefined => same_ranges(&[], ix),
        Known::One(_) => same_ranges(&[], ix),
        Known::Var(_) => same_ranges(&[], ix),
    }
}

#[tactic(auto, using(crate::proofs::Rooted::rooted_if))]
fn array_value_roots(
    alloc: Global,
    run: &mut Run,
    ix: &[(i64, i64)],
    places: &[Free],
    base: Base,
    k: &Known,
) -> Result<Vec<Id>, Memory>
    ensures stands { IfOk result (λ _. Stands run.old run.new) }
    ensures roots { IfOk result (λ ids. AreRootsIf run.new (ManyPlaces ix.now places.now) (view_if (Some k.now)) ids.items) }
{
    if !has_ranges(ix, k) {
        return Err(Memory);
    }
    let Ok(ids) = array_roots(alloc, run, places, base, k) else {
        return Err(Memory);
    };
    Ok(ids)
}

/// The roots of an array of variables with these index ranges. Out of memory too where its value has
/// others.
#[tactic(auto, using(crate::proofs::Rooted::stands_still))]
pub(crate) fn many_roots(
    alloc: Global,
    run: &mut Run,
    ix: &[(i64, i64)],
    places: &[Free],
    base: Base,
    value: &Option<Known>,
) -> Result<Vec<Id>, Memory>
    ensures stands { IfOk result (λ _. Stands run.old run.new) }
    ensures roots { IfOk result (λ ids. AreRootsIf run.new (ManyPlaces ix.now places.now) (view_if value.now) ids.items) }
{
    match value {
        None => Ok(no_roots(alloc, run)),
        Some(k) => array_value_roots(alloc, run, ix, places, base, k),
    }
}
