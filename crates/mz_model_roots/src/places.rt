// The places of a declared name.

ghost use Rattle.std.specs.Prelude.{◌≡◌, ◌*◌, [], ◌∷◌, List, IfOk, length, map, true};
ghost use Rattle.mz_value.specs.Ranges.{Range};
ghost use Rattle.mz_instance.specs.Parts.{next, truths};
ghost use Rattle.mz_model_meaning.specs.Decoded.{IsShaped};
ghost use Rattle.mz_model_state.specs.Hands.{OnePlace, ManyPlaces};
ghost use Rattle.mz_model_roots.specs.Placed.{place_over, ArePlaces, AddsName, MakesPlaces};
ghost use Rattle.mz_model_roots.specs.StepsPlaces.{IsSuited};

use mz_base::Memory;
use mz_core::Base;
use mz_symbol::{Free, Run};
use mz_value::RangeSet;
use std::alloc::Global;

/// Whether a set is that of false and true.
fn is_truths(set: &RangeSet) -> bool
    ensures { result ≡ true → set.now ≡ truths }
{
    let ranges = set.ranges();
    if ranges.len() == 1 {
        ranges[0].0 == 0 && ranges[0].1 == 1
    } else {
        false
    }
}

/// Whether a variable may have this base: a truth value is false or true, and no option is of a set.
fn is_suited(base: Base, opt: bool, set: &RangeSet) -> bool
    ensures { result ≡ true → IsSuited (place_over base opt set.now) }
{
    match base {
        Base::Bool => is_truths(set),
        Base::Int => true,
        Base::Enum(_) => true,
        Base::SetInt => !opt,
        Base::SetEnum(_) => !opt,
        _ => false,
    }
}

/// Whether a variable may have this domain.
fn may_be_declared(base: Base, opt: bool, set: &RangeSet) -> bool
    ensures { result ≡ true → IsShaped (place_over base opt set.now) }
{
    let _canonical = set.ranges();
    is_suited(base, opt, set)
}

/// The place of a variable of this domain, whose parts have the numbers from this one on.
///
/// Out of memory too where no variable may have the domain: a truth value is false or true, and no
/// option is of a set. A number may have an empty domain.
#[tactic(auto, using(crate::proofs::NextPlaces::makes_none, crate::proofs::NextPlaces::place_made))]
fn placed(run: &mut Run, number: u64, base: Base, opt: bool, set: RangeSet) -> Result<Free, Memory>
    ensures makes { MakesPlaces 8 run.old run.new }
    ensures place { IfOk result (λ f. ArePlaces run.new number (place_over base opt set ∷ []) (f ∷ [])) }
{
    if !may_be_declared(base, opt, &set) {
        return Err(Memory);
    }
    let symbol = run.variable(number, base, opt, &set)?;
    Ok(Free { symbol, set })
}

/// The place of the next name, a variable of this domain, where the names so far have this number of
/// parts.
///
/// Out of memory too where no variable may have the domain: a truth value is false or true, and no
/// option is of a set. A number may have an empty domain.
#[tactic(auto, using(crate::proofs::NextPlaces::name_added))]
pub fn one_place(
    run: &mut Run,
    number: u64,
    base: Base,
    opt: bool,
    set: RangeSet,
) -> Result<Free, Memory>
    ensures makes { MakesPlaces 8 run.old run.new }
    ensures place { IfOk result (λ f. ArePlaces run.new number (place_over base opt set ∷ []) (f ∷ [])) }
    ensures name { IfOk result (λ f. AddsName run.old run.new number (OnePlace f)) }
{
    let place = placed(run, number, base, opt, set)?;
    Ok(place)
}

/// The number of the first part after those of a place.
fn number_after(number: u64, opt: bool) -> Result<u64, Memory>
    ensures { IfOk result (λ n. n ≡ next opt number) }
{
    if number > u64::MAX - 2 {
        return Err(Memory);
    }
    if opt { Ok(number + 2) } else { Ok(number + 1) }
}

/// One place for each of these sets, in order.
fn all_placed(
    alloc: Global,
    run: &mut Run,
    number: u64,
    base: Base,
    opt: bool,
    sets: Vec<RangeSet>,
) -> Result<Vec<Free>, Memory>
    ensures makes { MakesPlaces (8 * length sets.items) run.old run.new }
    ensures places { IfOk result (λ fs. ArePlaces run.new number (map (place_over base opt) sets.items) fs.items) }
{
    let mut all = Vec::new(alloc);
    let mut next = number;
    for set in sets {
        let place = placed(run, next, base, opt, set)?;
        next = number_after(next, opt)?;
        all.push(place)?;
    }
    Ok(all)
}

/// The places of the next name, an array of variables over these sets, the last index moving first,
/// where the names so far have this number of parts.
///
/// Out of memory too where a variable may not have such a domain, as `one_place` is.
#[tactic(auto, using(crate::proofs::NextPlaces::name_added))]
pub fn many_places(
    alloc: Global,
    run: &mut Run,
    number: u64,
    base: Base,
    opt: bool,
    sets: Vec<RangeSet>,
) -> Result<Vec<Free>, Memory>
    ensures makes { MakesPlaces (8 * length sets.items) run.old run.new }
    ensures places { IfOk result (λ fs. ArePlaces run.new number (map (place_over base opt) sets.items) fs.items) }
    ensures name { IfOk result (λ fs. (ix : List Range) → AddsName run.old run.new number (ManyPlaces ix fs.items)) }
{
    let places = all_placed(alloc, run, number, base, opt, sets)?;
    Ok(places)
}
