// The test that the parts of names have their nodes.

ghost use Rattle.std.specs.Prelude.{IfOk, map};
ghost use Rattle.mz_model_state.specs.Hands.{AreVars, kind_places};
ghost use Rattle.mz_model_names.specs.Named.{held_name, name_kind};
ghost use Rattle.mz_model_state.specs.Placed.{ArePlaced};

use crate::{HeldName, Kind};
use mz_base::Memory;
use mz_model_state::{places_are_variables, test_places};
use mz_symbol::Run;
use std::slice;

/// The number after the parts of a name, the first of which has this one.
#[tactic(auto, using(crate::proofs::Placed::none_placed))]
fn after_name(run: &Run, number: u64, kind: &Kind) -> Result<u64, Memory>
    ensures { IfOk result (ArePlaced run.now number (kind_places (name_kind kind.now))) }
{
    match kind {
        Kind::Par => Ok(number),
        Kind::One(f) => test_places(run, number, slice::from_ref(f)),
        Kind::Many(_, places) => test_places(run, number, places),
    }
}

/// The test that the parts of names are the run's variables, in order. One pass over the places.
///
/// Out of memory too where it isn't so. No walk comes to that.
pub fn are_placed(run: &Run, names: &[HeldName]) -> Result<(), Memory>
    ensures { IfOk result (λ _. AreVars run.now (map held_name names.now)) }
{
    places_are_variables();
    let mut number = 0;
    for h in names {
        number = after_name(run, number, &h.kind)?;
    }
    Ok(())
}
