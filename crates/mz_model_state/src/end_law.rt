// What is tested at the end makes an instance, and its variables are made of the names' places.

ghost use Rattle.mz_model_state.specs.Tested.{TestedMakes};
ghost use Rattle.mz_model_state.specs.Vars.{VarsMade, ArraysMade};
ghost use Rattle.mz_model_state.specs.Placed.{PlacedIsNext, PlacedCounts};

use crate::instances_are_made;

/// The law that what is made of the names in hand, and passes the test at the end, is an instance
/// whose choices are the run's.
pub fn tested_runs_make_instances()
    ensures { TestedMakes }
{
    instances_are_made();
}

/// The law that a variable over places is made of them, as the walk over a model asks, where the
/// places have domains of its base.
pub fn vars_are_made()
    ensures one { VarsMade }
    ensures many { ArraysMade }
{}

/// The law that names whose places are tested one after the other have the nodes of their parts.
pub fn places_are_variables()
    ensures next { PlacedIsNext }
    ensures counts { PlacedCounts }
{}
