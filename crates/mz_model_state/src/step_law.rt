// The steps of a walk over a model.

ghost use Rattle.mz_model_state.specs.Forms.{DeclaredByForm};
ghost use Rattle.mz_model_state.specs.Names.{FormFaults, ParIsNext, VarIsNext};
ghost use Rattle.mz_model_state.specs.Progress.{Begins, OneMoreName, AllNames, OneMoreConstraint};
ghost use Rattle.mz_model_state.specs.Progress.{DeclarationHalts, ConstraintHalts, ObjectiveHalts, HaltedStops, ClosedModels};

use crate::{
    constraints_are_walked, declarations_are_walked, hands_are_models, roots_are_kept,
    tested_runs_make_instances, variables_are_made,
};

/// The law of one more name: a declaration gives the name of its form, and stops where the evaluation
/// of its sets and its value does.
pub fn names_are_added()
    ensures form { DeclaredByForm }
    ensures stops { FormFaults }
    ensures par { ParIsNext }
    ensures var { VarIsNext }
{
    variables_are_made();
}

/// The law of the walk's start, of one more declaration, and of one more constraint.
pub fn walks_go_on()
    ensures begins { Begins }
    ensures name { OneMoreName }
    ensures all { AllNames }
    ensures constraint { OneMoreConstraint }
{
    declarations_are_walked();
    constraints_are_walked();
    roots_are_kept();
    variables_are_made();
}

/// The law of the walk's end: the instance that is made of what is in hand is the model's, and where
/// the walk stops, some walk over the model does.
pub fn walks_are_closed()
    ensures declaration { DeclarationHalts }
    ensures constraint { ConstraintHalts }
    ensures objective { ObjectiveHalts }
    ensures stops { HaltedStops }
    ensures models { ClosedModels }
{
    declarations_are_walked();
    constraints_are_walked();
    hands_are_models();
    variables_are_made();
    roots_are_kept();
    tested_runs_make_instances();
}
