// What the walk over a model has in hand, and the boundary of the walk.

ghost use Rattle.mz_model_state.specs.Laws.{TellsAssigned, HandModels, HandStops};
ghost use Rattle.mz_model_state.specs.Made.{InstanceMade};
ghost use Rattle.mz_model_state.specs.Variables.{VariablesSeen, PartsMade, NodesMade, NamesMade, VarsKept, MoreVars, MoreSlots, WholeByTest};
ghost use Rattle.mz_model_state.specs.Roots.{NumbersTested, SetsTested, TruthsTested, GuardedTruthsTested, OptionsTested, SymbolsTested, TruthsThere};
ghost use Rattle.mz_model_state.specs.Roots.{PlaceRoots, EqualRoots, TruthRoots, OptionTruthRoots, ArrayRoots, LineRoots, FalseRoots, NoRoots, ConstraintRoots};
ghost use Rattle.mz_model_state.specs.Roots.{MoreRooted, RootedKept, MoreMet, MetKept};
ghost use Rattle.mz_model_state.specs.Loops.{Started, UnboundedStops, OneMoreDeclared, OneStops, AllDeclared, OneMoreConstrained, ConstraintStops, ObjectiveStops, WholeWalk};

/// The law that the instance made of what the walk has in hand is the model's, and that where the
/// walk stops under each reading, some walk over the model stops.
pub fn hands_are_models()
    ensures assigned { TellsAssigned }
    ensures models { HandModels }
    ensures stops { HandStops }
{}

/// The law of the loop over declarations: its start, a step, and a fault.
pub fn declarations_are_walked()
    ensures started { Started }
    ensures unbounded { UnboundedStops }
    ensures more { OneMoreDeclared }
    ensures stops { OneStops }
{}

/// The law of the loop over constraints, of the objective, and of the whole walk.
pub fn constraints_are_walked()
    ensures declared { AllDeclared }
    ensures more { OneMoreConstrained }
    ensures stops { ConstraintStops }
    ensures objective { ObjectiveStops }
    ensures whole { WholeWalk }
{}

/// The law of the variables: their cells, those of an instance, and their nodes as the run goes on.
pub fn variables_are_made()
    ensures seen { VariablesSeen }
    ensures parts { PartsMade }
    ensures nodes { NodesMade }
    ensures names { NamesMade }
    ensures kept { VarsKept }
    ensures more { MoreVars }
    ensures slots { MoreSlots }
{}

/// The law that what is made of what the walk has in hand is an instance.
pub fn instances_are_made()
    ensures { InstanceMade }
{}

/// The law that one pass over the arena tells that each choice node is a choice's.
pub fn one_pass_tells_choices()
    ensures { WholeByTest }
{}

/// The law of the nodes that test two values: integers and cases, sets, Booleans, and options.
pub fn values_are_tested()
    ensures numbers { NumbersTested }
    ensures sets { SetsTested }
    ensures truths { TruthsTested }
    ensures guarded { GuardedTruthsTested }
    ensures options { OptionsTested }
    ensures symbols { SymbolsTested }
    ensures there { TruthsThere }
{}

/// The law of the roots of declared values, and of constraints.
pub fn roots_tell_values()
    ensures place { PlaceRoots }
    ensures equal { EqualRoots }
    ensures truth { TruthRoots }
    ensures option_truth { OptionTruthRoots }
    ensures array { ArrayRoots }
    ensures line { LineRoots }
    ensures undefined { FalseRoots }
    ensures none { NoRoots }
    ensures constraint { ConstraintRoots }
{}

/// The law that roots stay what they are as the run goes on.
pub fn roots_are_kept()
    ensures more_names { MoreRooted }
    ensures names { RootedKept }
    ensures more_constraints { MoreMet }
    ensures constraints { MetKept }
{}
