// The places at which an evaluation stops are places of what is evaluated.

ghost use Rattle.std.specs.Prelude.{ℕ, ◌++◌};
ghost use Rattle.std.specs.List.{flat_map};
ghost use Rattle.mz_core.specs.Program.{PlainProgram};
ghost use Rattle.mz_core.specs.Tree.{Tree};
ghost use Rattle.mz_meaning.specs.Runs.{State};
ghost use Rattle.mz_meaning.specs.Cells.{Env, Mode};
ghost use Rattle.mz_meaning.specs.Contexts.{Context};
ghost use Rattle.mz_meaning.specs.Forms.{World};
ghost use Rattle.mz_meaning.specs.Evaluation.{eval};
ghost use Rattle.mz_meaning.specs.Walk.{Limits, Assignment, walk};
ghost use Rattle.mz_meaning_laws.specs.Places.{places_in, function_places, places_of};
ghost use Rattle.mz_meaning_laws.specs.Stopping.{StopsAmong};

/// Does nothing: its contract says that the evaluation of an expression stops at places of the
/// expression and of the functions alone, and the walk over a program at places of the program,
/// in every context and with every assignment.
pub fn evaluation_stops_in_its_places()
    ensures expressions { (w : World) (levels : ℕ) (c : Context) (e : Tree) (env : Env) (s : State) → StopsAmong (flat_map function_places w.functions ++ places_in e) (eval w levels c e env s) }
    ensures walks { (c : Context) (l : Limits) (m : Mode) (a : Assignment) (p : PlainProgram) (s : State) → StopsAmong (places_of p) (walk c l m a p s) }
{}
