// The work of evaluations, against their budget.

ghost use Rattle.std.specs.Prelude.{ℕ, ◌≤◌, ◌+◌};
ghost use Rattle.mz_core.specs.Tree.{Tree};
ghost use Rattle.mz_meaning.specs.Runs.{State};
ghost use Rattle.mz_meaning.specs.Cells.{Env};
ghost use Rattle.mz_meaning.specs.Contexts.{Untested};
ghost use Rattle.mz_meaning.specs.Forms.{World};
ghost use Rattle.mz_meaning.specs.Evaluation.{eval};
ghost use Rattle.mz_meaning_laws.specs.Spending.{EndsWithin};

/// Does nothing: its contract says that an evaluation which begins with at most its budget and 1
/// spent, and goes through, ends so, whatever the expression, the names and the mode. No context is
/// tested.
pub fn evaluations_end_within_their_budget()
    ensures { (w : World) (levels : ℕ) (e : Tree) (env : Env) (s : State) → s.work ≤ w.budget + 1 → EndsWithin w.budget (eval w levels Untested e env s) }
{}
