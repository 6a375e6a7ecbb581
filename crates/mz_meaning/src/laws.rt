// What holds of every evaluation.

ghost use Rattle.std.specs.Prelude.{ℕ};
ghost use Rattle.mz_core.specs.Tree.{Tree};
ghost use Rattle.mz_meaning.specs.Cells.{Env};
ghost use Rattle.mz_meaning.specs.Contexts.{Untested};
ghost use Rattle.mz_meaning.specs.Forms.{World};
ghost use Rattle.mz_meaning.specs.Evaluation.{eval};
ghost use Rattle.mz_meaning.specs.Kinds.{IsEvaluation};
ghost use Rattle.mz_meaning.specs.Promises.{BooleansAreDefined, CellsHaveTheirMark};

/// An evaluation that tests no context stops at Bounds, Budget, Depth, AssertFailed, IndexMismatch and NegativeArgument alone: never at ParUndefined or FreeInContext.
pub fn evaluation_stops_at_few_kinds()
    ensures kinds { (w : World) (levels : ℕ) (e : Tree) (env : Env) → IsEvaluation (eval w levels Untested e env) }
{}

/// What an expression gives is of its type: a Boolean that is no option is never undefined where var values are there, and a cell is par exactly where the type is.
pub fn cells_have_their_type()
    ensures booleans { BooleansAreDefined }
    ensures marks { CellsHaveTheirMark }
{}
