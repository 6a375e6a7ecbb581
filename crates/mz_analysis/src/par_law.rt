// What holds of every typed program, and of the levels of operators.

ghost use Rattle.std.specs.Prelude.{ℕ, List};
ghost use Rattle.std.specs.List.{AllByRecursion};
ghost use Rattle.mz_core.specs.Program.{PlainProgram};
ghost use Rattle.mz_scope_order.specs.Scoped.{ScopedTree};
ghost use Rattle.mz_check_data.specs.WithData.{ChecksWithData};
ghost use Rattle.mz_core.specs.Nodes.{nodes_of};
ghost use Rattle.mz_analysis.specs.Levels.{AreTheGrammars};
ghost use Rattle.mz_analysis.specs.Par.{RespectsPar};

/// What a scoped model is typed to with its data respects par: wherever an expression is typed par, it is a par node, under coercions that keep it par; and each declaration of a `let` that is typed par has a value.
pub fn typed_programs_respect_par()
    ensures { (texts : List (List ℕ)) (s : ScopedTree) (p : PlainProgram) → ChecksWithData texts s p → AllByRecursion RespectsPar (nodes_of p) }
{}

/// The operators of the table have the levels at which the grammar reads them.
pub fn levels_are_the_grammars()
    ensures { AreTheGrammars }
{}
