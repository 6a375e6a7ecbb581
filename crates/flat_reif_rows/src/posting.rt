// Rows of roots: what must be true.

ghost use Rattle.std.specs.Prelude.{◌≡◌, ◌∷◌, [], IfOk, OnOk, OnErr, map, Some, false, true};
ghost use Rattle.fz_program.specs.declared.row_name.Kind.TheVariants.{Bool as Truth};
ghost use Rattle.fz_program.specs.Arguments.{argument, bool, one, plain};
ghost use Rattle.fz_program.specs.Flat.{is_plain};
ghost use Rattle.fz_build.specs.Build.{constraint, with_row};
ghost use Rattle.flat_reif_rows.specs.Making.{AreOperands};
ghost use Rattle.flat_reif_rows.specs.RootRows.{IsEmptied, IsForced, Tests, false_row, test_inputs, test_inputs_by, test_of, truth_row};

use crate::table::is_clause_kind;
use fz_build::Build;
use fz_program::{Arg, RowName};
use mz_arena::NodeKind;
use mz_base::Memory;
use std::alloc::Global;

// Both in one array, and none that are negated.
fn clause(alloc: Global, a: Arg, b: Arg) -> Result<Vec<Arg>, Memory>
    ensures { IfOk result (λ all. map argument all.items ≡ test_inputs_by true (argument a) (argument b)) }
{
    let both = vec![in alloc; a, b]?;
    let none = Vec::new(alloc);
    Ok(vec![in alloc; Arg::Array(both), Arg::Array(none)]?)
}

fn test_inputs(alloc: Global, kind: NodeKind, a: Arg, b: Arg) -> Result<Vec<Arg>, Memory>
    ensures { IfOk result (λ all. map argument all.items ≡ test_inputs kind (argument a) (argument b)) }
{
    if is_clause_kind(kind) {
        clause(alloc, a, b)
    } else {
        Ok(vec![in alloc; a, b]?)
    }
}

/// Keeps the solutions in which a node of this kind is true, by the one row over its two children's
/// arguments.
///
/// The arguments lie within the bounds of two children that such a node may have.
pub fn post_test(
    alloc: Global,
    build: &mut Build,
    kind: NodeKind,
    name: RowName,
    a: Arg,
    b: Arg,
) -> Result<(), Memory>
    requires row { test_of kind ≡ Some name }
    requires operands { AreOperands build.old.vars kind (plain a ∷ plain b ∷ []) }
    ensures added { OnOk result (build.new ≡ with_row build.old (constraint name (test_inputs kind (argument a) (argument b)))) }
    ensures tests { OnOk result (Tests build.old build.new kind (plain a ∷ plain b ∷ [])) }
    ensures err { OnErr result (build.new ≡ build.old) }
{
    let inputs = given!(test_inputs(alloc, kind, a, b));
    build.post(name, &inputs)
}

fn true_argument() -> Arg
    ensures { argument result ≡ one (bool true) }
{
    Arg::Bool(true)
}

/// Keeps the solutions in which a truth value is true, by the one row that it equals `true`.
pub fn post_true(build: &mut Build, a: Arg) -> Result<(), Memory>
    requires { is_plain build.old.vars Truth (plain a) ≡ true }
    ensures added { OnOk result (build.new ≡ with_row build.old (truth_row (argument a))) }
    ensures forced { OnOk result (IsForced build.old build.new (plain a)) }
    ensures err { OnErr result (build.new ≡ build.old) }
{
    let inputs = [a, true_argument()];
    build.post(RowName::BoolEq, &inputs)
}

fn false_argument() -> Arg
    ensures { argument result ≡ one (bool false) }
{
    Arg::Bool(false)
}

/// Leaves no solution, by the row that `false` equals `true`.
pub fn post_false(build: &mut Build) -> Result<(), Memory>
    ensures added { OnOk result (build.new ≡ with_row build.old false_row) }
    ensures emptied { OnOk result (IsEmptied build.old build.new) }
    ensures err { OnErr result (build.new ≡ build.old) }
{
    post_true(build, false_argument())
}
