// The nodes of accesses.

ghost use Rattle.std.specs.Prelude.{◌≡◌, false, Some};
ghost use Rattle.mz_arena.specs.Charges.{charge_of};
ghost use Rattle.mz_arena.specs.Entries.{is_free};
ghost use Rattle.mz_arena.specs.Values.{number};
ghost use Rattle.mz_meaning.specs.Runs.{give};
ghost use Rattle.mz_symbol.specs.Makes.{GoesOnBy, Means};
ghost use Rattle.mz_symbol_rows.specs.StepsNodes.{meaning_over};

use mz_arena::{Id, Node, NodeKind};
use mz_base::Stop;
use mz_symbol::Run;

/// A node of this kind over up to two others.
pub(crate) fn made(run: &mut Run, kind: NodeKind, a: Id, b: Id) -> Result<Id, Stop>
    requires { is_free kind ≡ false }
    ensures goes { GoesOnBy (charge_of kind) run.old run.new }
    ensures means { Means (λ r. r.term) result run.old run.new (λ r. give (meaning_over kind a b r)) }
{
    let n = Node {
        kind,
        a,
        b,
        c: 0,
        number: 0,
    };
    run.node(&n)
}

/// An integer.
pub(crate) fn integer(run: &mut Run, n: i64) -> Result<Id, Stop>
    ensures goes { GoesOnBy 0 run.old run.new }
    ensures means { Means (λ r. r.term) result run.old run.new (λ _. give (Some (number n))) }
{
    let n = Node {
        kind: NodeKind::Int,
        a: 0,
        b: 0,
        c: 0,
        number: n,
    };
    run.node(&n)
}
