// What two items are told to be.

use crate::nodes::{Compare, compared};
use mz_arena::Id;
use mz_base::Memory;
use mz_symbol::Run;

/// How an item stands to another, as a term.
pub trait Relation<T> {
    ghost use Rattle.std.specs.Prelude.{ℕ, Bool, IfOk};
    ghost use Rattle.mz_symbol.specs.Readings.{Reading};
    ghost use Rattle.mz_symbol.specs.Makes.{GoesOnBy};
    ghost use Rattle.glob_nodes.specs.Says.{Tells};

    // What it says of two items, and what its nodes may cost.
    ghost related: { Self → T → T → Reading → Bool };

    ghost room: { ℕ };

    /// The term of two items.
    fn relate(&self, run: &mut Run, x: &T, y: &T) -> Result<Id, Memory>
        ensures goes { GoesOnBy room run.old run.new }
        ensures tells { IfOk result (Tells run.old run.new (related self.now x.now y.now)) };
}

/// Integers that are compared.
#[derive(Clone, Copy)]
pub struct Compared {
    pub op: Compare,
}

impl Relation<Id> for Compared {
    ghost use Rattle.glob_nodes.specs.Says.{num, compares};

    ghost related = { λ c x y r. compares c.op (num r x) (num r y) };

    ghost room = { 6 };

    fn relate(&self, run: &mut Run, x: &Id, y: &Id) -> Result<Id, Memory> {
        let id = compared(run, self.op, *x, *y)?;
        Ok(id)
    }
}
