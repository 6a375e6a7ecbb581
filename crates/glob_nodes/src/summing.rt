// What each element of a list adds, summed.

ghost use Rattle.std.specs.Prelude.{◌≡◌, ◌+◌, ◌*◌, IfOk, length};
ghost use Rattle.mz_symbol.specs.Makes.{GoesOnBy};
ghost use Rattle.glob_nodes.specs.Says.{num};
ghost use Rattle.glob_nodes.specs.Numbers.{IsNumber, added, plus};

use crate::numbers::{constant, plus};
use mz_arena::Id;
use mz_base::Memory;
use mz_symbol::Run;

/// What an element adds, as a term.
pub trait Part<T> {
    ghost use Rattle.std.specs.Prelude.{ℕ, ℤ, IfOk, Option};
    ghost use Rattle.mz_symbol.specs.Readings.{Reading};
    ghost use Rattle.mz_symbol.specs.Makes.{GoesOnBy};
    ghost use Rattle.glob_nodes.specs.Numbers.{IsNumber};

    // The number of an element, and what its nodes may cost.
    ghost amount: { Self → T → Reading → Option ℤ };

    ghost room: { ℕ };

    /// The term of an element.
    fn part(&self, run: &mut Run, x: &T) -> Result<Id, Memory>
        ensures goes { GoesOnBy room run.old run.new }
        ensures is { IfOk result (IsNumber run.old run.new (amount self.now x.now)) };
}

/// What an element adds to what is summed already.
#[tactic(auto, using(mz_symbol_rows::proofs::GoingOn::goes_both))]
fn one_more<T, P: Part<T>>(run: &mut Run, p: &P, x: &T, sum: Id) -> Result<Id, Memory>
    ensures goes { GoesOnBy (P.room + 4) run.old run.new }
    ensures is { IfOk result (IsNumber run.old run.new (λ v. plus (P.amount p.now x.now v) (num v sum))) }
{
    let part = p.part(run, x)?;
    plus(run, part, sum)
}

/// What all elements add, the last one first. Out of memory too where the sum's bounds leave the
/// limit.
pub fn summed<T, P: Part<T>>(run: &mut Run, p: &P, items: &[T]) -> Result<Id, Memory>
    ensures goes { GoesOnBy ((P.room + 4) * length items.now) run.old run.new }
    ensures is { IfOk result (IsNumber run.old run.new (λ v. added (λ x. P.amount p.now x v) items.now)) }
{
    let mut acc = constant(run, 0)?;
    let mut k = items.len();
    while k > 0 {
        k -= 1;
        acc = one_more(run, p, &items[k], acc)?;
    }
    Ok(acc)
}
