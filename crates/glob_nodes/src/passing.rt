// What is tested of each element of a list, joined.

ghost use Rattle.std.specs.Prelude.{◌≡◌, ◌+◌, ◌*◌, ◌&&◌, IfOk, length};
ghost use Rattle.std.specs.List.{list_all, list_any};
ghost use Rattle.mz_arena.specs.Values.{is_true};
ghost use Rattle.mz_symbol.specs.Makes.{GoesOnBy};
ghost use Rattle.glob_nodes.specs.Says.{Says, Tells, joins, joined_each};

use crate::{Join, joined, truth};
use mz_arena::Id;
use mz_base::Memory;
use mz_symbol::Run;

/// What is told of an element, as a term.
pub trait Test<T> {
    ghost use Rattle.std.specs.Prelude.{ℕ, Bool, IfOk};
    ghost use Rattle.mz_symbol.specs.Readings.{Reading};
    ghost use Rattle.mz_symbol.specs.Makes.{GoesOnBy};
    ghost use Rattle.glob_nodes.specs.Says.{Tells};

    // What it says of an element, and what its nodes may cost.
    ghost holds: { Self → T → Reading → Bool };

    ghost room: { Self → ℕ };

    /// The term of an element.
    fn test(&self, run: &mut Run, x: &T) -> Result<Id, Memory>
        ensures goes { GoesOnBy (room self.now) run.old run.new }
        ensures tells { IfOk result (Tells run.old run.new (holds self.now x.now)) };
}

/// What is tested of an element, joined with what is told already.
#[tactic(auto, using(mz_symbol_rows::proofs::GoingOn::goes_both))]
fn one_passes<T, F: Test<T>>(run: &mut Run, t: &F, op: Join, x: &T, told: Id) -> Result<Id, Memory>
    ensures goes { GoesOnBy (F.room t.now + 6) run.old run.new }
    ensures says { IfOk result (Says run.old run.new (λ v. joins op (F.holds t.now x.now v) (is_true (v.term told)))) }
{
    let one = t.test(run, x)?;
    joined(run, op, one, told)
}

/// What is tested of each element, joined, and joined with what is told already.
pub fn each_passes<T, F: Test<T>>(
    run: &mut Run,
    t: &F,
    op: Join,
    items: &[T],
    told: Id,
) -> Result<Id, Memory>
    ensures goes { GoesOnBy ((F.room t.now + 6) * length items.now) run.old run.new }
    ensures tells { IfOk result (Tells run.old run.new (λ v. joined_each op (λ x. F.holds t.now x v) items.now (is_true (v.term told)))) }
{
    let mut acc = told;
    let mut k = items.len();
    while k > 0 {
        k -= 1;
        acc = one_passes(run, t, op, &items[k], acc)?;
    }
    Ok(acc)
}

/// That each element passes.
pub fn all_pass<T, F: Test<T>>(run: &mut Run, t: &F, items: &[T]) -> Result<Id, Memory>
    ensures goes { GoesOnBy ((F.room t.now + 6) * length items.now) run.old run.new }
    ensures tells { IfOk result (Tells run.old run.new (λ v. list_all (λ x. F.holds t.now x v) items.now)) }
{
    let start = truth(run, true)?;
    each_passes(run, t, Join::Both, items, start)
}

/// That some element passes.
pub fn some_pass<T, F: Test<T>>(run: &mut Run, t: &F, items: &[T]) -> Result<Id, Memory>
    ensures goes { GoesOnBy ((F.room t.now + 6) * length items.now) run.old run.new }
    ensures tells { IfOk result (Tells run.old run.new (λ v. list_any (λ x. F.holds t.now x v) items.now)) }
{
    let start = truth(run, false)?;
    each_passes(run, t, Join::Either, items, start)
}
