// Sums over lists.

ghost use Rattle.std.specs.Prelude.{◌≡◌, ◌+◌, ◌*◌, IfOk, Some, count_by, length, pos};
ghost use Rattle.mz_arena.specs.Values.{arith_term};
ghost use Rattle.mz_arena.specs.Values as terms;
ghost use Rattle.mz_operations.specs.declared.row.Arith.TheVariants as arith;
ghost use Rattle.mz_operations.specs.Views.{number_of_bool};
ghost use Rattle.mz_symbol.specs.Makes.{GoesOnBy};
ghost use Rattle.glob_nodes.specs.Says.{Gives};

use crate::nodes::{add, number, to_number};
use crate::relation::Relation;
use mz_arena::Id;
use mz_base::Memory;
use mz_symbol::Run;

/// 1 where an item stands so to another, else 0, with what is counted already.
#[tactic(auto, using(mz_symbol_rows::proofs::GoingOn::goes_both, mz_symbol_rows::proofs::GoingOn::goes_most))]
fn one_more<T, R: Relation<T>>(run: &mut Run, r: &R, x: &T, y: &T, count: Id) -> Result<Id, Memory>
    ensures goes { GoesOnBy (R.room + 8) run.old run.new }
    ensures gives { IfOk result (Gives run.old run.new (λ v. arith_term arith.Add (Some (terms.number (number_of_bool (R.related r.now x.now y.now v)))) (v.term count))) }
{
    let one = r.relate(run, x, y)?;
    let bit = to_number(run, one)?;
    let all = add(run, bit, count)?;
    Ok(all)
}

/// To how many of others an item stands so, as a sum.
pub fn counted<T, R: Relation<T>>(run: &mut Run, r: &R, x: &T, others: &[T]) -> Result<Id, Memory>
    ensures goes { GoesOnBy ((R.room + 8) * length others.now) run.old run.new }
    ensures gives { IfOk result (Gives run.old run.new (λ v. Some (terms.number (pos (count_by (λ y. R.related r.now x.now y v) others.now))))) }
{
    let mut acc = number(run, 0)?;
    let mut k = others.len();
    while k > 0 {
        k -= 1;
        acc = one_more(run, r, x, &others[k], acc)?;
    }
    Ok(acc)
}
