// Terms over lists and pairs, of any relation.

ghost use Rattle.std.specs.Prelude.{◌≡◌, ◌+◌, ◌*◌, IfOk, length};
ghost use Rattle.mz_arena.specs.Values.{is_true};
ghost use Rattle.mz_globals.specs.Lists.{pairwise, stepwise};
ghost use Rattle.mz_symbol.specs.Makes.{GoesOnBy};
ghost use Rattle.glob_nodes.specs.Says.{Says, Tells, joins, joined_each, pair_count};

use crate::nodes::{Join, joined, truth};
use crate::relation::Relation;
use mz_arena::Id;
use mz_base::Memory;
use mz_symbol::Run;

/// How an item stands to another, joined with what is told already.
#[tactic(auto, using(mz_symbol_rows::proofs::GoingOn::goes_both))]
fn beside<T, R: Relation<T>>(
    run: &mut Run,
    r: &R,
    op: Join,
    x: &T,
    y: &T,
    told: Id,
) -> Result<Id, Memory>
    ensures goes { GoesOnBy (R.room + 6) run.old run.new }
    ensures says { IfOk result (Says run.old run.new (λ v. joins op (R.related r.now x.now y.now v) (is_true (v.term told)))) }
{
    let one = r.relate(run, x, y)?;
    joined(run, op, one, told)
}

/// How an item stands to each of others, joined, and joined with what is told already.
pub fn to_each<T, R: Relation<T>>(
    run: &mut Run,
    r: &R,
    op: Join,
    x: &T,
    others: &[T],
    told: Id,
) -> Result<Id, Memory>
    ensures goes { GoesOnBy ((R.room + 6) * length others.now) run.old run.new }
    ensures tells { IfOk result (Tells run.old run.new (λ v. joined_each op (λ y. R.related r.now x.now y v) others.now (is_true (v.term told)))) }
{
    let mut acc = told;
    let mut k = others.len();
    while k > 0 {
        k -= 1;
        acc = beside(run, r, op, x, &others[k], acc)?;
    }
    Ok(acc)
}

/// That each two items, the earlier one first, stand so.
pub fn each_two<T, R: Relation<T>>(run: &mut Run, r: &R, xs: &[T]) -> Result<Id, Memory>
    ensures goes { GoesOnBy ((R.room + 6) * pair_count xs.now) run.old run.new }
    ensures tells { IfOk result (Tells run.old run.new (λ v. pairwise (λ x y. R.related r.now x y v) xs.now)) }
{
    let mut acc = truth(run, true)?;
    let mut k = xs.len();
    while k > 0 {
        let later = &xs[k..];
        k -= 1;
        acc = to_each(run, r, Join::Both, &xs[k], later, acc)?;
    }
    Ok(acc)
}

/// That each item stands so to the next.
pub fn each_next<T, R: Relation<T>>(run: &mut Run, r: &R, xs: &[T]) -> Result<Id, Memory>
    ensures goes { GoesOnBy ((R.room + 6) * length xs.now) run.old run.new }
    ensures tells { IfOk result (Tells run.old run.new (λ v. stepwise (λ x y. R.related r.now x y v) xs.now)) }
{
    let mut acc = truth(run, true)?;
    let mut k = xs.len();
    while k > 1 {
        k -= 1;
        acc = beside(run, r, Join::Both, &xs[k - 1], &xs[k], acc)?;
    }
    Ok(acc)
}
