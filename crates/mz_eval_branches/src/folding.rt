// The first branch whose condition is true, and else the last, from the last one on.

ghost use Rattle.std.specs.Prelude.{◌≡◌, ◌*◌, ◌+◌, ◌<◌, ◌∷◌, [], MatchOption, length, true};
ghost use Rattle.mz_meaning.specs.Runs.{give};
ghost use Rattle.mz_symbol.specs.Makes.{GoesOnBy, Means};
ghost use Rattle.mz_eval_symbols.specs.Taken.{count_in};
ghost use Rattle.mz_eval_arrays.specs.StepsBranches.{branch_value, branches_value};
ghost use Rattle.mz_eval_branches.specs.BranchLines.{branch_charge, fold_charge, option_seen};

use crate::lines::{count_in, one_option, ranged_line};
use mz_base::Stop;
use mz_core::Base;
use mz_eval_arrays::condition;
use mz_eval_cells::Known;
use mz_symbol::Run;
use std::alloc::Global;

pub(crate) fn is_none(branches: &[(Known, Known)]) -> bool
    ensures { result ≡ true → branches.now ≡ [] }
{
    branches.is_empty()
}

/// The first branch, and the others.
pub(crate) fn split(branches: &[(Known, Known)]) -> Option<(&(Known, Known), &[(Known, Known)])>
    ensures are { MatchOption result (Unit {0}) (λ x. branches.now ≡ x.0.now ∷ x.1.now) }
    ensures less { MatchOption result (Unit {0}) (λ x. length x.1.now < length branches.now) }
{
    match branches {
        [] => None,
        [p, more @ ..] => Some((p, more)),
    }
}

/// One branch more before the others, under the index ranges of a cell.
fn with_first(
    alloc: Global,
    run: &mut Run,
    base: Base,
    like: &Known,
    p: &(Known, Known),
    rest: Option<u64>,
) -> Result<Option<u64>, Stop>
    ensures goes { GoesOnBy (branch_charge (count_in like.now)) run.old run.new }
    ensures means { Means (option_seen like.now) result run.old run.new (λ r. give (branch_value r p.now (option_seen like.now r rest))) }
{
    let Ok(id) = condition(alloc, run, &p.0) else {
        return Err(Stop::Memory);
    };
    let count = count_in(like);
    let first = ranged_line(alloc, run, base, count, like, &p.1)?;
    let both = one_option(alloc, run, like, id, first, rest)?;
    Ok(both)
}

/// The line of the first branch whose condition is true, and else of the last, under the index ranges
/// of a cell; none where all of them are undefined.
pub(crate) fn chosen_line(
    alloc: Global,
    run: &mut Run,
    base: Base,
    like: &Known,
    branches: &[(Known, Known)],
    last: &Known,
) -> Result<Option<u64>, Stop>
    ensures goes { GoesOnBy (fold_charge (count_in like.now) (length branches.now)) run.old run.new }
    ensures means { Means (option_seen like.now) result run.old run.new (λ r. give (branches_value r branches.now last.now)) }
{
    let count = count_in(like);
    if is_none(branches) {
        return ranged_line(alloc, run, base, count, like, last);
    }
    let Some(x) = split(branches) else {
        return Err(Stop::Memory);
    };
    let rest = chosen_line(alloc, run, base, like, x.1, last)?;
    let all = with_first(alloc, run, base, like, x.0, rest)?;
    Ok(all)
}
