// Lists that are read place by place. The shorter one tells how far.

ghost use Rattle.std.specs.Prelude.{◌≡◌, IfOk, zip};
ghost use Rattle.mz_operations.specs.Arguments.{arguments};
ghost use Rattle.glob_order.specs.Views.{listed};
ghost use Rattle.glob_order.specs.Views as words;

use crate::of_values::reading::numbers_at;
use mz_value::Value;
use std::alloc::{AllocError, Global};

/// What stands at the same place of two lists.
#[tactic(auto, using(crate::proofs::Zips::pairs_again))]
fn zipped(alloc: Global, xs: &[i64], ys: &[i64]) -> Result<Vec<(i64, i64)>, AllocError>
    ensures { IfOk result (λ ps. ps.items ≡ zip xs.now ys.now) }
{
    let pairs = xs.iter().zip(ys).map(|(x, y)| (*x, *y)).collect(alloc)?;
    Ok(pairs)
}

/// The pairs that stand at one place of the arrays at two places, from 0; `None` where one of these
/// is undefined.
pub fn pairs_at(
    alloc: Global,
    args: &[Option<Value>],
    j: usize,
    k: usize,
) -> Result<Option<Vec<(i64, i64)>>, AllocError>
    ensures { IfOk result (λ o. listed o ≡ words.pairs_at (arguments args.now) j k) }
{
    let Some(xs) = numbers_at(alloc, args, j)? else {
        return Ok(None);
    };
    let Some(ys) = numbers_at(alloc, args, k)? else {
        return Ok(None);
    };
    let pairs = zipped(alloc, &xs, &ys)?;
    Ok(Some(pairs))
}

#[tactic(auto, using(crate::proofs::Zips::pairs_again))]
fn with_uses(
    alloc: Global,
    tasks: &[(i64, i64)],
    uses: &[i64],
) -> Result<Vec<((i64, i64), i64)>, AllocError>
    ensures { IfOk result (λ us. us.items ≡ zip tasks.now uses.now) }
{
    let all = tasks
        .iter()
        .zip(uses)
        .map(|(k, u)| (*k, *u))
        .collect(alloc)?;
    Ok(all)
}

/// The tasks whose starts, durations and uses are the first three arguments.
pub fn tasks_at(
    alloc: Global,
    args: &[Option<Value>],
) -> Result<Option<Vec<((i64, i64), i64)>>, AllocError>
    ensures { IfOk result (λ o. listed o ≡ words.tasks_at (arguments args.now)) }
{
    let Some(tasks) = pairs_at(alloc, args, 0, 1)? else {
        return Ok(None);
    };
    let Some(uses) = numbers_at(alloc, args, 2)? else {
        return Ok(None);
    };
    let all = with_uses(alloc, &tasks, &uses)?;
    Ok(Some(all))
}

#[tactic(auto, using(crate::proofs::Zips::pairs_again))]
fn boxed(
    alloc: Global,
    xs: &[(i64, i64)],
    ys: &[(i64, i64)],
) -> Result<Vec<((i64, i64), (i64, i64))>, AllocError>
    ensures { IfOk result (λ boxes. boxes.items ≡ zip xs.now ys.now) }
{
    let boxes = xs.iter().zip(ys).map(|(x, y)| (*x, *y)).collect(alloc)?;
    Ok(boxes)
}

/// The boxes whose places in x and in y, widths and heights are the first four arguments.
pub fn boxes_at(
    alloc: Global,
    args: &[Option<Value>],
) -> Result<Option<Vec<((i64, i64), (i64, i64))>>, AllocError>
    ensures { IfOk result (λ o. listed o ≡ words.boxes_at (arguments args.now)) }
{
    let Some(xs) = pairs_at(alloc, args, 0, 2)? else {
        return Ok(None);
    };
    let Some(ys) = pairs_at(alloc, args, 1, 3)? else {
        return Ok(None);
    };
    let boxes = boxed(alloc, &xs, &ys)?;
    Ok(Some(boxes))
}
