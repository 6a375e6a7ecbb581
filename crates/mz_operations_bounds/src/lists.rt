// The bounds of sums, products, minima and maxima of arrays, and hulls.

ghost use Rattle.std.specs.Prelude.{◌≡◌};
ghost use Rattle.mz_interval.specs.Ends as ends;
ghost use Rattle.mz_operations.specs.Bounds as bounds;
ghost use Rattle.mz_operations.specs.RowBounds as rows;
ghost use Rattle.mz_operations_bounds.specs.StepsLists.{taken_in};

use crate::ends::{sum, toward_ends};
use mz_builtin_arguments::is_number;
use mz_interval::product_ends;
use mz_operations::{Fold, Side};

/// The ends, where both lie in the limit.
pub fn in_limit(e: &(i128, i128)) -> Option<(i64, i64)>
    ensures { result ≡ ends.if_in_limit e.now }
{
    if is_number(e.0) && is_number(e.1) {
        Some((e.0 as i64, e.1 as i64))
    } else {
        None
    }
}

/// The bounds of a number that may be absent, which counts as 0.
fn hull_with_zero(e: &(i64, i64)) -> (i64, i64)
    ensures { result ≡ ends.hull_of bounds.nothing e.now }
{
    (e.0.min(0), e.1.max(0))
}

fn sum_with_option(acc: &(i64, i64), e: &(i64, i64)) -> (i128, i128)
    ensures { result ≡ taken_in Fold.SumOfOptions acc.now e.now }
{
    let f = hull_with_zero(e);
    sum(acc, &f)
}

/// One step of a sum or product, without the limit.
fn taken_in(op: Fold, acc: &(i64, i64), e: &(i64, i64)) -> (i128, i128)
    ensures { result ≡ taken_in op acc.now e.now }
{
    match op {
        Fold::Sum => sum(acc, e),
        Fold::SumOfOptions => sum_with_option(acc, e),
        Fold::Product => product_ends(acc, e),
    }
}

/// One step of a sum or product; bounds that have left the limit stay.
#[tactic(auto, using(crate::proofs::Folding::step_inside, crate::proofs::Folding::step_outside))]
pub(crate) fn fold_ends(op: Fold, acc: &(i128, i128), e: &(i64, i64)) -> (i128, i128)
    ensures { result ≡ bounds.fold_ends op acc.now e.now }
{
    match in_limit(acc) {
        Some(inside) => taken_in(op, &inside, e),
        None => *acc,
    }
}

/// The bounds of a sum or product of no integer.
fn fold_start(op: Fold) -> (i128, i128)
    ensures { result ≡ bounds.fold_start_ends op }
{
    match op {
        Fold::Sum => (0, 0),
        Fold::SumOfOptions => (0, 0),
        Fold::Product => (1, 1),
    }
}

/// The bounds of the sum or product of integers with these bounds; the first partial ones that
/// leave the limit stay.
#[tactic(auto, using(crate::proofs::Folding::none_folded, crate::proofs::Folding::one_folded))]
pub fn folded_ends(op: Fold, all: &[(i64, i64)]) -> (i128, i128)
    ensures { result ≡ bounds.folded_ends op (bounds.fold_start_ends op) all.now }
{
    let mut acc = fold_start(op);
    for e in all {
        acc = fold_ends(op, &acc, e);
    }
    acc
}

/// From the least to the greatest end on a side, `first` with the others.
fn extreme_from(side: Side, first: &(i64, i64), others: &[(i64, i64)]) -> (i64, i64)
    ensures { result ≡ bounds.extreme_from side first.now others.now }
{
    let mut acc = *first;
    for e in others {
        acc = toward_ends(side, &acc, e);
    }
    acc
}

/// The bounds of the least or the greatest of integers with these bounds; 0..0 of none.
pub fn extreme_ends(side: Side, all: &[(i64, i64)]) -> (i64, i64)
    ensures { result ≡ bounds.extreme_ends side all.now }
{
    match all {
        [] => (0, 0),
        [first, others @ ..] => extreme_from(side, first, others),
    }
}

fn hull_of(e: &(i64, i64), f: &(i64, i64)) -> (i64, i64)
    ensures { result ≡ ends.hull_of e.now f.now }
{
    (e.0.min(f.0), e.1.max(f.1))
}

fn hull_from(first: &(i64, i64), others: &[(i64, i64)]) -> (i64, i64)
    ensures { result ≡ bounds.hull_from first.now others.now }
{
    let mut acc = *first;
    for e in others {
        acc = hull_of(&acc, e);
    }
    acc
}

/// The smallest range that holds all of these; `None` of none.
pub fn hull_if_any(all: &[(i64, i64)]) -> Option<(i64, i64)>
    ensures { result ≡ rows.hull_if_any all.now }
{
    match all {
        [] => None,
        [first, others @ ..] => Some(hull_from(first, others)),
    }
}
