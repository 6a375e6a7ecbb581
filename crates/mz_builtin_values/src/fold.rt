// Folds over the elements of an array, from left to right.

ghost use Rattle.std.specs.Prelude.{◌≡◌, map, None, false};
ghost use Rattle.mz_value.specs.Contents.{content};
ghost use Rattle.mz_operations.specs.Views.{as_bool, as_int};
ghost use Rattle.mz_operations.specs.Numbers as numbers;
ghost use Rattle.mz_operations.specs.Arrays as arrays;

use crate::number::{counted, fold_start, folded, nearer, quantified, quantifier_start};
use mz_builtin_arguments::{as_bool, as_int, is_absent};
use mz_operations::{Fold, Quantifier, Side};
use mz_value::Value;

#[tactic(auto, unfolding(mz_operations::specs::Arrays::summand))]
fn int_or_zero(x: &Value) -> Option<i64>
    ensures { result ≡ arrays.summand Fold.SumOfOptions (content x.now) }
{
    if is_absent(x) { Some(0) } else { as_int(x) }
}

/// An element of a sum or product.
#[tactic(auto, unfolding(mz_operations::specs::Arrays::summand))]
fn summand(op: Fold, x: &Value) -> Option<i64>
    ensures { result ≡ arrays.summand op (content x.now) }
{
    match op {
        Fold::Sum => as_int(x),
        Fold::SumOfOptions => int_or_zero(x),
        Fold::Product => as_int(x),
    }
}

/// A truth value, or what an absent one counts as.
fn truth_or(absent: bool, x: &Value) -> Option<bool>
    ensures { result ≡ arrays.truth_or absent (content x.now) }
{
    if is_absent(x) {
        Some(absent)
    } else {
        as_bool(x)
    }
}

/// An element of a quantifier.
#[tactic(auto, unfolding(mz_operations::specs::Arrays::instance))]
fn instance(op: Quantifier, x: &Value) -> Option<bool>
    ensures { result ≡ arrays.instance op (content x.now) }
{
    match op {
        Quantifier::Forall => truth_or(true, x),
        Quantifier::Exists => truth_or(false, x),
        Quantifier::Xorall => as_bool(x),
    }
}

/// The sum or product, or the first partial result that leaves the limit; `None` where an element
/// is no integer.
#[tactic(auto, using(crate::proofs::Turns::turn, crate::proofs::Turns::last))]
pub(crate) fn fold_numbers(op: Fold, items: &[Value]) -> Option<i128>
    ensures { result ≡ arrays.fold_from (arrays.summand op) (numbers.folded op) (numbers.fold_start op) (map content items.now) }
{
    let mut acc = fold_start(op);
    for x in items {
        let n = summand(op, x)?;
        acc = folded(op, acc, n);
    }
    Some(acc)
}

/// The least or the greatest integer, none of no element; `None` where an element is no integer.
#[tactic(auto, using(crate::proofs::Turns::turn, crate::proofs::Turns::last))]
pub fn extreme(side: Side, items: &[Value]) -> Option<Option<i64>>
    ensures { result ≡ arrays.fold_from as_int (numbers.nearer side) None (map content items.now) }
{
    let mut acc = None;
    for x in items {
        let n = as_int(x)?;
        acc = nearer(side, acc, n);
    }
    Some(acc)
}

/// Whether all, some, or an odd number of the elements are true; an absent element counts as true
/// in `forall` and as false in `exists`.
#[tactic(auto, using(crate::proofs::Turns::turn, crate::proofs::Turns::last))]
pub(crate) fn fold_options(op: Quantifier, items: &[Value]) -> Option<bool>
    ensures { result ≡ arrays.fold_from (arrays.instance op) (numbers.quantified op) (numbers.quantifier_start op) (map content items.now) }
{
    let mut acc = quantifier_start(op);
    for x in items {
        let b = instance(op, x)?;
        acc = quantified(op, acc, b);
    }
    Some(acc)
}

/// The same of elements that are no options, from `start` on.
#[tactic(auto, using(crate::proofs::Turns::turn, crate::proofs::Turns::last))]
pub(crate) fn fold_truths(op: Quantifier, start: bool, items: &[Value]) -> Option<bool>
    ensures { result ≡ arrays.fold_from as_bool (numbers.quantified op) start (map content items.now) }
{
    let mut acc = start;
    for x in items {
        let b = as_bool(x)?;
        acc = quantified(op, acc, b);
    }
    Some(acc)
}

/// How many elements are present and true.
pub(crate) fn fold_count(items: &[Value]) -> Option<u64>
    ensures { result ≡ arrays.fold_from (arrays.truth_or false) numbers.counted 0 (map content items.now) }
{
    let mut acc = 0;
    for x in items {
        let b = truth_or(false, x)?;
        acc = counted(acc, b);
    }
    Some(acc)
}
