// The bounds of powers.

ghost use Rattle.std.specs.Prelude.{◌≡◌};
ghost use Rattle.mz_operations.specs.Bounds as bounds;
ghost use Rattle.mz_operations_bounds.specs.StepsPowers as steps;

use crate::lists::{fold_ends, in_limit};
use mz_operations::Fold;

fn is_unit(x: i64) -> bool
    ensures { result ≡ steps.is_unit x }
{
    -1 <= x && x <= 1
}

fn are_units(e: &(i64, i64)) -> bool
    ensures { result ≡ steps.are_units e.now }
{
    is_unit(e.0) && is_unit(e.1)
}

/// An exponent of 2 at most with the same power of ends that are -1, 0 or 1.
fn reduced(n: u64) -> u64
    ensures { result ≡ steps.reduced n }
{
    if n < 3 { n } else { (n - 1) % 2 + 1 }
}

/// The bounds of a power of an integer with these bounds; the first of these that leave the limit
/// stay. It goes on for some 62 factors at most.
#[tactic(auto, using(crate::proofs::Raising::same_power))]
pub fn raised_ends(e: &(i64, i64), n: u64) -> (i128, i128)
    ensures { result ≡ bounds.raised_ends e.now n }
{
    if are_units(e) {
        multiplied(e, reduced(n))
    } else {
        multiplied(e, n)
    }
}

fn multiplied(e: &(i64, i64), n: u64) -> (i128, i128)
    ensures { result ≡ bounds.raised_ends e.now n }
{
    let mut acc = (1, 1);
    for _factor in 0..n {
        let Some(_) = in_limit(&acc) else {
            return acc;
        };
        acc = fold_ends(Fold::Product, &acc, e);
    }
    acc
}
