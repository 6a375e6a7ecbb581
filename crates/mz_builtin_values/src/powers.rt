// Powers.

ghost use Rattle.std.specs.Prelude.{◌≡◌, pos, negsuc};
ghost use Rattle.mz_operations.specs.Numbers.{raised};
ghost use Rattle.mz_operations.specs.Values as values;

use crate::number::folded;
use mz_builtin_arguments::is_number;
use mz_operations::Fold;

/// `x` to the power `k`, or the first product that leaves the limit; `None` where `k` is negative.
pub(crate) fn power(x: i64, k: i64) -> Option<i128>
    ensures { result ≡ values.power x k }
{
    if k < 0 {
        None
    } else {
        Some(raised(x, k as u64))
    }
}

/// The product of this many factors `x`, or the first product that leaves the limit. It goes on for
/// 62 factors at most, but for the bases 0, 1 and -1, which it doesn't go on with.
fn raised(x: i64, n: u64) -> i128
    ensures { result ≡ raised x n }
{
    match x {
        0 => power_of_zero(n),
        1 => power_of_one(n),
        -1 => power_of_minus_one(n),
        _ => multiplied(x, n),
    }
}

#[tactic(auto, using(crate::proofs::Raised::none_of_zero, crate::proofs::Raised::some_of_zero))]
fn power_of_zero(n: u64) -> i128
    ensures { result ≡ raised (pos 0) n }
{
    if n == 0 { 1 } else { 0 }
}

#[tactic(auto, using(crate::proofs::Raised::raised_one))]
fn power_of_one(n: u64) -> i128
    ensures { result ≡ raised (pos 1) n }
{
    let _factors = n;
    1
}

#[tactic(auto, using(crate::proofs::Raised::even_of_minus_one, crate::proofs::Raised::odd_of_minus_one))]
fn power_of_minus_one(n: u64) -> i128
    ensures { result ≡ raised (negsuc 0) n }
{
    if n % 2 == 0 { 1 } else { -1 }
}

fn multiplied(x: i64, n: u64) -> i128
    ensures { result ≡ raised x n }
{
    let mut acc = 1;
    for _factor in 0..n {
        if !is_number(acc) {
            return acc;
        }
        acc = folded(Fold::Product, acc, x);
    }
    acc
}
