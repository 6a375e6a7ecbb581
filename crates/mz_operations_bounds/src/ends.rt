// Sums, signs, and the lesser and the greater of two; products, quotients and remainders are `mz_interval`'s.

ghost use Rattle.std.specs.Prelude.{◌≡◌};
ghost use Rattle.mz_interval.specs.Rows.{negation_of, sum_of};
ghost use Rattle.mz_operations.specs.Bounds as bounds;
ghost use Rattle.mz_operations.specs.declared.row.Arith.TheVariants.{Sub};
ghost use Rattle.mz_operations.specs.declared.row.Sign.TheVariants.{Abs};

use mz_interval::{product_ends, quotient_ends, remainder_ends};
use mz_operations::{Arith, Side, Sign};

/// The same ends, as wide numbers.
pub(crate) fn wide(e: &(i64, i64)) -> (i128, i128)
    ensures { result ≡ e.now }
{
    (e.0 as i128, e.1 as i128)
}

/// The sums of the lower ends and of the upper ends.
pub(crate) fn sum(e: &(i64, i64), f: &(i64, i64)) -> (i128, i128)
    ensures { result ≡ sum_of e.now f.now }
{
    (e.0 as i128 + f.0 as i128, e.1 as i128 + f.1 as i128)
}

/// The ends of a difference.
#[tactic(auto, unfolding(mz_operations::specs::Bounds::arith_ends))]
fn difference(e: &(i64, i64), f: &(i64, i64)) -> (i128, i128)
    ensures { result ≡ bounds.arith_ends Sub e.now f.now }
{
    (e.0 as i128 - f.1 as i128, e.1 as i128 - f.0 as i128)
}

/// The ends with the other sign, exchanged.
fn negation(e: &(i64, i64)) -> (i128, i128)
    ensures { result ≡ negation_of e.now }
{
    (-(e.1 as i128), -(e.0 as i128))
}

/// The least or the greatest of the lower ends and of the upper ends.
#[tactic(auto, unfolding(mz_operations::specs::Bounds::toward_ends, mz_operations::specs::Numbers::toward))]
pub(crate) fn toward_ends(side: Side, e: &(i64, i64), f: &(i64, i64)) -> (i64, i64)
    ensures { result ≡ bounds.toward_ends side e.now f.now }
{
    match side {
        Side::Least => (e.0.min(f.0), e.1.min(f.1)),
        Side::Greatest => (e.0.max(f.0), e.1.max(f.1)),
    }
}

fn extreme_of_two(side: Side, e: &(i64, i64), f: &(i64, i64)) -> (i128, i128)
    ensures { result ≡ bounds.toward_ends side e.now f.now }
{
    let nearer = toward_ends(side, e, f);
    wide(&nearer)
}

/// The bounds of an operation on two integers with these bounds. They may leave the limit.
#[tactic(auto, unfolding(mz_operations::specs::Bounds::arith_ends))]
pub fn arith_ends(op: Arith, e: &(i64, i64), f: &(i64, i64)) -> (i128, i128)
    ensures { result ≡ bounds.arith_ends op e.now f.now }
{
    match op {
        Arith::Add => sum(e, f),
        Arith::Sub => difference(e, f),
        Arith::Mul => product_ends(e, f),
        Arith::Div => quotient_ends(e, f),
        Arith::Mod => remainder_ends(e, f),
        Arith::Min => extreme_of_two(Side::Least, e, f),
        Arith::Max => extreme_of_two(Side::Greatest, e, f),
    }
}

#[tactic(auto, unfolding(mz_operations::specs::Bounds::sign_ends))]
fn magnitude(e: &(i64, i64)) -> (i128, i128)
    ensures { result ≡ bounds.sign_ends Abs e.now }
{
    let low = e.0 as i128;
    let high = e.1 as i128;
    (low.max(-high).max(0), (-low).max(high))
}

/// The bounds of an operation on one integer with these bounds. They may leave the limit.
#[tactic(auto, unfolding(mz_operations::specs::Bounds::sign_ends))]
pub fn sign_ends(op: Sign, e: &(i64, i64)) -> (i128, i128)
    ensures { result ≡ bounds.sign_ends op e.now }
{
    match op {
        Sign::Plus => wide(e),
        Sign::Minus => negation(e),
        Sign::Abs => magnitude(e),
    }
}
