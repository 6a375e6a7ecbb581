// Connectives, orders and arithmetic.

ghost use Rattle.std.specs.Prelude.{◌≡◌, ◌+◌, ◌-◌, ◌^◌, ◌<◌, ◌≤◌};
ghost use Rattle.mz_operations.specs.Numbers as numbers;
ghost use Rattle.mz_operations.specs.declared.row.Arith.TheVariants.{Div, Mod};

use mz_builtin_arguments::is_number;
use mz_operations::{Arith, Comparison, Connective, Fold, Quantifier, Side, Sign};

/// Whether both are true or both false.
pub(crate) fn same(a: bool, b: bool) -> bool
    ensures { result ≡ numbers.same a b }
{
    if a { b } else { !b }
}

#[tactic(auto, unfolding(mz_operations::specs::Numbers::connected))]
pub(crate) fn connected(op: Connective, a: bool, b: bool) -> bool
    ensures { result ≡ numbers.connected op a b }
{
    match op {
        Connective::Iff => same(a, b),
        Connective::Implies => !a || b,
        Connective::IsImplied => a || !b,
        Connective::Or => a || b,
        Connective::Xor => !same(a, b),
        Connective::And => a && b,
    }
}

#[tactic(auto, unfolding(mz_operations::specs::Numbers::ordered))]
pub(crate) fn ordered(op: Comparison, x: i64, y: i64) -> bool
    ensures { result ≡ numbers.ordered op x y }
{
    match op {
        Comparison::Less => x < y,
        Comparison::AtMost => x <= y,
        Comparison::Greater => y < x,
        Comparison::AtLeast => y <= x,
    }
}

#[tactic(auto, unfolding(mz_operations::specs::Numbers::computed))]
fn quotient(x: i64, y: i64) -> Option<i128>
    ensures { result ≡ numbers.computed Div x y }
{
    if y == 0 {
        None
    } else {
        Some(x as i128 / y as i128)
    }
}

#[tactic(auto, unfolding(mz_operations::specs::Numbers::computed))]
fn remainder(x: i64, y: i64) -> Option<i128>
    ensures { result ≡ numbers.computed Mod x y }
{
    if y == 0 {
        None
    } else {
        Some(x as i128 % y as i128)
    }
}

/// An operation on two integers; `None` where the divisor is 0.
#[tactic(auto, unfolding(mz_operations::specs::Numbers::computed))]
pub(crate) fn computed(op: Arith, x: i64, y: i64) -> Option<i128>
    ensures { result ≡ numbers.computed op x y }
{
    match op {
        Arith::Add => Some(x as i128 + y as i128),
        Arith::Sub => Some(x as i128 - y as i128),
        Arith::Mul => Some(x as i128 * y as i128),
        Arith::Div => quotient(x, y),
        Arith::Mod => remainder(x, y),
        Arith::Min => Some(x.min(y) as i128),
        Arith::Max => Some(x.max(y) as i128),
    }
}

#[tactic(auto, unfolding(mz_operations::specs::Numbers::signed))]
pub(crate) fn signed(op: Sign, x: i64) -> i128
    ensures { result ≡ numbers.signed op x }
{
    match op {
        Sign::Plus => x as i128,
        Sign::Minus => -(x as i128),
        Sign::Abs => x.unsigned_abs() as i128,
    }
}

pub(crate) fn fold_start(op: Fold) -> i128
    ensures { result ≡ numbers.fold_start op }
{
    match op {
        Fold::Sum => 0,
        Fold::SumOfOptions => 0,
        Fold::Product => 1,
    }
}

/// One step of a sum or product; a result that has left the limit stays.
#[tactic(auto, unfolding(mz_operations::specs::Numbers::folded))]
pub(crate) fn folded(op: Fold, acc: i128, n: i64) -> i128
    ensures { result ≡ numbers.folded op acc n }
{
    if is_number(acc) {
        match op {
            Fold::Sum => acc + n as i128,
            Fold::SumOfOptions => acc + n as i128,
            Fold::Product => acc * n as i128,
        }
    } else {
        acc
    }
}

#[tactic(auto, unfolding(mz_operations::specs::Numbers::toward))]
fn toward(side: Side, m: i64, n: i64) -> i64
    ensures { result ≡ numbers.toward side m n }
{
    match side {
        Side::Least => m.min(n),
        Side::Greatest => m.max(n),
    }
}

/// The first integer, and then the one that lies further to a side.
#[tactic(auto, unfolding(mz_operations::specs::Numbers::nearer))]
pub(crate) fn nearer(side: Side, acc: Option<i64>, n: i64) -> Option<i64>
    ensures { result ≡ numbers.nearer side acc n }
{
    match acc {
        None => Some(n),
        Some(m) => Some(toward(side, m, n)),
    }
}

/// The number one less or one greater.
pub(crate) fn beside(side: Side, n: i64) -> i128
    ensures { result ≡ numbers.beside side n }
{
    match side {
        Side::Least => n as i128 - 1,
        Side::Greatest => n as i128 + 1,
    }
}

#[tactic(auto, unfolding(mz_operations::specs::Numbers::quantified))]
pub(crate) fn quantified(op: Quantifier, acc: bool, b: bool) -> bool
    ensures { result ≡ numbers.quantified op acc b }
{
    match op {
        Quantifier::Forall => acc && b,
        Quantifier::Exists => acc || b,
        Quantifier::Xorall => !same(acc, b),
    }
}

pub(crate) fn quantifier_start(op: Quantifier) -> bool
    ensures { result ≡ numbers.quantifier_start op }
{
    match op {
        Quantifier::Forall => true,
        Quantifier::Exists => false,
        Quantifier::Xorall => false,
    }
}

/// One more where `b` is true.
pub(crate) fn counted(n: u64, b: bool) -> u64
    requires { n < 2 ^ 64 - 1 }
    ensures value { result ≡ numbers.counted n b }
    ensures bound { result ≤ n + 1 }
{
    if b { n + 1 } else { n }
}
