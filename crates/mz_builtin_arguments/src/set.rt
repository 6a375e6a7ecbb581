// Sets that are made of sets, by what `Sets` says of them.

ghost use Rattle.std.specs.Prelude.{◌≡◌, IfOk};
ghost use Rattle.mz_interval.specs.Ends as ends;
ghost use Rattle.mz_operations.specs.Sets as sets;
ghost use Rattle.mz_operations.specs.declared.row.SetOp.TheVariants.{Symdiff};

use mz_operations::{SetOp, Side};
use mz_value::{GREATEST, LEAST, RangeSet};
use std::alloc::{AllocError, Global};

/// Whether a number lies in -2^61..2^61.
pub fn is_number(n: i128) -> bool
    ensures { result ≡ ends.is_number n }
{
    LEAST as i128 <= n && n <= GREATEST as i128
}

/// What `a` or `b` has.
pub fn union(alloc: Global, a: &RangeSet, b: &RangeSet) -> Result<RangeSet, AllocError>
    ensures { IfOk result (λ s. s ≡ sets.union a.now b.now) }
{
    let _a = a.ranges();
    let _b = b.ranges();
    a.union(alloc, b)
}

/// What both `a` and `b` have.
pub fn intersection(alloc: Global, a: &RangeSet, b: &RangeSet) -> Result<RangeSet, AllocError>
    ensures { IfOk result (λ s. s ≡ sets.intersection a.now b.now) }
{
    let _a = a.ranges();
    let _b = b.ranges();
    a.intersect(alloc, b)
}

/// What `a` has and `b` hasn't.
pub fn difference(alloc: Global, a: &RangeSet, b: &RangeSet) -> Result<RangeSet, AllocError>
    ensures { IfOk result (λ s. s ≡ sets.difference a.now b.now) }
{
    let _a = a.ranges();
    let _b = b.ranges();
    a.diff(alloc, b)
}

/// What one alone of `a` and `b` has.
#[tactic(auto, unfolding(mz_operations::specs::Sets::combined))]
fn symmetric(alloc: Global, a: &RangeSet, b: &RangeSet) -> Result<RangeSet, AllocError>
    ensures { IfOk result (λ s. s ≡ sets.combined Symdiff a.now b.now) }
{
    let left = difference(alloc, a, b)?;
    let right = difference(alloc, b, a)?;
    union(alloc, &left, &right)
}

/// What an operation makes of two sets.
#[tactic(auto, unfolding(mz_operations::specs::Sets::combined))]
pub fn combined(
    alloc: Global,
    op: SetOp,
    a: &RangeSet,
    b: &RangeSet,
) -> Result<RangeSet, AllocError>
    ensures { IfOk result (λ s. s ≡ sets.combined op a.now b.now) }
{
    match op {
        SetOp::Union => union(alloc, a, b),
        SetOp::Intersect => intersection(alloc, a, b),
        SetOp::Diff => difference(alloc, a, b),
        SetOp::Symdiff => symmetric(alloc, a, b),
    }
}

/// Whether `b` has what `a` has.
pub fn is_subset(alloc: Global, a: &RangeSet, b: &RangeSet) -> Result<bool, AllocError>
    ensures { IfOk result (λ t. t ≡ sets.is_subset a.now b.now) }
{
    let rest = difference(alloc, a, b)?;
    Ok(rest.ranges().is_empty())
}

/// Whether `x` is an element.
pub fn contains(s: &RangeSet, x: i64) -> bool
    ensures { result ≡ sets.contains s.now x }
{
    s.contains(x)
}

/// Whether two sets are equal.
pub fn same_set(a: &RangeSet, b: &RangeSet) -> bool
    ensures { result ≡ sets.same_set a.now b.now }
{
    a.ranges() == b.ranges()
}

/// The least or the greatest element; `None` of the empty set.
#[tactic(auto, unfolding(mz_operations::specs::Sets::end_of))]
pub fn end_of(side: Side, s: &RangeSet) -> Option<i64>
    ensures { result ≡ sets.end_of side s.now }
{
    match side {
        Side::Least => least_of(s),
        Side::Greatest => greatest_of(s),
    }
}

#[tactic(auto, unfolding(mz_operations::specs::Sets::end_of))]
fn least_of(s: &RangeSet) -> Option<i64>
    ensures { result ≡ sets.end_of Side.Least s.now }
{
    let r = s.ranges().first()?;
    Some(r.0)
}

#[tactic(auto, unfolding(mz_operations::specs::Sets::end_of))]
fn greatest_of(s: &RangeSet) -> Option<i64>
    ensures { result ≡ sets.end_of Side.Greatest s.now }
{
    let r = s.ranges().last()?;
    Some(r.1)
}

/// The integers from `lo` to `hi`; `None` where one of these lies outside the limit.
#[tactic(auto, unfolding(mz_operations::specs::Sets::up_to))]
pub fn up_to(alloc: Global, lo: i64, hi: i64) -> Result<Option<RangeSet>, AllocError>
    ensures { IfOk result (λ s. s ≡ sets.up_to lo hi) }
{
    if is_number(lo as i128) && is_number(hi as i128) {
        let s = RangeSet::range(alloc, lo, hi)?;
        Ok(Some(s))
    } else {
        Ok(None)
    }
}
