// The sets of the domains of variables.

ghost use Rattle.std.specs.Prelude.{◌≡◌, ◌≤ℤ◌, IfOk, map, pos, replicate, true};
ghost use Rattle.mz_value.specs.Ranges.{IsInLimit, greatest, range_of};
ghost use Rattle.mz_core.specs.Types.{plain_type};
ghost use Rattle.mz_meaning.specs.Domains.{domain_over};
ghost use Rattle.mz_meaning.specs.Walk as walk;
ghost use Rattle.mz_eval_cells.specs.Views.{known_bound};
ghost use Rattle.mz_eval_declared.specs.Wants.{wanted};

use mz_base::Memory;
use mz_core::{Base, TypeInst};
use mz_eval_cells::Bound;
use mz_eval_declared::Want;
use mz_value::{GREATEST, LEAST, RangeSet};
use std::alloc::Global;

fn is_in_limit(n: i64) -> bool
    ensures { result ≡ true → IsInLimit n }
{
    LEAST <= n && n <= GREATEST
}

/// The integers from one to another. Out of memory too where one is beyond the limit.
fn numbers(alloc: Global, lo: i64, hi: i64) -> Result<RangeSet, Memory>
    ensures { IfOk result (λ s. s ≡ range_of lo hi) }
{
    if !is_in_limit(lo) {
        return Err(Memory);
    }
    if !is_in_limit(hi) {
        return Err(Memory);
    }
    let s = RangeSet::range(alloc, lo, hi)?;
    Ok(s)
}

/// The numbers, or the greatest set, that bounds allow.
fn bound_set(alloc: Global, b: &Bound) -> Result<RangeSet, Memory>
    ensures { IfOk result (λ s. s ≡ walk.bound_set (known_bound b.now)) }
{
    match b {
        Bound::Number(lo, hi) => numbers(alloc, *lo, *hi),
        Bound::Sets(_, most) => {
            let s = most.copy(alloc)?;
            Ok(s)
        }
    }
}

fn truths(alloc: Global) -> Result<RangeSet, Memory>
    ensures { IfOk result (λ s. s ≡ range_of (pos 0) (pos 1)) }
{
    let s = RangeSet::range(alloc, 0, 1)?;
    Ok(s)
}

fn own_set(alloc: Global, base: Base, b: &Bound) -> Result<RangeSet, Memory>
    ensures { IfOk result (λ s. s ≡ walk.own_set base (known_bound b.now)) }
{
    match base {
        Base::Bool => truths(alloc),
        _ => bound_set(alloc, b),
    }
}

fn copied(alloc: Global, u: &RangeSet) -> Result<RangeSet, Memory>
    ensures { IfOk result (λ s. s ≡ u.now) }
{
    let s = u.copy(alloc)?;
    Ok(s)
}

/// What a variable of this base ranges over, whose value has these bounds.
pub(crate) fn set_by_value(
    alloc: Global,
    base: Base,
    w: &Want,
    b: &Bound,
) -> Result<RangeSet, Memory>
    ensures { IfOk result (λ s. s ≡ walk.set_by_value base (wanted w.now) (known_bound b.now)) }
{
    match w {
        Want::Anything => own_set(alloc, base, b),
        Want::Missing => own_set(alloc, base, b),
        Want::Within(u) => copied(alloc, u),
    }
}

/// What each element of an array of variables ranges over, whose value's elements have these bounds.
#[tactic(auto, unfolding(mz_core::specs::Types::plain_type))]
pub(crate) fn sets_by_value(
    alloc: Global,
    t: &TypeInst,
    w: &Want,
    all: &[Bound],
) -> Result<Vec<RangeSet>, Memory>
    ensures { IfOk result (λ v. map (domain_over (plain_type t.now)) v.items ≡ map (walk.domain_by_value (plain_type t.now) (wanted w.now)) (map known_bound all.now)) }
{
    let mut sets = Vec::new(alloc);
    for b in all {
        let s = set_by_value(alloc, t.base, w, b)?;
        sets.push(s)?;
    }
    Ok(sets)
}

fn any_set(alloc: Global, int_range: &i64, base: Base) -> Result<RangeSet, Memory>
    requires least { pos 0 ≤ℤ int_range.now }
    requires greatest { int_range.now ≤ℤ greatest }
    ensures { IfOk result (λ s. s ≡ walk.free_set int_range.now base (wanted Want.Anything)) }
{
    match base {
        Base::Bool => truths(alloc),
        _ => {
            let s = RangeSet::range(alloc, -*int_range, *int_range)?;
            Ok(s)
        }
    }
}

/// What a variable of this base without a value ranges over.
pub(crate) fn free_set(
    alloc: Global,
    int_range: &i64,
    base: Base,
    w: &Want,
) -> Result<RangeSet, Memory>
    requires least { pos 0 ≤ℤ int_range.now }
    requires greatest { int_range.now ≤ℤ greatest }
    ensures { IfOk result (λ s. s ≡ walk.free_set int_range.now base (wanted w.now)) }
{
    match w {
        Want::Anything => any_set(alloc, int_range, base),
        Want::Missing => any_set(alloc, int_range, base),
        Want::Within(u) => copied(alloc, u),
    }
}

/// A set, this many times.
#[tactic(auto, using(std::proofs::lemmas::List::replicate_more))]
pub(crate) fn copies(
    alloc: Global,
    t: &TypeInst,
    u: &RangeSet,
    count: u64,
) -> Result<Vec<RangeSet>, Memory>
    ensures { IfOk result (λ v. map (domain_over (plain_type t.now)) v.items ≡ replicate count (domain_over (plain_type t.now) u.now)) }
{
    let _dimensions = t.dims.len();
    let mut sets = Vec::new(alloc);
    for _turn in 0..count {
        let s = u.copy(alloc)?;
        sets.push(s)?;
    }
    Ok(sets)
}
