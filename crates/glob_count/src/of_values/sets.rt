// Tests of sets, and of numbers with sets.

ghost use Rattle.std.specs.Prelude.{◌≡◌, ◌&&◌, IfOk, [], int_le, map};
ghost use Rattle.std.specs.List.{list_all};
ghost use Rattle.mz_operations.specs.Sets as sets;
ghost use Rattle.mz_globals.specs.Lists.{numbered};
ghost use Rattle.mz_globals.specs.Counting as words;
ghost use Rattle.glob_order.specs.Views.{numbers_of, sets_of, booleans_of};

use glob_order::of_values::{PlacedBooleans, PlacedNumbers, PlacedSets, are_indices, same};
use mz_builtin_arguments::{contains, intersection, is_number, same_set, union};
use mz_value::RangeSet;
use std::alloc::{AllocError, Global};

/// Whether a set holds numbers of a range alone.
fn holds_only(within: (i64, i64), s: &RangeSet) -> bool
    ensures { result ≡ words.holds_only within s.now }
{
    let ranges = s.ranges();
    lie_within(within, ranges)
}

/// Whether the ends of ranges lie in a range.
fn lie_within(within: (i64, i64), ranges: &[(i64, i64)]) -> bool
    ensures { result ≡ list_all (λ r. int_le within.0 r.0 && int_le r.1 within.1) ranges.now }
{
    ranges.iter().all(|r| within.0 <= r.0 && r.1 <= within.1)
}

/// Whether an element is in a set; none is that lies outside the limit.
#[tactic(auto, using(crate::proofs::Members::none_outside))]
fn holds(s: &RangeSet, x: i128) -> bool
    ensures { result ≡ sets.contains s.now x }
{
    let _ranges = s.ranges();
    if is_number(x) {
        contains(s, x as i64)
    } else {
        false
    }
}

/// Whether all sets hold numbers of a range alone.
fn all_hold_only(within: (i64, i64), ss: &[&RangeSet]) -> bool
    ensures { result ≡ list_all (words.holds_only within) (map (λ s. s.now) ss.now) }
{
    for s in ss {
        if !holds_only(within, s) {
            return false;
        }
    }
    true
}

/// Whether an element with its index and a set with its index belong to each other, or not at all.
fn is_channel(p: &(i128, i64), j: i128, s: &RangeSet) -> bool
    ensures { result ≡ words.is_channel p.now (j, s.now) }
{
    same(p.1 as i128 == j, holds(s, p.0))
}

/// Whether an element with its index is the index of the sets that have its index, and of no other;
/// the first of the sets has this index.
fn channels_to(p: &(i128, i64), first: i64, ss: &[&RangeSet]) -> bool
    ensures { result ≡ list_all (words.is_channel p.now) (numbered first (map (λ s. s.now) ss.now)) }
{
    let mut j = first as i128;
    for s in ss {
        if !is_channel(p, j, s) {
            return false;
        }
        j += 1;
    }
    true
}

fn all_channel(first: i64, xs: &[i64], sets: &PlacedSets) -> bool
    ensures { result ≡ list_all (λ p. list_all (words.is_channel p) (numbered sets.now.indices.0 (sets_of sets.now).items)) (numbered first xs.now) }
{
    let mut i = first as i128;
    for x in xs {
        if !channels_to(&(i, *x), sets.indices.0, &sets.items) {
            return false;
        }
        i += 1;
    }
    true
}

/// Whether each element is the index of just the sets that have its index.
pub(crate) fn channels(x: &PlacedNumbers, y: &PlacedSets) -> bool
    ensures { result ≡ words.channels (numbers_of x.now) (sets_of y.now) }
{
    are_indices(&y.indices, &x.items)
        && (all_hold_only(x.indices, &y.items) && all_channel(x.indices.0, &x.items, y))
}

fn all_linked(s: &RangeSet, first: i64, bs: &[bool]) -> bool
    ensures { result ≡ list_all (words.is_link s.now) (numbered first bs.now) }
{
    let mut i = first as i128;
    for b in bs {
        if !same(holds(s, i), *b) {
            return false;
        }
        i += 1;
    }
    true
}

/// Whether a set has just the indices of the Booleans that are true.
pub(crate) fn links(s: &RangeSet, b: &PlacedBooleans) -> bool
    ensures { result ≡ words.links s.now (booleans_of b.now) }
{
    holds_only(b.indices, s) && all_linked(s, b.indices.0, &b.items)
}

/// Whether two sets share no element.
fn are_apart(alloc: Global, s: &RangeSet, t: &RangeSet) -> Result<bool, AllocError>
    ensures { IfOk result (λ b. b ≡ words.are_apart s.now t.now) }
{
    let both = intersection(alloc, s, t)?;
    Ok(both.ranges().is_empty())
}

fn is_apart(alloc: Global, s: &RangeSet, others: &[&RangeSet]) -> Result<bool, AllocError>
    ensures { IfOk result (λ b. b ≡ list_all (words.are_apart s.now) (map (λ t. t.now) others.now)) }
{
    for t in others {
        if !are_apart(alloc, s, t)? {
            return Ok(false);
        }
    }
    Ok(true)
}

/// Whether no two sets share an element.
pub(crate) fn all_disjoint(alloc: Global, ss: &[&RangeSet]) -> Result<bool, AllocError>
    ensures { IfOk result (λ b. b ≡ words.all_disjoint (map (λ s. s.now) ss.now)) }
{
    for k in 0..ss.len() {
        if !is_apart(alloc, ss[k], &ss[k + 1..])? {
            return Ok(false);
        }
    }
    Ok(true)
}

fn united(alloc: Global, ss: &[&RangeSet]) -> Result<RangeSet, AllocError>
    ensures { IfOk result (λ u. u ≡ words.united_from [] (map (λ s. s.now) ss.now)) }
{
    let mut acc = RangeSet::range(alloc, 1, 0)?;
    for s in ss {
        acc = union(alloc, &acc, s)?;
    }
    Ok(acc)
}

/// Whether no two sets share an element, and together they are this set.
pub(crate) fn partitions(alloc: Global, ss: &[&RangeSet], u: &RangeSet) -> Result<bool, AllocError>
    ensures { IfOk result (λ b. b ≡ words.partitions (map (λ s. s.now) ss.now) u.now) }
{
    if !all_disjoint(alloc, ss)? {
        return Ok(false);
    }
    let all = united(alloc, ss)?;
    Ok(same_set(&all, u))
}
