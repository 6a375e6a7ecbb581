// Tests of lists of numbers.

ghost use Rattle.std.specs.Prelude.{◌≡◌, ◌||◌, int_le, false};
ghost use Rattle.std.specs.List.{list_all, list_any};
ghost use Rattle.std.specs.Ordering.{int_eq};
ghost use Rattle.mz_operations.specs.Numbers as numbers;
ghost use Rattle.mz_globals.specs.Lists as lists;
ghost use Rattle.mz_globals.specs.Reading as reading;
ghost use Rattle.mz_globals.specs.Order as words;

use mz_operations::{Comparison, Side};

/// Whether a number differs from all of these.
pub fn is_new(x: i64, others: &[i64]) -> bool
    ensures { result ≡ list_all (words.differ x) others.now }
{
    others.iter().all(|y| x != *y)
}

/// Whether values at two places differ.
pub fn all_different(xs: &[i64]) -> bool
    ensures { result ≡ words.all_different xs.now }
{
    for k in 0..xs.len() {
        if !is_new(xs[k], &xs[k + 1..]) {
            return false;
        }
    }
    true
}

fn is_new_or_zero(x: i64, others: &[i64]) -> bool
    ensures { result ≡ list_all (words.differ_or_zero x) others.now }
{
    others.iter().all(|y| x != *y || x == 0)
}

/// Whether equal values at two places are 0.
pub(crate) fn different_but_zero(xs: &[i64]) -> bool
    ensures { result ≡ words.different_but_zero xs.now }
{
    for k in 0..xs.len() {
        if !is_new_or_zero(xs[k], &xs[k + 1..]) {
            return false;
        }
    }
    true
}

fn are_all(x: i64, others: &[i64]) -> bool
    ensures { result ≡ list_all (int_eq x) others.now }
{
    others.iter().all(|y| x == *y)
}

/// Whether all are equal.
pub(crate) fn all_equal(xs: &[i64]) -> bool
    ensures { result ≡ words.all_equal xs.now }
{
    match xs {
        [] => true,
        [x, others @ ..] => are_all(*x, others),
    }
}

#[tactic(auto, unfolding(mz_operations::specs::Numbers::ordered))]
fn ordered(op: Comparison, x: i64, y: i64) -> bool
    ensures { result ≡ numbers.ordered op x y }
{
    match op {
        Comparison::Less => x < y,
        Comparison::AtMost => x <= y,
        Comparison::Greater => y < x,
        Comparison::AtLeast => y <= x,
    }
}

fn ordered_from(op: Comparison, first: i64, others: &[i64]) -> bool
    ensures { result ≡ lists.stepwise_from (numbers.ordered op) first others.now }
{
    let mut before = first;
    for y in others {
        if !ordered(op, before, *y) {
            return false;
        }
        before = *y;
    }
    true
}

/// Whether each value stands so to the next.
pub(crate) fn is_ordered(op: Comparison, xs: &[i64]) -> bool
    ensures { result ≡ words.is_ordered op xs.now }
{
    match xs {
        [] => true,
        [x, others @ ..] => ordered_from(op, *x, others),
    }
}

fn increasing_from(first: i64, others: &[i64]) -> bool
    ensures { result ≡ lists.stepwise_from int_le first others.now }
{
    let mut before = first;
    for y in others {
        if *y < before {
            return false;
        }
        before = *y;
    }
    true
}

/// Whether each value is at most the next.
fn is_increasing(xs: &[i64]) -> bool
    ensures { result ≡ lists.stepwise int_le xs.now }
{
    match xs {
        [] => true,
        [x, others @ ..] => increasing_from(*x, others),
    }
}

/// Whether the first list comes before the second; `equal` tells of equal lists.
pub(crate) fn comes_before(equal: bool, xs: &[i64], ys: &[i64]) -> bool
    ensures { result ≡ words.comes_before equal xs.now ys.now }
{
    for k in 0..xs.len() {
        if k == ys.len() {
            return false;
        }
        if xs[k] != ys[k] {
            return xs[k] < ys[k];
        }
    }
    if xs.len() == ys.len() { equal } else { true }
}

/// The number of places with a value.
pub fn times(v: i64, xs: &[i64]) -> usize
    ensures { result ≡ words.times v xs.now }
{
    xs.iter().filter(|x| v == **x).count()
}

/// Whether both lists have a value as often.
fn is_as_often(xs: &[i64], ys: &[i64], v: i64) -> bool
    ensures { result ≡ words.is_as_often xs.now ys.now v }
{
    times(v, xs) == times(v, ys)
}

fn are_as_often(vs: &[i64], xs: &[i64], ys: &[i64]) -> bool
    ensures { result ≡ list_all (words.is_as_often xs.now ys.now) vs.now }
{
    vs.iter().all(|v| is_as_often(xs, ys, *v))
}

/// Whether the second list is the first one sorted.
pub(crate) fn sorts(xs: &[i64], ys: &[i64]) -> bool
    ensures { result ≡ words.sorts xs.now ys.now }
{
    is_increasing(ys) && (are_as_often(xs, xs, ys) && are_as_often(ys, xs, ys))
}

/// Whether a value may stand here: it isn't `t`, or `s` was seen.
fn may_follow(seen: bool, t: i64, x: i64) -> bool
    ensures { result ≡ (seen || words.differ t x) }
{
    seen || t != x
}

/// Whether `s` is seen with this value.
fn is_seen(seen: bool, s: i64, x: i64) -> bool
    ensures { result ≡ (seen || int_eq s x) }
{
    seen || s == x
}

/// Whether `s` stands before `t`, where `t` stands.
pub(crate) fn precedes(s: i64, t: i64, xs: &[i64]) -> bool
    ensures { result ≡ words.precedes s t false xs.now }
{
    let mut seen = false;
    for x in xs {
        if !may_follow(seen, t, *x) {
            return false;
        }
        seen = is_seen(seen, s, *x);
    }
    true
}

#[tactic(auto, unfolding(mz_operations::specs::Numbers::toward))]
fn toward(side: Side, x: i64, y: i64) -> i64
    ensures { result ≡ numbers.toward side x y }
{
    match side {
        Side::Least => x.min(y),
        Side::Greatest => x.max(y),
    }
}

fn extreme_from(side: Side, first: i64, others: &[i64]) -> i64
    ensures { result ≡ lists.extreme_from side first others.now }
{
    let mut acc = first;
    for x in others {
        acc = toward(side, acc, *x);
    }
    acc
}

/// Whether `m` is the least or the greatest value; of no value none is.
pub(crate) fn is_extreme(side: Side, m: i64, xs: &[i64]) -> bool
    ensures { result ≡ words.is_extreme side m xs.now }
{
    match xs {
        [] => false,
        [x, others @ ..] => extreme_from(side, *x, others) == m,
    }
}

/// Whether a value is there.
pub(crate) fn is_member(xs: &[i64], y: i64) -> bool
    ensures { result ≡ list_any (int_eq y) xs.now }
{
    xs.iter().any(|x| y == *x)
}

/// Whether there is a number, and it is this one.
pub fn is_number_of(n: Option<i64>, m: i64) -> bool
    ensures { result ≡ words.is_number_of n m }
{
    match n {
        None => false,
        Some(n) => n == m,
    }
}

/// Whether an index lies in a range.
pub fn is_index(range: &(i64, i64), i: i64) -> bool
    ensures { result ≡ reading.is_index range.now i }
{
    range.0 <= i && i <= range.1
}

/// Whether all numbers are indices in a range.
pub fn are_indices(range: &(i64, i64), xs: &[i64]) -> bool
    ensures { result ≡ list_all (reading.is_index range.now) xs.now }
{
    xs.iter().all(|i| is_index(range, *i))
}

/// Whether both are true or both false.
pub fn same(a: bool, b: bool) -> bool
    ensures { result ≡ numbers.same a b }
{
    if a { b } else { !b }
}
