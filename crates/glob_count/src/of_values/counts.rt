// Counts of values.

ghost use Rattle.std.specs.Prelude.{◌≡◌, pos};
ghost use Rattle.std.specs.List.{list_all};
ghost use Rattle.std.specs.Ordering.{int_eq};
ghost use Rattle.mz_globals.specs.Order as order;
ghost use Rattle.mz_globals.specs.Counting as words;

use glob_order::of_values::{is_new, times};
use mz_builtin_arguments::contains;
use mz_globals::Relation;
use mz_value::RangeSet;

/// Whether a number of places stands so to `n`.
#[tactic(auto, unfolding(mz_globals::specs::Counting::related))]
fn related(relation: Relation, n: i64, count: usize) -> bool
    ensures { result ≡ words.related relation n (pos count) }
{
    match relation {
        Relation::AtLeast => n as i128 <= count as i128,
        Relation::AtMost => count as i128 <= n as i128,
        Relation::Exactly => count as i128 == n as i128,
    }
}

/// Whether a number of places is `n`.
fn is_count(count: usize, n: i64) -> bool
    ensures { result ≡ int_eq (pos count) n }
{
    count as i128 == n as i128
}

/// The number of places whose value lies in a set.
fn times_among(s: &RangeSet, xs: &[i64]) -> usize
    ensures { result ≡ words.times_among s.now xs.now }
{
    xs.iter().filter(|x| contains(s, **x)).count()
}

/// The number of different values.
fn different_values(xs: &[i64]) -> usize
    ensures { result ≡ words.different_values xs.now }
{
    let mut count = 0;
    for k in 0..xs.len() {
        if is_new(xs[k], &xs[k + 1..]) {
            count += 1;
        }
    }
    count
}

/// Whether a value of the cover is so often among the values.
fn is_count_in(xs: &[i64], p: &(i64, i64)) -> bool
    ensures { result ≡ words.is_count_in xs.now p.now }
{
    is_count(times(p.0, xs), p.1)
}

/// Whether each value of a cover is as often among the values as the count beside it says.
pub(crate) fn are_counts(xs: &[i64], cover: &[(i64, i64)]) -> bool
    ensures { result ≡ list_all (words.is_count_in xs.now) cover.now }
{
    cover.iter().all(|p| is_count_in(xs, p))
}

/// Whether a value is so often among the values.
pub(crate) fn counts(y: i64, xs: &[i64], c: i64) -> bool
    ensures { result ≡ int_eq (pos (order.times y xs.now)) c }
{
    is_count(times(y, xs), c)
}

/// Whether the number of places with a value stands so to `n`.
pub(crate) fn relates(relation: Relation, n: i64, xs: &[i64], v: i64) -> bool
    ensures { result ≡ words.related relation n (pos (order.times v xs.now)) }
{
    related(relation, n, times(v, xs))
}

/// Whether the number of places whose value lies in a set is `n`.
pub(crate) fn counts_among(n: i64, xs: &[i64], v: &RangeSet) -> bool
    ensures { result ≡ int_eq (pos (words.times_among v.now xs.now)) n }
{
    is_count(times_among(v, xs), n)
}

/// Whether the number of different values is `n`.
pub(crate) fn counts_different(n: i64, xs: &[i64]) -> bool
    ensures { result ≡ int_eq (pos (words.different_values xs.now)) n }
{
    is_count(different_values(xs), n)
}
