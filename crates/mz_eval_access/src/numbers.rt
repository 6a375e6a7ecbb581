// Numbers that stand in a list at a par integer.

ghost use Rattle.std.specs.Prelude.{◌≡◌, ◌≤ℤ◌, ◌∷◌, [], MatchOption, map, true};
ghost use Rattle.mz_value.specs.Contents as values;
ghost use Rattle.mz_core.specs.Types.{plain_type};
ghost use Rattle.mz_operations.specs.Bounds as bounds;
ghost use Rattle.mz_meaning.specs.Cells.{par_value};
ghost use Rattle.mz_eval_cells.specs.Views.{cell_of, known_bound};
ghost use Rattle.mz_eval_access.specs.Places.{IsPlaceOf, ReachesIn, ReachesOne, list_ranges, reached_bound};
ghost use Rattle.mz_eval_access.specs.StepsPlaces.{steps_between};

use crate::accessing::{bound_nth, ends_in};
use crate::placing::distance;
use mz_core::TypeInst;
use mz_eval_cells::{Bound, Item, Known, is_set_base};

fn integer_of(k: &Known) -> Option<i64>
    ensures { MatchOption result (Unit {0}) (λ n. cell_of k.now ≡ par_value (values.int n)) }
{
    match k {
        Known::One(Item::Int(n)) => Some(*n),
        _ => None,
    }
}

fn is_inside(r: (i64, i64), n: i64) -> bool
    ensures { result ≡ true → (r.0 ≤ℤ n) × (n ≤ℤ r.1) }
{
    r.0 <= n && n <= r.1
}

/// How far an integer is past a range's lower end.
fn offset(r: (i64, i64), n: i64) -> u64
    ensures { result ≡ steps_between r.0 n }
{
    distance(r.0, n)
}

/// The place of an integer in a range, from 0, and the ends of the number that stands there.
fn place_of_integer(r: (i64, i64), all: &[Bound], i: &Known, n: i64) -> Option<(u64, (i64, i64))>
    requires { cell_of i.now ≡ par_value (values.int n) }
    ensures place { MatchOption result (Unit {0}) (λ p. IsPlaceOf (r ∷ []) (cell_of i.now) p.0) }
    ensures ends { MatchOption result (Unit {0}) (λ p. ReachesIn (r ∷ []) (map known_bound all.now) (cell_of i.now) p.1) }
{
    if !is_inside(r, n) {
        return None;
    }
    let p = offset(r, n);
    let b = bound_nth(all, p)?;
    Some((p, ends_in(b)))
}

fn place_in_range(r: (i64, i64), all: &[Bound], i: &Known) -> Option<(u64, (i64, i64))>
    ensures place { MatchOption result (Unit {0}) (λ p. IsPlaceOf (r ∷ []) (cell_of i.now) p.0) }
    ensures ends { MatchOption result (Unit {0}) (λ p. ReachesIn (r ∷ []) (map known_bound all.now) (cell_of i.now) p.1) }
{
    match integer_of(i) {
        None => None,
        Some(n) => place_of_integer(r, all, i, n),
    }
}

/// The same in an array, which may have more dimensions than one.
fn place_in_list(ranges: &[(i64, i64)], all: &[Bound], i: &Known) -> Option<(u64, (i64, i64))>
    ensures place { MatchOption result (Unit {0}) (λ p. IsPlaceOf ranges.now (cell_of i.now) p.0) }
    ensures ends { MatchOption result (Unit {0}) (λ p. ReachesIn ranges.now (map known_bound all.now) (cell_of i.now) p.1) }
{
    match ranges {
        [r] => place_in_range(*r, all, i),
        _ => None,
    }
}

fn place_of_number(a: &Known, i: &Known) -> Option<(u64, (i64, i64))>
    ensures place { MatchOption result (Unit {0}) (λ p. IsPlaceOf (list_ranges a.now) (cell_of i.now) p.0) }
    ensures ends { MatchOption result (Unit {0}) (λ p. ReachesOne (cell_of a.now) (cell_of i.now) p.1) }
{
    match a {
        Known::Row(index, xs) => place_in_list(index.as_slice(), xs.bounds.as_slice(), i),
        _ => None,
    }
}

/// The place, from 0, of a number that stands in a var list at a par integer, and the ends of its bounds.
/// None of other arrays, of other indices and of elements that are no numbers.
#[tactic(auto, unfolding(mz_core::specs::Types::plain_type))]
pub fn number_place(t: &TypeInst, a: &Known, i: &Known) -> Option<(u64, (i64, i64))>
    ensures place { MatchOption result (Unit {0}) (λ p. IsPlaceOf (list_ranges a.now) (cell_of i.now) p.0) }
    ensures bound { MatchOption result (Unit {0}) (λ p. reached_bound (plain_type t.now) (cell_of a.now) (cell_of i.now ∷ []) ≡ bounds.number p.1) }
{
    if is_set_base(t.base) {
        return None;
    }
    place_of_number(a, i)
}
