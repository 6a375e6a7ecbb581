// Elements of arrays, rows of tables, and automata.

ghost use Rattle.std.specs.Prelude.{◌≡◌, ◌&&◌, ◌^◌, ◌≤ℤ◌, ◌+ℤ◌, ◌-ℤ◌, ◌*ℤ◌, neg_ℤ, pos};
ghost use Rattle.mz_globals.specs.Graphs as words;
ghost use Rattle.glob_order.specs.Views.{numbers_of, grid_of};
ghost use Rattle.glob_sched.specs.Machines.{machine};

use glob_order::of_values::{Grid, PlacedNumbers, is_number_of};
use mz_builtin_arguments::contains;
use mz_value::RangeSet;

/// The element at a place, counted from 0.
#[tactic(auto, using(crate::proofs::Places::nth_below, crate::proofs::Places::nth_at, crate::proofs::Places::nth_above))]
fn nth(k: i128, xs: &[i64]) -> Option<i64>
    ensures { result ≡ words.nth k xs.now }
{
    if 0 <= k && k < xs.len() as i128 {
        Some(xs[k as usize])
    } else {
        None
    }
}

/// The element at an index.
pub(crate) fn element_at(x: &PlacedNumbers, i: i64) -> Option<i64>
    ensures { result ≡ words.element_at (numbers_of x.now) i }
{
    nth(i as i128 - x.indices.0 as i128, &x.items)
}

pub(crate) fn is_element(i: i64, x: &PlacedNumbers, y: i64) -> bool
    ensures { result ≡ words.is_element i (numbers_of x.now) y }
{
    is_number_of(element_at(x, i), y)
}

/// Whether one of the first rows is this list, which isn't empty.
#[tactic(auto, using(crate::proofs::Places::cut_off))]
fn has_row(rows: u128, xs: &[i64], cells: &[i64]) -> bool
    ensures { result ≡ words.has_row rows xs.now cells.now }
{
    let mut left = rows;
    let mut rest = cells;
    while 0 < left {
        if rest.len() < xs.len() {
            return false;
        }
        if xs == &rest[..xs.len()] {
            return true;
        }
        rest = &rest[xs.len()..];
        left -= 1;
    }
    false
}

/// Whether a list is a row of a table; of a table without columns its rows aren't looked at.
pub(crate) fn is_row(xs: &[i64], table: &Grid) -> bool
    ensures { result ≡ words.is_row xs.now (grid_of table.now) }
{
    match xs {
        [] => table.rows != 0,
        [_, ..] => has_row(table.rows, xs, &table.cells),
    }
}

fn is_up_to(most: i64, n: i64) -> bool
    ensures { result ≡ words.is_up_to most n }
{
    1 <= n && n <= most
}

fn product(x: i64, y: i64) -> i128
    ensures { result ≡ x *ℤ y }
{
    x as i128 * y as i128
}

/// The same, and that it is far from the ends of its type.
fn bounded_product(x: i64, y: i64) -> i128
    ensures value { result ≡ x *ℤ y }
    ensures low { neg_ℤ (pos (2 ^ 126)) ≤ℤ result }
    ensures high { result ≤ℤ pos (2 ^ 126) }
{
    product(x, y)
}

/// The place of a column in a row that begins at a place.
fn place_of(row: i128, column: i64) -> i128
    requires low { neg_ℤ (pos (2 ^ 126)) ≤ℤ row }
    requires high { row ≤ℤ pos (2 ^ 126) }
    ensures { result ≡ row +ℤ (column -ℤ pos 1) }
{
    row + (column as i128 - 1)
}

/// An automaton: its states are from 1 to `states` and its letters from 1 to `letters`; a row of
/// `steps` for each state and a column for each letter.
#[derive(Clone, Copy)]
pub(crate) struct Machine<'a> {
    pub states: i64,
    pub letters: i64,
    pub steps: &'a [i64],
    pub last: &'a RangeSet,
}

/// The place of a state's row among the steps.
fn row_of(m: &Machine, q: i64) -> i128
    requires { pos 1 ≤ℤ q }
    ensures value { result ≡ (q -ℤ pos 1) *ℤ m.now.letters }
    ensures low { neg_ℤ (pos (2 ^ 126)) ≤ℤ result }
    ensures high { result ≤ℤ pos (2 ^ 126) }
{
    bounded_product(q - 1, m.letters)
}

/// The state after a letter, 0 where there is none.
fn next_state(m: &Machine, q: i64, x: i64) -> i64
    requires { pos 1 ≤ℤ q }
    ensures { result ≡ words.next_state (machine m.now) q x }
{
    let row = row_of(m, q);
    nth(place_of(row, x), m.steps).unwrap_or(0)
}

fn may_step(m: &Machine, q: i64, x: i64) -> bool
    ensures { result ≡ (words.is_up_to m.now.states q && words.is_up_to m.now.letters x) }
{
    is_up_to(m.states, q) && is_up_to(m.letters, x)
}

/// Whether an automaton goes from a state by these letters to a final state.
#[tactic(auto, using(crate::proofs::Steps::accepts_more, crate::proofs::Steps::accepts_no_more))]
pub(crate) fn accepts(m: &Machine, start: i64, xs: &[i64]) -> bool
    ensures { result ≡ words.accepts (machine m.now) start xs.now }
{
    let mut q = start;
    for x in xs {
        if !may_step(m, q, *x) {
            return false;
        }
        q = next_state(m, q, *x);
    }
    is_up_to(m.states, q) && contains(m.last, q)
}
