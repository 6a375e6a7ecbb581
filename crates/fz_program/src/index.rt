// The places of arrays: their index ranges, and the kinds of their variables.

ghost use Rattle.std.specs.Prelude.{◌≡◌, ◌↔◌, map, true, IsTrue};
ghost use Rattle.std.specs.List.{list_all};
ghost use Rattle.mz_value.specs.Ranges.{cardinality, range_of};
ghost use Rattle.fz_program.specs.Flat.{are_alike, are_variables_of, is_index, is_index_range, place_count, variable};

use crate::arguments::{is_literal, is_variable_of};
use crate::program::FzVar;
use crate::row_name::Kind;

/// Whether there is an index range, and each is `1..0` or one that isn't empty.
pub fn is_index(ranges: &[(i64, i64)]) -> bool
    ensures { result ≡ is_index ranges.now }
{
    match ranges {
        [] => false,
        [first, rest @ ..] => is_index_range(*first) && are_index_ranges(rest),
    }
}

fn are_index_ranges(ranges: &[(i64, i64)]) -> bool
    ensures { result ≡ list_all is_index_range ranges.now }
{
    ranges.iter().all(|r| is_index_range(*r))
}

fn is_index_range(range: (i64, i64)) -> bool
    ensures { result ≡ is_index_range range }
{
    (range.0 == 1 && range.1 == 0)
        || (range.0 <= range.1 && is_literal(range.0) && is_literal(range.1))
}

// How many places an index range has.
fn size_of(range: (i64, i64)) -> u64
    requires { is_index_range range ≡ true }
    ensures { result ≡ cardinality (range_of range.0 range.1) }
{
    if range.0 <= range.1 {
        (range.1 - range.0) as u64 + 1
    } else {
        0
    }
}

/// Whether index ranges have this many places.
#[tactic(auto, unfolding(crate::specs::Flat::place_count))]
pub fn has_places(ranges: &[(i64, i64)], count: u64) -> bool
    requires { list_all is_index_range ranges.now ≡ true }
    ensures { IsTrue result ↔ (place_count ranges.now ≡ count) }
{
    let mut rest = ranges;
    let mut left = count;
    while let [r, more @ ..] = rest {
        let size = size_of(*r);
        if size == 0 {
            return left == 0;
        }
        if left % size != 0 {
            return false;
        }
        left /= size;
        rest = more;
    }
    left == 1
}

/// Whether all places, from 0, are those of declared variables of one kind.
pub fn are_alike(vars: &[FzVar], items: &[u64]) -> bool
    ensures { result ≡ are_alike (map variable vars.now) items.now }
{
    are_variables_of(vars, Kind::Int, items)
        || are_variables_of(vars, Kind::Bool, items)
        || are_variables_of(vars, Kind::Set, items)
}

fn are_variables_of(vars: &[FzVar], kind: Kind, items: &[u64]) -> bool
    ensures { result ≡ are_variables_of (map variable vars.now) kind items.now }
{
    items.iter().all(|k| is_variable_of(vars, kind, *k))
}
