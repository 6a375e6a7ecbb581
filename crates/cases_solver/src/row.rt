// Whether a row holds, by the number of its arguments.

use crate::element::{all_true, is_element, some_is};
use crate::numbers::{is_made, is_magnitude, sum};
use crate::subset::{count, has, is_within};
use crate::value::{Val, is_true, items, number, set, value};
use fz_program::{Arg, FzRow, RowName};

/// Whether a row holds under these values of the variables. A row of another number of arguments doesn't.
pub(crate) fn holds(values: &[Val], r: &FzRow) -> bool {
    match r.args.as_slice() {
        [a, b] => holds_two(values, r.name, a, b),
        [a, b, c] => holds_three(values, r.name, a, b, c),
        [a, b, c, d] => holds_four(values, r.name, a, b, c) == is_true(values, d),
        _ => false,
    }
}

// How two integers compare.
fn compares(values: &[Val], name: RowName, a: &Arg, b: &Arg) -> bool {
    let x = number(values, a);
    let y = number(values, b);
    match name {
        RowName::IntEq => x == y,
        RowName::IntNe => x != y,
        RowName::IntLe => x <= y,
        _ => x < y,
    }
}

// How two sets compare.
fn matches_sets(values: &[Val], name: RowName, a: &Arg, b: &Arg) -> bool {
    let x = set(values, a);
    let y = set(values, b);
    match name {
        RowName::SetEq => x == y,
        RowName::SetNe => x != y,
        _ => is_within(x, y),
    }
}

fn is_in(values: &[Val], a: &Arg, b: &Arg) -> bool {
    has(set(values, b), number(values, a))
}

fn holds_two(values: &[Val], name: RowName, a: &Arg, b: &Arg) -> bool {
    match name {
        RowName::IntEq => compares(values, name, a, b),
        RowName::IntNe => compares(values, name, a, b),
        RowName::IntLe => compares(values, name, a, b),
        RowName::IntLt => compares(values, name, a, b),
        RowName::IntAbs => is_magnitude(number(values, a), number(values, b)),
        RowName::BoolEq => number(values, a) == number(values, b),
        RowName::BoolNot => number(values, a) != number(values, b),
        RowName::BoolToInt => number(values, a) == number(values, b),
        RowName::ArrayBoolAnd => all_true(values, items(a)) == is_true(values, b),
        RowName::ArrayBoolOr => some_is(values, items(a), 1) == is_true(values, b),
        RowName::BoolClause => some_is(values, items(a), 1) || some_is(values, items(b), 0),
        RowName::SetIn => is_in(values, a, b),
        RowName::SetEq => matches_sets(values, name, a, b),
        RowName::SetNe => matches_sets(values, name, a, b),
        RowName::SetSubset => matches_sets(values, name, a, b),
        RowName::SetCard => count(set(values, a)) == number(values, b),
        _ => false,
    }
}

// Whether a reified row's truth value tells whether the row holds.
fn tells(values: &[Val], truth: bool, c: &Arg) -> bool {
    truth == is_true(values, c)
}

fn is_numbers_row(name: RowName) -> bool {
    matches!(
        name,
        RowName::IntTimes | RowName::IntDiv | RowName::IntMod | RowName::IntMin | RowName::IntMax
    )
}

fn is_element_row(name: RowName) -> bool {
    matches!(
        name,
        RowName::ArrayIntElement
            | RowName::ArrayVarIntElement
            | RowName::ArrayBoolElement
            | RowName::ArrayVarBoolElement
            | RowName::ArraySetElement
            | RowName::ArrayVarSetElement
    )
}

fn holds_three(values: &[Val], name: RowName, a: &Arg, b: &Arg, c: &Arg) -> bool {
    if is_numbers_row(name) {
        is_made(
            name,
            number(values, a),
            number(values, b),
            number(values, c),
        )
    } else if is_element_row(name) {
        is_element(values, number(values, a), items(b), value(values, c))
    } else {
        holds_other(values, name, a, b, c)
    }
}

fn holds_other(values: &[Val], name: RowName, a: &Arg, b: &Arg, c: &Arg) -> bool {
    match name {
        RowName::IntEqReif => tells(values, compares(values, RowName::IntEq, a, b), c),
        RowName::IntNeReif => tells(values, compares(values, RowName::IntNe, a, b), c),
        RowName::IntLeReif => tells(values, compares(values, RowName::IntLe, a, b), c),
        RowName::IntLtReif => tells(values, compares(values, RowName::IntLt, a, b), c),
        RowName::IntLinEq => sum(values, items(a), items(b)) == number(values, c),
        RowName::IntLinNe => sum(values, items(a), items(b)) != number(values, c),
        RowName::IntLinLe => sum(values, items(a), items(b)) <= number(values, c),
        RowName::BoolXor => tells(values, number(values, a) != number(values, b), c),
        RowName::BoolEqReif => tells(values, number(values, a) == number(values, b), c),
        RowName::BoolLeReif => tells(values, number(values, a) <= number(values, b), c),
        RowName::SetInReif => tells(values, is_in(values, a, b), c),
        RowName::SetEqReif => tells(values, matches_sets(values, RowName::SetEq, a, b), c),
        RowName::SetNeReif => tells(values, matches_sets(values, RowName::SetNe, a, b), c),
        RowName::SetSubsetReif => tells(values, matches_sets(values, RowName::SetSubset, a, b), c),
        RowName::SetUnion => set(values, c) == set(values, a) | set(values, b),
        RowName::SetIntersect => set(values, c) == set(values, a) & set(values, b),
        RowName::SetDiff => set(values, c) == set(values, a) & !set(values, b),
        RowName::SetSymdiff => set(values, c) == set(values, a) ^ set(values, b),
        _ => false,
    }
}

// What a reified linear row tells.
fn holds_four(values: &[Val], name: RowName, a: &Arg, b: &Arg, c: &Arg) -> bool {
    let all = sum(values, items(a), items(b));
    match name {
        RowName::IntLinEqReif => all == number(values, c),
        RowName::IntLinNeReif => all != number(values, c),
        _ => all <= number(values, c),
    }
}
