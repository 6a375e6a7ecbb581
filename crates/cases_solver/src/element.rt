// The element at a place of an array.

use crate::value::{Val, number, value};
use fz_program::Arg;

/// Whether this is the element at the place `i`, from 1.
pub(crate) fn is_element(values: &[Val], i: i64, items: &[Arg], c: Val) -> bool {
    let mut place: i64 = 1;
    for a in items {
        if place == i {
            let v = value(values, a);
            return v.number == c.number && v.set == c.set;
        }
        place = place.wrapping_add(1);
    }
    false
}

/// Whether all elements are true.
pub(crate) fn all_true(values: &[Val], items: &[Arg]) -> bool {
    for a in items {
        if number(values, a) != 1 {
            return false;
        }
    }
    true
}

/// Whether some element has this truth value.
pub(crate) fn some_is(values: &[Val], items: &[Arg], truth: i64) -> bool {
    for a in items {
        if number(values, a) == truth {
            return true;
        }
    }
    false
}
