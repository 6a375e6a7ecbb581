// The values of variables and arguments.

use crate::subset::mask_of;
use fz_program::Arg;

/// A value: a number, a truth value as 0 or 1, or a set.
#[derive(Clone, Copy)]
pub(crate) struct Val {
    /// The number, and 0 of a set.
    pub(crate) number: i64,
    /// The set, as `mask_of` has it, and the empty one of a number.
    pub(crate) set: u64,
}

pub(crate) fn of_number(number: i64) -> Val {
    Val { number, set: 0 }
}

pub(crate) fn of_set(set: u64) -> Val {
    Val { number: 0, set }
}

pub(crate) fn of_truth(b: bool) -> Val {
    if b { of_number(1) } else { of_number(0) }
}

/// The value of a variable, 0 where there is none.
pub(crate) fn value_at(values: &[Val], k: u64) -> Val {
    match values.get(k as usize) {
        Some(v) => *v,
        None => of_number(0),
    }
}

/// The value of an argument that is no array.
pub(crate) fn value(values: &[Val], a: &Arg) -> Val {
    match a {
        Arg::Bool(b) => of_truth(*b),
        Arg::Int(n) => of_number(*n),
        Arg::Set(s) => of_set(mask_of(s)),
        Arg::Var(k) => value_at(values, *k),
        Arg::Array(_) => of_number(0),
    }
}

/// The number that an argument is.
pub(crate) fn number(values: &[Val], a: &Arg) -> i64 {
    value(values, a).number
}

/// Whether an argument is true.
pub(crate) fn is_true(values: &[Val], a: &Arg) -> bool {
    number(values, a) == 1
}

/// The set that an argument is.
pub(crate) fn set(values: &[Val], a: &Arg) -> u64 {
    value(values, a).set
}

/// The arguments in an array.
pub(crate) fn items(a: &Arg) -> &[Arg] {
    match a {
        Arg::Array(all) => all.as_slice(),
        _ => &[],
    }
}
