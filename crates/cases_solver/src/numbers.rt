// Rows over integers.

use crate::value::{Val, number};
use fz_program::{Arg, RowName};

/// The sum of the products of coefficients and integers.
pub(crate) fn sum(values: &[Val], coefficients: &[Arg], integers: &[Arg]) -> i64 {
    let mut all: i64 = 0;
    let mut others = integers;
    for c in coefficients {
        if let [x, rest @ ..] = others {
            all = all.wrapping_add(number(values, c).wrapping_mul(number(values, x)));
            others = rest;
        }
    }
    all
}

/// Whether the third is what the row makes of the first two.
pub(crate) fn is_made(name: RowName, a: i64, b: i64, c: i64) -> bool {
    match name {
        RowName::IntTimes => c == a.wrapping_mul(b),
        RowName::IntDiv => is_quotient(a, b, c),
        RowName::IntMod => is_remainder(a, b, c),
        RowName::IntMin => c == if a < b { a } else { b },
        RowName::IntMax => c == if a < b { b } else { a },
        _ => false,
    }
}

fn magnitude(a: i64) -> i64 {
    if a < 0 { a.wrapping_neg() } else { a }
}

// A quotient times its divisor is at most the number, in magnitude, and misses less than the divisor.
fn is_quotient(a: i64, b: i64, c: i64) -> bool {
    is_remainder(a, b, a.wrapping_sub(b.wrapping_mul(c)))
        && magnitude(b.wrapping_mul(c)) <= magnitude(a)
}

// A remainder is less than the divisor, in magnitude, has the number's sign, and leaves a multiple of the divisor.
fn is_remainder(a: i64, b: i64, c: i64) -> bool {
    b != 0
        && magnitude(c) < magnitude(b)
        && (c == 0 || (c < 0) == (a < 0))
        && is_multiple(a.wrapping_sub(c), b)
}

// Whether some number of -200 to 200 times another is this one.
fn is_multiple(a: i64, b: i64) -> bool {
    for k in -200..201 {
        if b.wrapping_mul(k) == a {
            return true;
        }
    }
    false
}

/// Whether an integer is the other's magnitude.
pub(crate) fn is_magnitude(a: i64, b: i64) -> bool {
    b == magnitude(a)
}
