// Intervals of integers, and the bounds of operations on them.

use cases::Page;
use mz_base::INTEGER_LIMIT as LIMIT;
use mz_interval::Interval;

/// An interval's ends.
fn put_ends(page: &mut Page, ends: (i64, i64)) {
    page.put(ends.0);
    page.put("..");
    page.put(ends.1);
}

/// What an operation gave, and the end of the line.
fn answer(page: &mut Page, bounds: Option<Interval>) {
    match bounds {
        Some(bounds) => {
            put_ends(page, (bounds.lo, bounds.hi));
            page.line("");
        }
        None => page.line("none"),
    }
}

pub fn ends(page: &mut Page) {
    page.line("# turned ends and ends past the limit are no interval");
    for (lo, hi) in [
        (3, 3),
        (3, 2),
        (-LIMIT, LIMIT),
        (-LIMIT - 1, 0),
        (0, LIMIT + 1),
        (i64::MIN, i64::MAX),
    ] {
        page.put("Interval ");
        put_ends(page, (lo, hi));
        page.put(": ");
        answer(page, Interval::new(lo, hi));
    }
}

/// Two intervals, which are given by their ends; None where one isn't an interval.
fn both(a: (i64, i64), b: (i64, i64)) -> Option<(Interval, Interval)> {
    Some((Interval::new(a.0, a.1)?, Interval::new(b.0, b.1)?))
}

/// An operation on two intervals, and the bounds that it gave.
fn operation(page: &mut Page, a: (i64, i64), sign: &str, b: (i64, i64), bounds: Option<Interval>) {
    put_ends(page, a);
    page.put(sign);
    put_ends(page, b);
    page.put(" = ");
    answer(page, bounds);
}

pub fn sums_and_products(page: &mut Page) {
    page.line("# sums and products end at the limit");
    for (a, b) in [
        ((-7, -5), (-3, -2)),
        ((-7, 5), (-3, 2)),
        ((2, 5), (-3, -3)),
        ((LIMIT, LIMIT), (0, 0)),
        ((LIMIT, LIMIT), (1, 1)),
        ((0, 1 << 31), (-(1 << 30), 1 << 30)),
        ((0, LIMIT / 3 + 1), (0, 3)),
        ((-LIMIT, 0), (-LIMIT, 0)),
    ] {
        if let Some((x, y)) = both(a, b) {
            operation(page, a, " + ", b, x.add(y));
            operation(page, a, " * ", b, x.mul(y));
        }
    }
}

pub fn quotients_and_remainders(page: &mut Page) {
    page.line("# quotients and remainders round toward zero");
    for (a, b) in [
        ((-7, -7), (2, 2)),
        ((7, 7), (-2, -2)),
        ((-7, -7), (-2, -2)),
        ((7, 7), (2, 2)),
        ((-9, -5), (-4, -2)),
        ((-7, 7), (-2, 3)),
        ((4, 9), (0, 0)),
        ((4, 9), (0, 5)),
        ((-2, 1), (10, 20)),
        ((-LIMIT, LIMIT), (-1, 0)),
    ] {
        if let Some((x, y)) = both(a, b) {
            operation(page, a, " div ", b, Some(x.div(y)));
            operation(page, a, " mod ", b, Some(x.modulo(y)));
        }
    }
}

pub fn negations_and_hulls(page: &mut Page) {
    page.line("# a negation exchanges the ends, and a hull holds both");
    if let Some(x) = Interval::new(-3, 8) {
        page.put("-(-3..8) = ");
        answer(page, Some(x.neg()));
    }
    for (a, b) in [((-3, 2), (5, 8)), ((1, 4), (2, 3))] {
        if let Some((x, y)) = both(a, b) {
            operation(page, a, " hull ", b, Some(x.hull(y)));
        }
    }
}
