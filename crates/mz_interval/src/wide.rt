// Pairs of a lower and an upper end that may leave the limit.

ghost use Rattle.std.specs.Prelude.{◌≡◌, ◌≤ℤ◌, option_map};
ghost use Rattle.mz_interval.specs.Ends as words;
ghost use Rattle.mz_interval.specs.Ends.{IsInterval, if_in_limit};
ghost use Rattle.mz_interval.specs.Interval.{ends};

use crate::interval::Interval;
use crate::limit;

/// The magnitude that no number passes.
const LIMIT: i128 = limit::LIMIT as i128;

/// From the lesser to the greater of two numbers.
pub(crate) fn between(x: i128, y: i128) -> (i128, i128)
    ensures { result ≡ words.between x y }
{
    (x.min(y), x.max(y))
}

/// The smallest range that holds both.
pub(crate) fn hull(e: &(i128, i128), f: &(i128, i128)) -> (i128, i128)
    ensures { result ≡ words.hull_of e.now f.now }
{
    (e.0.min(f.0), e.1.max(f.1))
}

/// The smallest range that holds each that is there.
pub(crate) fn hull_of_some(e: Option<(i128, i128)>, f: Option<(i128, i128)>) -> Option<(i128, i128)>
    ensures { result ≡ words.hull_of_some e f }
{
    match (e, f) {
        (Some(first), Some(second)) => Some(hull(&first, &second)),
        (None, second) => second,
        (first, None) => first,
    }
}

/// The interval with these ends.
pub(crate) fn interval(e: (i128, i128)) -> Interval
    requires { IsInterval e }
    ensures { ends result ≡ e }
{
    Interval {
        lo: e.0 as i64,
        hi: e.1 as i64,
    }
}

/// The interval with these ends; `None` exactly where one leaves the limit.
pub(crate) fn narrowed(e: (i128, i128)) -> Option<Interval>
    requires { e.0 ≤ℤ e.1 }
    ensures { option_map ends result ≡ if_in_limit e }
{
    if e.0 < -LIMIT || LIMIT < e.1 {
        None
    } else {
        Some(Interval {
            lo: e.0 as i64,
            hi: e.1 as i64,
        })
    }
}
