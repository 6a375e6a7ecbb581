// The bounds of a quotient.

ghost use Rattle.std.specs.Prelude.{◌≡◌, ◌≢◌, ℤ, pos, int_div, IsTrue};
ghost use Rattle.mz_interval.specs.Ends.{Encloses};
ghost use Rattle.mz_interval.specs.Rows as rows;
ghost use Rattle.mz_interval.specs.Rows.{quotient_of};
ghost use Rattle.mz_interval.specs.Interval.{ends};

use crate::interval::Interval;
use crate::wide::{between, hull_of_some, interval};

impl Interval {
    /// The bounds of a quotient, which rounds toward zero; `0..0` where the divisor is `0..0`.
    pub fn div(self, o: Interval) -> Interval
        ensures row { ends result ≡ quotient_of (ends self) (ends o) }
        ensures encloses { (x y : ℤ) → Encloses (ends self) x → Encloses (ends o) y → y ≢ pos 0 → Encloses (ends result) (int_div x y) }
    {
        interval(quotient_ends(&self.pair(), &o.pair()))
    }
}

/// The bounds of a quotient of numbers between any ends; `(0, 0)` where no divisor is told by its ends, 1 and -1.
pub fn quotient_ends(e: &(i64, i64), f: &(i64, i64)) -> (i128, i128)
    ensures { result ≡ quotient_of e.now f.now }
{
    let by_ends = hull_of_some(quotients_by(e, f, f.0), quotients_by(e, f, f.1));
    let by_units = hull_of_some(quotients_by(e, f, 1), quotients_by(e, f, -1));
    hull_of_some(by_ends, by_units).unwrap_or((0, 0))
}

/// From the least to the greatest quotient of an end by `d`; `None` where `d` may not divide.
fn quotients_by(e: &(i64, i64), f: &(i64, i64), d: i64) -> Option<(i128, i128)>
    ensures { result ≡ rows.quotients_by e.now f.now d }
{
    if is_divisor(f, d) {
        Some(between(divided(e.0, d), divided(e.1, d)))
    } else {
        None
    }
}

/// Whether `d` lies in the divisor's bounds and isn't 0.
fn is_divisor(f: &(i64, i64), d: i64) -> bool
    ensures divides { result ≡ rows.is_divisor f.now d }
    ensures nonzero { IsTrue result → d ≢ pos 0 }
{
    d != 0 && f.0 <= d && d <= f.1
}

/// The quotient, rounded toward zero, which may pass an `i64`.
fn divided(x: i64, d: i64) -> i128
    requires { d ≢ pos 0 }
    ensures { result ≡ int_div x d }
{
    x as i128 / d as i128
}
