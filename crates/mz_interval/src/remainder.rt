// The bounds of a remainder.

ghost use Rattle.std.specs.Prelude.{◌≡◌, ◌≢◌, ◌-◌, ◌<◌, ◌≤◌, ◌^◌, ℤ, pos, int_rem};
ghost use Rattle.mz_interval.specs.Ends.{Encloses};
ghost use Rattle.mz_interval.specs.Rows as rows;
ghost use Rattle.mz_interval.specs.Rows.{remainder_of};
ghost use Rattle.mz_interval.specs.Interval.{ends};

use crate::interval::Interval;
use crate::wide::interval;

impl Interval {
    /// The bounds of a remainder, which has the dividend's sign: `a - (a div b) * b`; `0..0` where
    /// the divisor is `0..0`.
    pub fn modulo(self, o: Interval) -> Interval
        ensures row { ends result ≡ remainder_of (ends self) (ends o) }
        ensures encloses { (x y : ℤ) → Encloses (ends self) x → Encloses (ends o) y → y ≢ pos 0 → Encloses (ends result) (int_rem x y) }
    {
        interval(remainder_ends(&self.pair(), &o.pair()))
    }
}

/// The bounds of a remainder of numbers between any ends; `(0, 0)` where the divisor is `0..0`.
pub fn remainder_ends(e: &(i64, i64), f: &(i64, i64)) -> (i128, i128)
    ensures { result ≡ remainder_of e.now f.now }
{
    let m = magnitude(f);
    if m == 0 {
        return (0, 0);
    }
    (remainder_from(e.0, m), remainder_to(e.1, m))
}

/// The greater magnitude of the two ends.
fn magnitude(f: &(i64, i64)) -> u64
    ensures value { result ≡ rows.magnitude_of f.now }
    ensures bound { result ≤ 2 ^ 63 }
{
    f.0.unsigned_abs().max(f.1.unsigned_abs())
}

/// The least remainder of a dividend from `lo` on by a divisor below this magnitude or of it.
fn remainder_from(lo: i64, m: u64) -> i128
    requires { 0 < m }
    ensures { result ≡ rows.remainder_from lo (pos (m - 1)) }
{
    if 0 <= lo {
        0
    } else {
        (lo as i128).max(-((m - 1) as i128))
    }
}

/// The greatest remainder of a dividend up to `hi` by a divisor below this magnitude or of it.
fn remainder_to(hi: i64, m: u64) -> i128
    requires { 0 < m }
    ensures { result ≡ rows.remainder_to hi (pos (m - 1)) }
{
    if hi <= 0 {
        0
    } else {
        (hi as i128).min((m - 1) as i128)
    }
}
