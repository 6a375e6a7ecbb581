// The bounds of a product.

ghost use Rattle.std.specs.Prelude.{◌≡◌, ℤ, ◌*ℤ◌, IfSome, option_map};
ghost use Rattle.mz_interval.specs.Ends.{Encloses, if_in_limit};
ghost use Rattle.mz_interval.specs.Rows.{product_of};
ghost use Rattle.mz_interval.specs.Interval.{ends};

use crate::interval::Interval;
use crate::wide::{between, hull, narrowed};

impl Interval {
    /// The bounds of a product; `None` exactly where an end leaves the limit.
    pub fn mul(self, o: Interval) -> Option<Interval>
        ensures row { option_map ends result ≡ if_in_limit (product_of (ends self) (ends o)) }
        ensures encloses { (x y : ℤ) → Encloses (ends self) x → Encloses (ends o) y → IfSome result (λ product. Encloses (ends product) (x *ℤ y)) }
    {
        narrowed(product_ends(&self.pair(), &o.pair()))
    }
}

/// The bounds of a product of numbers between any ends; they may leave the limit.
pub fn product_ends(e: &(i64, i64), f: &(i64, i64)) -> (i128, i128)
    ensures { result ≡ product_of e.now f.now }
{
    let by_low = between(times(e.0, f.0), times(e.0, f.1));
    let by_high = between(times(e.1, f.0), times(e.1, f.1));
    hull(&by_low, &by_high)
}

/// The product, which may pass an `i64`.
fn times(x: i64, y: i64) -> i128
    ensures { result ≡ x *ℤ y }
{
    x as i128 * y as i128
}
