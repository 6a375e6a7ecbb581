// The bounds of integers, from those of their parts.

ghost use Rattle.std.specs.Prelude.{◌≡◌, option_map};
ghost use Rattle.std.specs.Int.{int_min, int_max};
ghost use Rattle.mz_interval.specs.Ends.{if_in_limit};
ghost use Rattle.mz_interval.specs.Interval.{ends};
ghost use Rattle.mz_operations.specs.declared.row.Arith.TheVariants.{Add, Mul, Div, Mod};
ghost use Rattle.mz_operations.specs.declared.row.Sign.TheVariants.{Abs};
ghost use Rattle.mz_operations.specs.Bounds.{sign_ends, toward_ends, hull_of_set, card_ends};
ghost use Rattle.mz_arena.specs.Extents.{as_whole, abs_bounds, arith_at, extent};
ghost use Rattle.mz_arena.specs.Tables.{entries, IsSound};

use crate::node::Id;
use crate::table::Table;
use mz_interval::Interval;
use mz_operations::Side;
use mz_value::RangeSet;

impl Table {
    /// The bounds of the sum of two integers.
    #[tactic(auto, unfolding(mz_operations::specs::Bounds::arith_ends))]
    pub(crate) fn sum(&self, a: Id, b: Id) -> Option<Interval>
        requires { IsSound self.now.sets.items self.now.stored.items }
        ensures { option_map ends result ≡ arith_at Add (entries self.now.sets.items self.now.stored.items) a b }
    {
        let x = self.whole(a)?;
        let y = self.whole(b)?;
        x.add(y)
    }

    /// The bounds of the product of two integers.
    #[tactic(auto, unfolding(mz_operations::specs::Bounds::arith_ends))]
    pub(crate) fn product(&self, a: Id, b: Id) -> Option<Interval>
        requires { IsSound self.now.sets.items self.now.stored.items }
        ensures { option_map ends result ≡ arith_at Mul (entries self.now.sets.items self.now.stored.items) a b }
    {
        let x = self.whole(a)?;
        let y = self.whole(b)?;
        x.mul(y)
    }

    /// The bounds of the quotient of two integers.
    #[tactic(auto, unfolding(mz_operations::specs::Bounds::arith_ends))]
    pub(crate) fn quotient(&self, a: Id, b: Id) -> Option<Interval>
        requires { IsSound self.now.sets.items self.now.stored.items }
        ensures { option_map ends result ≡ arith_at Div (entries self.now.sets.items self.now.stored.items) a b }
    {
        let x = self.whole(a)?;
        let y = self.whole(b)?;
        limited(x.div(y))
    }

    /// The bounds of the remainder of two integers.
    #[tactic(auto, unfolding(mz_operations::specs::Bounds::arith_ends))]
    pub(crate) fn remainder(&self, a: Id, b: Id) -> Option<Interval>
        requires { IsSound self.now.sets.items self.now.stored.items }
        ensures { option_map ends result ≡ arith_at Mod (entries self.now.sets.items self.now.stored.items) a b }
    {
        let x = self.whole(a)?;
        let y = self.whole(b)?;
        limited(x.modulo(y))
    }

    /// The bounds of the magnitude of an integer.
    pub(crate) fn magnitude(&self, a: Id) -> Option<Interval>
        requires { IsSound self.now.sets.items self.now.stored.items }
        ensures { option_map ends result ≡ abs_bounds (as_whole (extent (entries self.now.sets.items self.now.stored.items) a)) }
    {
        let x = self.whole(a)?;
        magnitude(&x)
    }
}

/// The interval itself, which lies in the limit.
fn limited(i: Interval) -> Option<Interval>
    ensures { option_map ends result ≡ if_in_limit (ends i) }
{
    Some(i)
}

fn magnitude(x: &Interval) -> Option<Interval>
    ensures { option_map ends result ≡ if_in_limit (sign_ends Abs (ends x.now)) }
{
    let low = x.lo.max(-x.hi);
    let high = (-x.lo).max(x.hi);
    Interval::new(low.max(0), high)
}

/// The least or the greatest of the lower ends and of the upper ends.
#[tactic(auto, unfolding(mz_operations::specs::Bounds::toward_ends, mz_operations::specs::Numbers::toward))]
pub(crate) fn toward(side: Side, x: &Interval, y: &Interval) -> Interval
    ensures { ends result ≡ toward_ends side (ends x.now) (ends y.now) }
{
    match side {
        Side::Least => least(x, y),
        Side::Greatest => greatest(x, y),
    }
}

fn least(x: &Interval, y: &Interval) -> Interval
    ensures { ends result ≡ (int_min x.now.lo y.now.lo, int_min x.now.hi y.now.hi) }
{
    Interval {
        lo: x.lo.min(y.lo),
        hi: x.hi.min(y.hi),
    }
}

fn greatest(x: &Interval, y: &Interval) -> Interval
    ensures { ends result ≡ (int_max x.now.lo y.now.lo, int_max x.now.hi y.now.hi) }
{
    Interval {
        lo: x.lo.max(y.lo),
        hi: x.hi.max(y.hi),
    }
}

/// From the least to the greatest element, 0..0 of the empty set.
pub(crate) fn hull(set: &RangeSet) -> Interval
    ensures { ends result ≡ hull_of_set set.now }
{
    let ranges = set.ranges();
    let n = ranges.len();
    if n == 0 {
        return Interval { lo: 0, hi: 0 };
    }
    Interval {
        lo: ranges[0].0,
        hi: ranges[n - 1].1,
    }
}

/// The bounds of the number of elements of a set that lies in this one.
pub(crate) fn size(set: &RangeSet) -> Option<Interval>
    ensures { option_map ends result ≡ if_in_limit (card_ends set.now) }
{
    let n = set.card();
    if n <= 1 << 61 {
        Some(Interval {
            lo: 0,
            hi: n as i64,
        })
    } else {
        None
    }
}

/// The integer itself, where it lies in the limit.
pub(crate) fn constant(n: &i64) -> Option<Interval>
    ensures { option_map ends result ≡ if_in_limit (n.now, n.now) }
{
    Interval::new(*n, *n)
}
