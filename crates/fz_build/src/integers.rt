// The bounds of the integers that rows give.

ghost use Rattle.std.specs.Prelude.{◌≡◌, option_map, map, Some, pos};
ghost use Rattle.std.specs.Int.{int_min, int_max};
ghost use Rattle.mz_interval.specs.Ends.{if_interval, if_in_limit};
ghost use Rattle.mz_interval.specs.Interval.{ends};
ghost use Rattle.mz_operations.specs.declared.row.Sign.TheVariants.{Abs};
ghost use Rattle.mz_operations.specs.Bounds.{card_ends, nothing, sign_ends};
ghost use Rattle.mz_operations.specs.Sets.{is_within};
ghost use Rattle.fz_program.specs.Arguments.{argument, plain, plains};
ghost use Rattle.fz_program.specs.Flat.{variable};
ghost use Rattle.fz_build.specs.Bounds.{arith_by, element_ends, ends_of, excess_ends, hull_with, joined, magnitude_by, negative, plus, sum_ends, times};

use crate::inputs::{elements_at, ends_of, is_reached, number_at};
use fz_program::{Arg, FzVar};
use mz_interval::Interval;
use mz_operations::Arith;
use mz_value::RangeSet;

// An interval, which lies in the limit.
fn limited(i: Interval) -> Option<Interval>
    ensures { option_map ends result ≡ if_in_limit (ends i) }
{
    Some(i)
}

fn least(x: &Interval, y: &Interval) -> Interval
    ensures { ends result ≡ (int_min x.now.lo y.now.lo, int_min x.now.hi y.now.hi) }
{
    Interval {
        lo: x.lo.min(y.lo),
        hi: x.hi.min(y.hi),
    }
}

fn greatest(x: &Interval, y: &Interval) -> Interval
    ensures { ends result ≡ (int_max x.now.lo y.now.lo, int_max x.now.hi y.now.hi) }
{
    Interval {
        lo: x.lo.max(y.lo),
        hi: x.hi.max(y.hi),
    }
}

// The bounds of an operation's value.
#[tactic(auto, unfolding(mz_operations::specs::Bounds::arith_ends, mz_operations::specs::Bounds::toward_ends, mz_operations::specs::Numbers::toward))]
fn operated(op: Arith, x: Interval, y: Interval) -> Option<Interval>
    ensures { option_map ends result ≡ arith_by op (Some (ends x)) (Some (ends y)) }
{
    match op {
        Arith::Add => x.add(y),
        Arith::Sub => x.add(y.neg()),
        Arith::Mul => x.mul(y),
        Arith::Div => limited(x.div(y)),
        Arith::Mod => limited(x.modulo(y)),
        Arith::Min => limited(least(&x, &y)),
        Arith::Max => limited(greatest(&x, &y)),
    }
}

// The interval with these ends; `None` where it has no number or leaves the limit.
pub(crate) fn interval(e: (i64, i64)) -> Option<Interval>
    ensures { option_map ends result ≡ if_interval e }
{
    Interval::new(e.0, e.1)
}

pub(crate) fn arithmetic(op: Arith, x: Option<Interval>, y: Option<Interval>) -> Option<Interval>
    ensures { option_map ends result ≡ arith_by op (option_map ends x) (option_map ends y) }
{
    let x = x?;
    operated(op, x, y?)
}

fn magnitude_of(x: &Interval) -> Option<Interval>
    ensures { option_map ends result ≡ if_in_limit (sign_ends Abs (ends x.now)) }
{
    let low = x.lo.max(-x.hi);
    let high = (-x.lo).max(x.hi);
    Interval::new(low.max(0), high)
}

// The bounds of the magnitude of a number.
pub(crate) fn magnitude(x: Option<Interval>) -> Option<Interval>
    ensures { option_map ends result ≡ magnitude_by (option_map ends x) }
{
    let x = x?;
    magnitude_of(&x)
}

// The bounds of the number of elements of a set that lies in this one.
pub(crate) fn size(set: &RangeSet) -> Option<Interval>
    ensures { option_map ends result ≡ if_interval (card_ends set.now) }
{
    let n = set.card();
    if n <= 1 << 61 {
        Interval::new(0, n as i64)
    } else {
        None
    }
}

// The hull, where there is one already.
fn joined(acc: Option<(i64, i64)>, x: (i64, i64)) -> (i64, i64)
    ensures { result ≡ joined acc x }
{
    match acc {
        None => x,
        Some(acc) => (acc.0.min(x.0), acc.1.max(x.1)),
    }
}

// The hull with the element at this place, where the index reaches the place.
fn with_reached(
    vars: &[FzVar],
    index: (i64, i64),
    place: usize,
    acc: Option<(i64, i64)>,
    a: &Arg,
) -> Option<(i64, i64)>
    ensures { result ≡ hull_with (is_within index (pos place)) acc (ends_of (map variable vars.now) (plain a.now)) }
{
    if is_reached(index, place) {
        Some(joined(acc, ends_of(vars, a)))
    } else {
        acc
    }
}

// The hull of the elements at the places, from 1, that an index reaches; 0..0 where it reaches none.
#[tactic(auto, unfolding(crate::specs::Bounds::hull_reached))]
pub(crate) fn hull_reached(vars: &[FzVar], index: (i64, i64), items: &[Arg]) -> (i64, i64)
    ensures { result ≡ element_ends (map variable vars.now) index (plains items.now) }
{
    let mut acc = None;
    let mut place: usize = 1;
    let mut rest = items;
    while let [a, more @ ..] = rest {
        acc = with_reached(vars, index, place, acc, a);
        place += 1;
        rest = more;
    }
    acc.unwrap_or((0, 0))
}

fn plus(x: Option<Interval>, y: Option<Interval>) -> Option<Interval>
    ensures { option_map ends result ≡ plus (option_map ends x) (option_map ends y) }
{
    let x = x?;
    x.add(y?)
}

fn times(x: Option<Interval>, y: Option<Interval>) -> Option<Interval>
    ensures { option_map ends result ≡ times (option_map ends x) (option_map ends y) }
{
    let x = x?;
    x.mul(y?)
}

// The bounds of a product.
fn product(vars: &[FzVar], c: &Arg, x: &Arg) -> Option<Interval>
    ensures { option_map ends result ≡ times (if_interval (ends_of (map variable vars.now) (plain c.now))) (if_interval (ends_of (map variable vars.now) (plain x.now))) }
{
    times(interval(ends_of(vars, c)), interval(ends_of(vars, x)))
}

// The bounds of a sum of products.
#[tactic(auto, unfolding(crate::specs::Bounds::sum_ends))]
fn sum(vars: &[FzVar], cs: &[Arg], xs: &[Arg]) -> Option<Interval>
    ensures { option_map ends result ≡ sum_ends (map variable vars.now) (Some nothing) (plains cs.now) (plains xs.now) }
{
    let mut acc = Some(Interval { lo: 0, hi: 0 });
    let mut cs_left = cs;
    let mut xs_left = xs;
    while let [c, more_cs @ ..] = cs_left {
        match xs_left {
            [] => return acc,
            [x, more_xs @ ..] => {
                acc = plus(acc, product(vars, c, x));
                cs_left = more_cs;
                xs_left = more_xs;
            }
        }
    }
    acc
}

// The interval of the numbers with the other sign.
fn negative(x: Option<Interval>) -> Option<Interval>
    ensures { option_map ends result ≡ negative (option_map ends x) }
{
    let x = x?;
    Some(x.neg())
}

// The bounds of what a sum passes its constant by.
pub(crate) fn excess(vars: &[FzVar], inputs: &[Arg]) -> Option<Interval>
    ensures { option_map ends result ≡ excess_ends (map variable vars.now) (map argument inputs.now) }
{
    let total = sum(vars, elements_at(inputs, 0), elements_at(inputs, 1));
    let constant = number_at(vars, inputs, 2);
    plus(total, negative(interval(constant)))
}
