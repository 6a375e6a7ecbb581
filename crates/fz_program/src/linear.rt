// Linear rows: whether their sums stay within 64 bits, whatever the values of the variables.

ghost use Rattle.std.specs.Prelude.{◌≡◌, ◌≤◌, ◌+◌, ◌*◌, map, nat_le, Some, None, if◌then◌else◌};
ghost use Rattle.fz_program.specs.Arguments.{argument, plain, plains, var};
ghost use Rattle.fz_program.specs.Flat.{
  domain_magnitude,
  greatest_magnitude,
  is_linear,
  is_within,
  magnitude,
  magnitude_at,
  most,
  variable,
  weight,
};

use crate::program::{Arg, Domain, FzVar};

/// The greatest number of 64 bits with a sign, as one without.
const MOST: u64 = (1 << 63) - 1;

// The greatest magnitude of a set's elements, 0 of the empty set.
#[tactic(auto, unfolding(mz_operations::specs::Sets::end_of))]
fn greatest_magnitude(ranges: &[(i64, i64)]) -> u64
    ensures { result ≡ greatest_magnitude ranges.now }
{
    let low = match ranges.first() {
        Some(r) => r.0.unsigned_abs(),
        None => 0,
    };
    let high = match ranges.last() {
        Some(r) => r.1.unsigned_abs(),
        None => 0,
    };
    low.max(high)
}

fn domain_magnitude(domain: &Domain) -> u64
    ensures { result ≡ domain_magnitude domain.now }
{
    match domain {
        Domain::Ints(s) => greatest_magnitude(s.ranges()),
        _ => 0,
    }
}

fn magnitude_at(vars: &[FzVar], k: u64) -> u64
    ensures { result ≡ magnitude (map variable vars.now) (var k) }
{
    match vars.get(k as usize) {
        Some(v) => domain_magnitude(&v.domain),
        None => 0,
    }
}

// The greatest magnitude of a number or of an integer variable.
fn magnitude(vars: &[FzVar], a: &Arg) -> u64
    ensures { result ≡ magnitude (map variable vars.now) (plain a.now) }
{
    match a {
        Arg::Int(n) => n.unsigned_abs(),
        Arg::Var(k) => magnitude_at(vars, *k),
        _ => 0,
    }
}

// A sum with one product more, where it stays within 64 bits.
fn with_product(sum: u64, m: u64, n: u64) -> Option<u64>
    requires { sum ≤ most }
    ensures { result ≡ if nat_le (sum + m * n) most then Some (sum + m * n) else None }
{
    let product = m.checked_mul(n)?;
    if product <= MOST - sum {
        Some(sum + product)
    } else {
        None
    }
}

// Whether a number and the magnitudes' products come to at most the greatest number of 64 bits.
#[tactic(auto, unfolding(crate::specs::Flat::weight))]
fn is_light(vars: &[FzVar], cs: &[Arg], xs: &[Arg], start: u64) -> bool
    ensures { result ≡ nat_le (start + weight (map variable vars.now) (plains cs.now) (plains xs.now)) most }
{
    let mut sum = start;
    let mut cs_left = cs;
    let mut xs_left = xs;
    if sum > MOST {
        return false;
    }
    while let [c, more_cs @ ..] = cs_left {
        match xs_left {
            [] => return true,
            [x, more_xs @ ..] => match with_product(sum, magnitude(vars, c), magnitude(vars, x)) {
                None => return false,
                Some(more) => {
                    sum = more;
                    cs_left = more_cs;
                    xs_left = more_xs;
                }
            },
        }
    }
    true
}

// Whether there are as many coefficients as variables, and the sum stays within 64 bits.
fn is_linear(vars: &[FzVar], cs: &[Arg], xs: &[Arg], c: &Arg) -> bool
    ensures { result ≡ is_linear (map variable vars.now) (plains cs.now) (plains xs.now) (plain c.now) }
{
    cs.len() == xs.len() && is_light(vars, cs, xs, magnitude(vars, c))
}

/// Whether arguments that begin with two arrays and a number make a sum that stays within 64 bits,
/// whatever the values of the variables.
#[tactic(auto, unfolding(crate::specs::Flat::is_within))]
pub fn is_within(vars: &[FzVar], args: &[Arg]) -> bool
    ensures { result ≡ is_within (map variable vars.now) (map argument args.now) }
{
    match args {
        [Arg::Array(_), Arg::Array(_), Arg::Array(_), ..] => true,
        [Arg::Array(cs), Arg::Array(xs), c, ..] => is_linear(vars, cs, xs, c),
        _ => true,
    }
}
