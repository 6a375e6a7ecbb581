// The bounds of a row's inputs, by the domains of the variables.

ghost use Rattle.std.specs.Prelude.{◌≡◌, [], IfOk, map, pos};
ghost use Rattle.fz_program.specs.Arguments.{argument, plain, plains, var};
ghost use Rattle.fz_program.specs.Flat.{number_of_truth, variable};
ghost use Rattle.mz_operations.specs.Bounds.{hull_of_set};
ghost use Rattle.mz_operations.specs.Sets.{is_within};
ghost use Rattle.fz_build.specs.Inputs.{elements_at, elements_in};
ghost use Rattle.fz_build.specs.Bounds.{domain_ends, domain_upper, ends_of, number_ends, upper_at, upper_of};

use fz_program::{Arg, Domain, FzVar};
use mz_base::Memory;
use mz_value::RangeSet;
use std::alloc::Global;

// From the least to the greatest element, 0..0 of the empty set.
#[tactic(auto, unfolding(mz_operations::specs::Sets::end_of))]
fn hull(s: &RangeSet) -> (i64, i64)
    ensures { result ≡ hull_of_set s.now }
{
    let ranges = s.ranges();
    let low = match ranges.first() {
        Some(r) => r.0,
        None => 0,
    };
    let high = match ranges.last() {
        Some(r) => r.1,
        None => 0,
    };
    (low, high)
}

fn domain_ends(domain: &Domain) -> (i64, i64)
    ensures { result ≡ domain_ends domain.now }
{
    match domain {
        Domain::Bool => (0, 1),
        Domain::Ints(s) => hull(s),
        Domain::SetOf(_) => (0, 0),
    }
}

fn variable_ends(vars: &[FzVar], k: u64) -> (i64, i64)
    ensures { result ≡ ends_of (map variable vars.now) (var k) }
{
    match vars.get(k as usize) {
        Some(v) => domain_ends(&v.domain),
        None => (0, 0),
    }
}

fn truth_ends(b: bool) -> (i64, i64)
    ensures { result ≡ (number_of_truth b, number_of_truth b) }
{
    if b { (1, 1) } else { (0, 0) }
}

/// The least and the greatest that an integer may be by its domain, of a truth value as 0 or 1; 0 and 0
/// of anything else.
pub fn ends_of(vars: &[FzVar], a: &Arg) -> (i64, i64)
    ensures { result ≡ ends_of (map variable vars.now) (plain a.now) }
{
    match a {
        Arg::Bool(b) => truth_ends(*b),
        Arg::Int(n) => (*n, *n),
        Arg::Set(_) => (0, 0),
        Arg::Var(k) => variable_ends(vars, *k),
        Arg::Array(_) => (0, 0),
    }
}

pub(crate) fn empty_set(alloc: Global) -> Result<RangeSet, Memory>
    ensures { IfOk result (λ s. s ≡ []) }
{
    Ok(RangeSet::range(alloc, 1, 0)?)
}

fn domain_upper(alloc: Global, domain: &Domain) -> Result<RangeSet, Memory>
    ensures { IfOk result (λ s. s ≡ domain_upper domain.now) }
{
    match domain {
        Domain::SetOf(s) => Ok(s.copy(alloc)?),
        _ => empty_set(alloc),
    }
}

fn variable_upper(alloc: Global, vars: &[FzVar], k: u64) -> Result<RangeSet, Memory>
    ensures { IfOk result (λ s. s ≡ upper_of (map variable vars.now) (var k)) }
{
    match vars.get(k as usize) {
        Some(v) => domain_upper(alloc, &v.domain),
        None => empty_set(alloc),
    }
}

// The greatest set that a set may be; the empty set for anything else.
pub(crate) fn upper_of(alloc: Global, vars: &[FzVar], a: &Arg) -> Result<RangeSet, Memory>
    ensures { IfOk result (λ s. s ≡ upper_of (map variable vars.now) (plain a.now)) }
{
    match a {
        Arg::Set(s) => Ok(s.copy(alloc)?),
        Arg::Var(k) => variable_upper(alloc, vars, *k),
        _ => empty_set(alloc),
    }
}

// The bounds of the input at a place.
pub(crate) fn number_at(vars: &[FzVar], inputs: &[Arg], k: usize) -> (i64, i64)
    ensures { result ≡ number_ends (map variable vars.now) (map argument inputs.now) k }
{
    match inputs.get(k) {
        Some(a) => ends_of(vars, a),
        None => (0, 0),
    }
}

// The greatest set of the input at a place.
pub(crate) fn upper_at(
    alloc: Global,
    vars: &[FzVar],
    inputs: &[Arg],
    k: usize,
) -> Result<RangeSet, Memory>
    ensures { IfOk result (λ s. s ≡ upper_at (map variable vars.now) (map argument inputs.now) k) }
{
    match inputs.get(k) {
        Some(a) => upper_of(alloc, vars, a),
        None => empty_set(alloc),
    }
}

// Whether a place, from 1, lies in the bounds of an index.
pub(crate) fn is_reached(index: (i64, i64), place: usize) -> bool
    ensures { result ≡ is_within index (pos place) }
{
    index.0 as i128 <= place as i128 && place as i128 <= index.1 as i128
}

// The elements of an array; none of anything else.
fn elements_of(a: &Arg) -> &[Arg]
    ensures { plains result.now ≡ elements_in (argument a.now) }
{
    match a {
        Arg::Array(items) => items.as_slice(),
        _ => &[],
    }
}

/// The elements of the input at a place, from 0; none where there is no array.
pub fn elements_at(inputs: &[Arg], k: usize) -> &[Arg]
    ensures { plains result.now ≡ elements_at (map argument inputs.now) k }
{
    match inputs.get(k) {
        Some(a) => elements_of(a),
        None => &[],
    }
}
