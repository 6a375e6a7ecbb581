// What calls of globals cost, from the sizes of their arguments.

ghost use Rattle.std.specs.Prelude.{◌≡◌, ◌+◌, ◌*◌, ◌<◌, ◌≤◌, ◌^◌, min, sum, take, drop};
ghost use Rattle.mz_operations.specs.Costs.{cost_limit};
ghost use Rattle.mz_globals.specs.Table as table;

use crate::apply::checks::checks_of;
use mz_globals::{Cost, Global, Places};

/// The greatest cost, 2^62.
const COST_LIMIT: u128 = 1 << 62;

/// A number, or the greatest cost where it is greater.
fn capped(n: u128) -> u128
    ensures value { result ≡ min cost_limit n }
    ensures bound { result ≤ 2 ^ 62 }
{
    n.min(COST_LIMIT)
}

#[tactic(auto, using(std::proofs::lemmas::List::Sums::sum_by_more))]
fn total(sizes: &[u64]) -> u128
    ensures value { result ≡ sum sizes.now }
    ensures bound { result < 2 ^ 127 }
{
    let mut total = 0;
    for size in sizes {
        total += *size as u128;
    }
    total
}

/// The sizes of consecutive arguments.
fn sizes_at(p: Places, sizes: &[u64]) -> &[u64]
    ensures { result.now ≡ take p.count (drop p.first sizes.now) }
{
    if p.first as u128 >= sizes.len() as u128 {
        return &[];
    }
    let rest = &sizes[p.first as usize..];
    if p.count as u128 >= rest.len() as u128 {
        return rest;
    }
    &rest[..p.count as usize]
}

fn size_at(sizes: &[u64], k: usize) -> u64
    ensures { result ≡ table.size_at sizes.now k }
{
    if k < sizes.len() { sizes[k] } else { 0 }
}

/// 1 and the square of a number.
#[tactic(auto, using(crate::proofs::Caps::capped_square))]
fn square(n: u128) -> u64
    ensures { result ≡ min cost_limit (1 + n * n) }
{
    let n = capped(n);
    capped(1 + n * n) as u64
}

/// 1 and for each of `word` letters one more than there are states and letters.
#[tactic(auto, using(crate::proofs::Caps::capped_steps))]
fn steps(word: u64, states: u64, letters: u64) -> u64
    ensures { result ≡ min cost_limit (1 + word * (1 + states * letters)) }
{
    let each = capped(states as u128 * letters as u128);
    capped(1 + word as u128 * (1 + each)) as u64
}

fn full_cost(cost: Cost, sizes: &[u64]) -> u64
    ensures { result ≡ min cost_limit (table.full_cost cost sizes.now) }
{
    match cost {
        Cost::Elements(p) => capped(1 + total(sizes_at(p, sizes))) as u64,
        Cost::Pairs(p) => square(total(sizes_at(p, sizes))),
        Cost::Steps => steps(size_at(sizes, 0), size_at(sizes, 1), size_at(sizes, 2)),
    }
}

/// What a call costs, 2^62 at most. `sizes` has for each argument the number of elements of an
/// array or a set, or the value of an integer that is known and isn't negative; else 0. Takes no
/// memory.
pub fn global_cost(g: Global, sizes: &[u64]) -> u64
    ensures { result ≡ table.global_cost g sizes.now }
{
    let checks = checks_of(g);
    full_cost(checks.cost, sizes)
}
