// Sums whose bounds leave the limit.

ghost use Rattle.std.specs.Prelude.{◌≡◌, ◌≤◌, length, map};
ghost use Rattle.mz_interval.specs.Rows.{sum_of};
ghost use Rattle.mz_globals.specs.Lists.{windows};
ghost use Rattle.mz_globals.specs.Givens as words;
ghost use Rattle.mz_eval_globals.specs.Views.{plain_given};

use crate::apply::givens::Given;
use crate::apply::misfits::{ends_at, number_at};
use mz_builtin_arguments::is_number;
use mz_globals::Sums;
use mz_operations::{Arith, Fold};
use mz_operations_bounds::{arith_ends, folded_ends};

/// The bound that lies outside the limit, the lower one first.
fn outside(e: &(i128, i128)) -> Option<i128>
    ensures { result ≡ words.outside e.now }
{
    if !is_number(e.0) {
        Some(e.0)
    } else if !is_number(e.1) {
        Some(e.1)
    } else {
        None
    }
}

/// The bound of the sum of two elements that lies outside.
#[tactic(auto, unfolding(mz_operations::specs::Bounds::arith_ends))]
fn sum_outside(e: &(i64, i64), f: &(i64, i64)) -> Option<i128>
    ensures { result ≡ words.outside (sum_of e.now f.now) }
{
    let sum = arith_ends(Arith::Add, e, f);
    outside(&sum)
}

/// The first sum of two elements at one place of which a bound lies outside.
#[tactic(auto, using(crate::proofs::Outside::sum_found, crate::proofs::Outside::sum_passed, crate::proofs::Outside::no_first, crate::proofs::Outside::no_second))]
fn sums_outside(es: &[(i64, i64)], fs: &[(i64, i64)]) -> Option<i128>
    ensures { result ≡ words.first_outside (words.sums_of es.now fs.now) }
{
    for k in 0..es.len() {
        if k == fs.len() {
            return None;
        }
        if let Some(n) = sum_outside(&es[k], &fs[k]) {
            return Some(n);
        }
    }
    None
}

/// The bound of the sum of all elements that lies outside.
fn whole_outside(es: &[(i64, i64)]) -> Option<i128>
    ensures { result ≡ words.outside (words.whole es.now) }
{
    let sum = folded_ends(Fold::Sum, es);
    outside(&sum)
}

#[tactic(auto, using(crate::proofs::Outside::window_found, crate::proofs::Outside::window_passed, crate::proofs::Outside::windows_passed))]
fn windows_of(size: usize, es: &[(i64, i64)]) -> Option<i128>
    requires { size ≤ length es.now }
    ensures { result ≡ words.first_outside (map words.whole (windows size es.now)) }
{
    for k in 0..es.len() - size + 1 {
        if let Some(n) = whole_outside(&es[k..k + size]) {
            return Some(n);
        }
    }
    None
}

/// The first sum of consecutive elements, as many as the number says, of which a bound lies
/// outside.
#[tactic(auto, using(crate::proofs::Outside::none_longer))]
fn windows_outside(number: Option<i64>, es: &[(i64, i64)]) -> Option<i128>
    ensures { result ≡ words.first_outside (words.window_sums number es.now) }
{
    let n = number?;
    let size = n.unsigned_abs();
    if size as u128 <= es.len() as u128 {
        windows_of(size as usize, es)
    } else {
        None
    }
}

/// The first sum of which a bound lies outside, with this bound.
pub(crate) fn first_outside(sums: Sums, gs: &[Given]) -> Option<i128>
    ensures { result ≡ words.first_outside (words.sums_in sums (map plain_given gs.now)) }
{
    match sums {
        Sums::Nothing => None,
        Sums::Both(j, k) => sums_outside(ends_at(gs, j), ends_at(gs, k)),
        Sums::Whole(k) => whole_outside(ends_at(gs, k)),
        Sums::Windows { length, items } => {
            windows_outside(number_at(gs, length), ends_at(gs, items))
        }
    }
}
