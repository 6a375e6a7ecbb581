// What calls of globals are refused for.

ghost use Rattle.std.specs.Prelude.{◌≡◌, map};
ghost use Rattle.mz_globals.specs.Givens as words;
ghost use Rattle.mz_globals.specs.Table as table;
ghost use Rattle.mz_eval_globals.specs.Views.{plain_given};
ghost use Rattle.mz_eval_globals.specs.StepsRefusals.{outside_by, refusal_by_bounds};

use crate::apply::checks::checks_of;
use crate::apply::givens::Given;
use crate::apply::misfits::{givens_at, is_misfit};
use crate::apply::sums::first_outside;
use mz_globals::{Checks, Global, Refusal};

fn negative_in(ends: &[(i64, i64)]) -> Option<i64>
    ensures { result ≡ words.negative_in ends.now }
{
    for e in ends {
        if e.0 < 0 {
            return Some(e.0);
        }
    }
    None
}

/// The first lower bound that is negative.
fn first_negative(gs: &[Given]) -> Option<i64>
    ensures { result ≡ words.first_negative (map plain_given gs.now) }
{
    for g in gs {
        if let Some(n) = negative_in(&g.ends) {
            return Some(n);
        }
    }
    None
}

fn outside_of(checks: Checks, gs: &[Given]) -> Option<i128>
    ensures { result ≡ outside_by checks (map plain_given gs.now) }
{
    match first_outside(checks.sums, gs) {
        Some(n) => Some(n),
        None => first_outside(checks.more_sums, gs),
    }
}

/// The refusal by bounds alone.
fn refusal_by_bounds(checks: Checks, gs: &[Given]) -> Option<Refusal>
    ensures { result ≡ refusal_by_bounds checks (map plain_given gs.now) }
{
    match first_negative(givens_at(checks.nonnegative, gs)) {
        Some(n) => Some(Refusal::Negative(n)),
        None => match outside_of(checks, gs) {
            Some(n) => Some(Refusal::Outside(n)),
            None => None,
        },
    }
}

/// What a call is refused for, by what is known of its arguments: first arrays that don't fit each
/// other, then a negative bound, then a sum. Takes no memory.
pub fn refusal_of(g: Global, gs: &[Given]) -> Option<Refusal>
    ensures { result ≡ table.refusal_of g (map plain_given gs.now) }
{
    let checks = checks_of(g);
    if is_misfit(checks.fit, gs) {
        Some(Refusal::Misfit)
    } else {
        refusal_by_bounds(checks, gs)
    }
}
