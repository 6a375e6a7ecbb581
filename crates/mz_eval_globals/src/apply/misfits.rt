// Whether arrays fit each other, by what is known of them.

ghost use Rattle.std.specs.Prelude.{◌≡◌, None, map};
ghost use Rattle.mz_globals.specs.Reading as reading;
ghost use Rattle.mz_globals.specs.Givens as words;
ghost use Rattle.mz_eval_globals.specs.Views.{plain_given};

use crate::apply::givens::Given;
use mz_globals::{Fit, Places};

/// What is known of consecutive arguments.
#[tactic(auto, using(crate::proofs::Parts::part_past))]
pub(crate) fn givens_at(p: Places, gs: &[Given]) -> &[Given]
    ensures { map plain_given result.now ≡ words.givens_at p (map plain_given gs.now) }
{
    if p.first as u128 >= gs.len() as u128 {
        return &[];
    }
    let rest = &gs[p.first as usize..];
    if p.count as u128 >= rest.len() as u128 {
        return rest;
    }
    &rest[..p.count as usize]
}

/// The index ranges of the argument at a place.
fn index_at(gs: &[Given], k: usize) -> &[(i64, i64)]
    ensures { result.now ≡ (words.given_at (map plain_given gs.now) k).index }
{
    if k < gs.len() {
        gs[k].index.as_slice()
    } else {
        &[]
    }
}

/// The bounds of the elements of the argument at a place, or of the number.
pub(crate) fn ends_at(gs: &[Given], k: u64) -> &[(i64, i64)]
    ensures { result.now ≡ (words.given_at (map plain_given gs.now) k).ends }
{
    if (k as u128) < gs.len() as u128 {
        gs[k as usize].ends.as_slice()
    } else {
        &[]
    }
}

/// How many numbers a range has.
fn length_of(range: &(i64, i64)) -> u128
    ensures { result ≡ reading.length_of range.now }
{
    if range.0 <= range.1 {
        (range.1 as i128 - range.0 as i128) as u128 + 1
    } else {
        0
    }
}

fn only_length(index: &[(i64, i64)]) -> Option<u128>
    ensures { result ≡ words.only_length index.now }
{
    match index {
        [range] => Some(length_of(range)),
        _ => None,
    }
}

fn row_count(index: &[(i64, i64)]) -> Option<u128>
    ensures { result ≡ words.row_count index.now }
{
    match index {
        [range, _] => Some(length_of(range)),
        _ => None,
    }
}

fn column_count(index: &[(i64, i64)]) -> Option<u128>
    ensures { result ≡ words.column_count index.now }
{
    match index {
        [_, range] => Some(length_of(range)),
        _ => None,
    }
}

fn differ(m: Option<u128>, n: Option<u128>) -> bool
    ensures { result ≡ words.differ m n }
{
    match (m, n) {
        (Some(m), Some(n)) => m != n,
        _ => false,
    }
}

/// Whether the lengths that are known differ.
fn unlike(gs: &[Given]) -> bool
    ensures { result ≡ words.unlike None (map plain_given gs.now) }
{
    let mut found = None;
    for g in gs {
        let length = only_length(&g.index);
        if differ(found, length) {
            return true;
        }
        found = found.or(length);
    }
    false
}

fn number_in(ends: &[(i64, i64)]) -> Option<i64>
    ensures { result ≡ words.number_in ends.now }
{
    match ends {
        [] => None,
        [e, ..] => Some(e.0),
    }
}

/// The number of the par argument at a place, where it is known.
pub(crate) fn number_at(gs: &[Given], k: u64) -> Option<i64>
    ensures { result ≡ words.number_at (map plain_given gs.now) k }
{
    number_in(ends_at(gs, k))
}

fn miscounts(n: Option<i64>, count: Option<u128>) -> bool
    ensures { result ≡ words.miscounts n count }
{
    match (n, count) {
        (Some(n), Some(count)) => n < 0 || n as u128 != count,
        _ => false,
    }
}

/// Whether arrays that have to fit each other don't.
pub(crate) fn is_misfit(fit: Fit, gs: &[Given]) -> bool
    ensures { result ≡ words.is_misfit fit (map plain_given gs.now) }
{
    match fit {
        Fit::Free => false,
        Fit::Alike(p) => unlike(givens_at(p, gs)),
        Fit::Columns => differ(only_length(index_at(gs, 0)), column_count(index_at(gs, 1))),
        Fit::Automaton => {
            miscounts(number_at(gs, 1), row_count(index_at(gs, 3)))
                || miscounts(number_at(gs, 2), column_count(index_at(gs, 3)))
        }
    }
}
