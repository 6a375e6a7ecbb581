// Elements, each chosen by one condition.

ghost use Rattle.std.specs.Prelude.{◌≡◌, ◌*◌, IfOk, length, slice_get};
ghost use Rattle.mz_symbol.specs.Readings.{Reading, Reads};
ghost use Rattle.mz_symbol.specs.Makes.{GoesOnBy};
ghost use Rattle.mz_symbol_access.specs.StepsChoose.{Chooses, ChoosesAll, ChoosesAt, PushesAt};

use crate::lifting::{as_option, stands_beside};
use crate::single::picked;
use mz_arena::Id;
use mz_base::Memory;
use mz_symbol::{Run, Symbol};
use std::alloc::Global;

pub(crate) fn item(items: &[Symbol], place: u64) -> Option<Symbol>
    ensures { result ≡ slice_get items.now place }
{
    match items.get(place as usize) {
        None => None,
        Some(s) => Some(*s),
    }
}

/// One of two elements; a truth value beside an option counts as one. At most one of them is made an
/// option.
#[tactic(auto, using(mz_symbol_rows::proofs::GoingOn::goes_both, mz_symbol_rows::proofs::GoingOn::goes_most))]
fn either(run: &mut Run, c: Id, p: Symbol, q: Symbol) -> Result<Symbol, Memory>
    ensures goes { GoesOnBy 36 run.old run.new }
    ensures chooses { IfOk result (λ s. (r : Reading) → Reads r run.new → Chooses r run.old run.new c p q s) }
{
    if stands_beside(p, q) {
        let first = as_option(run, p)?;
        let one = picked(run, c, first, q)?;
        return Ok(one);
    }
    if stands_beside(q, p) {
        let second = as_option(run, q)?;
        let other = picked(run, c, p, second)?;
        return Ok(other);
    }
    let plain = picked(run, c, p, q)?;
    Ok(plain)
}

/// The element at a place of both.
fn either_at(run: &mut Run, c: Id, ps: &[Symbol], qs: &[Symbol], i: u64) -> Result<Symbol, Memory>
    ensures goes { GoesOnBy 36 run.old run.new }
    ensures chooses { IfOk result (λ s. (r : Reading) → Reads r run.new → ChoosesAt r run.old run.new c ps.now qs.now i s) }
{
    let Some(p) = item(ps, i) else {
        return Err(Memory);
    };
    let Some(q) = item(qs, i) else {
        return Err(Memory);
    };
    let one = either(run, c, p, q)?;
    Ok(one)
}

/// One element more.
fn push_either(
    run: &mut Run,
    c: Id,
    ps: &[Symbol],
    qs: &[Symbol],
    i: u64,
    mut all: Vec<Symbol>,
) -> Result<Vec<Symbol>, Memory>
    ensures goes { GoesOnBy 36 run.old run.new }
    ensures pushes { IfOk result (λ zs. PushesAt run.old run.new c ps.now qs.now i all.items zs.items) }
{
    let one = either_at(run, c, ps, qs, i)?;
    all.push(one)?;
    Ok(all)
}

/// The elements of two arrays with this many.
pub(crate) fn chosen_items(
    alloc: Global,
    run: &mut Run,
    c: Id,
    ps: &[Symbol],
    qs: &[Symbol],
    count: u64,
) -> Result<Vec<Symbol>, Memory>
    requires first { length ps.now ≡ count }
    requires second { length qs.now ≡ count }
    ensures goes { GoesOnBy (36 * count) run.old run.new }
    ensures count { IfOk result (λ ss. length ss.items ≡ count) }
    ensures chooses { IfOk result (λ ss. (r : Reading) → Reads r run.new → ChoosesAll r run.old run.new c ps.now qs.now ss.items) }
{
    let mut all = Vec::new(alloc);
    for i in 0..count {
        all = push_either(run, c, ps, qs, i, all)?;
    }
    Ok(all)
}
