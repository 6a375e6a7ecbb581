// Truth values as options, where others are options.

ghost use Rattle.std.specs.Prelude.{◌≡◌, ◌*◌, IfOk, None, length, true};
ghost use Rattle.mz_core.specs.declared.types.Base.TheVariants as base;
ghost use Rattle.mz_arena.specs.Values.{to_int_term};
ghost use Rattle.mz_meaning.specs.Runs.{give};
ghost use Rattle.mz_symbol.specs.Readings.{Reading, Reads};
ghost use Rattle.mz_symbol.specs.Makes.{GoesOnBy, Means};
ghost use Rattle.mz_symbol_access.specs.Standing.{ReplacesAll};
ghost use Rattle.mz_symbol_access.specs.StepsChoose.{PushesLifted, Replaces, ReplacesAt};

use crate::items::item;
use mz_arena::{Id, Node, NodeKind};
use mz_base::{Memory, Stop};
use mz_core::Base;
use mz_symbol::{Run, Symbol};
use std::alloc::Global;

/// The integer node of a Boolean one.
fn whole_node(run: &mut Run, x: Id) -> Result<Id, Stop>
    ensures goes { GoesOnBy 4 run.old run.new }
    ensures means { Means (λ r. r.term) result run.old run.new (λ r. give (to_int_term (r.term x))) }
{
    let node = Node {
        kind: NodeKind::ToInt,
        a: x,
        b: 0,
        c: 0,
        number: 0,
    };
    run.node(&node)
}

fn is_bool(b: Base) -> bool
    ensures { result ≡ true → b ≡ base.Bool }
{
    match b {
        Base::Bool => true,
        _ => false,
    }
}

fn is_truth(p: Symbol) -> bool
    ensures { result ≡ true → (p.base ≡ base.Bool) × (p.occurs ≡ None) }
{
    is_bool(p.base) && p.occurs.is_none()
}

/// Whether a truth value that is no option stands beside an option.
pub(crate) fn stands_beside(p: Symbol, q: Symbol) -> bool
    ensures { result ≡ true → (p.base ≡ base.Bool) × (p.occurs ≡ None) }
{
    is_truth(p) && q.occurs.is_some()
}

/// A truth value that is no option, as an option that is there.
#[tactic(auto, using(mz_symbol_rows::proofs::GoingOn::goes_both))]
pub(crate) fn as_option(run: &mut Run, p: Symbol) -> Result<Symbol, Memory>
    requires { (p.base ≡ base.Bool) × (p.occurs ≡ None) }
    ensures goes { GoesOnBy 4 run.old run.new }
    ensures replaces { IfOk result (λ x. (r : Reading) → Reads r run.new → Replaces r run.old run.new p x) }
{
    let Ok(term) = whole_node(run, p.term) else {
        return Err(Memory);
    };
    let Ok(there) = run.truth_node(true) else {
        return Err(Memory);
    };
    Ok(Symbol {
        base: p.base,
        occurs: Some(there),
        term,
    })
}

/// The same of an element, where it is a truth value that is no option.
#[tactic(auto, using(mz_symbol_rows::proofs::GoingOn::goes_most, mz_symbol_arrays::proofs::LineLaws::goes_none, crate::proofs::StandingLaws::replaces_itself))]
fn lifted(run: &mut Run, p: Symbol) -> Result<Symbol, Memory>
    ensures goes { GoesOnBy 4 run.old run.new }
    ensures replaces { IfOk result (λ x. (r : Reading) → Reads r run.new → Replaces r run.old run.new p x) }
{
    if is_truth(p) {
        return as_option(run, p);
    }
    Ok(p)
}

/// The same of that at a place.
fn lifted_at(run: &mut Run, items: &[Symbol], i: u64) -> Result<Symbol, Memory>
    ensures goes { GoesOnBy 4 run.old run.new }
    ensures replaces { IfOk result (λ x. (r : Reading) → Reads r run.new → ReplacesAt r run.old run.new items.now i x) }
{
    let Some(p) = item(items, i) else {
        return Err(Memory);
    };
    let one = lifted(run, p)?;
    Ok(one)
}

/// One element more.
fn push_lifted(
    run: &mut Run,
    items: &[Symbol],
    i: u64,
    mut all: Vec<Symbol>,
) -> Result<Vec<Symbol>, Memory>
    ensures goes { GoesOnBy 4 run.old run.new }
    ensures pushes { IfOk result (λ zs. PushesLifted run.old run.new items.now i all.items zs.items) }
{
    let one = lifted_at(run, items, i)?;
    all.push(one)?;
    Ok(all)
}

/// These elements, of which there are so many, each an option where it is a truth value.
fn lifted_items(
    alloc: Global,
    run: &mut Run,
    items: &[Symbol],
    count: u64,
) -> Result<Vec<Symbol>, Memory>
    requires { length items.now ≡ count }
    ensures goes { GoesOnBy (4 * count) run.old run.new }
    ensures count { IfOk result (λ xs. length xs.items ≡ count) }
    ensures replaces { IfOk result (λ xs. (r : Reading) → Reads r run.new → ReplacesAll r run.old run.new items.now xs.items) }
{
    let mut all = Vec::new(alloc);
    for i in 0..count {
        all = push_lifted(run, items, i, all)?;
    }
    Ok(all)
}

// Whether one is an option.
fn have_option(items: &[Symbol]) -> bool {
    items.iter().any(|s| s.occurs.is_some())
}

/// These elements, which may be of two arrays: where one is an option, the truth values that are none
/// become options that are there.
#[tactic(auto, using(mz_symbol_rows::proofs::GoingOn::goes_most, mz_symbol_arrays::proofs::LineLaws::goes_none))]
pub fn alike_items(alloc: Global, run: &mut Run, items: Vec<Symbol>) -> Result<Vec<Symbol>, Memory>
    ensures goes { GoesOnBy (4 * length items.items) run.old run.new }
    ensures count { IfOk result (λ xs. length xs.items ≡ length items.items) }
    ensures replaces { IfOk result (λ xs. (r : Reading) → Reads r run.new → ReplacesAll r run.old run.new items.items xs.items) }
{
    if !have_option(&items) {
        return Ok(items);
    }
    let count = items.len() as u64;
    let all = lifted_items(alloc, run, &items, count)?;
    Ok(all)
}
