// One var array after another.

ghost use Rattle.std.specs.Prelude.{◌≡◌, ◌+◌, ◌*◌, ◌++◌, IfOk, Some, length, slice_get};
ghost use Rattle.std.specs.Option.{option_map};
ghost use Rattle.mz_arena.specs.Values.{and_term};
ghost use Rattle.mz_meaning.specs.Runs.{give};
ghost use Rattle.mz_symbol.specs.Makes.{GoesOnBy, Means};
ghost use Rattle.mz_symbol_arrays.specs.LineValues.{count_of};
ghost use Rattle.mz_symbol_access.specs.JoinValues.{joined_line};
ghost use Rattle.mz_symbol_access.specs.StepsJoins.{AreJoined};

use crate::alike_items;
use mz_arena::{Id, Node, NodeKind};
use mz_base::{Memory, Stop};
use mz_symbol::{Run, Symbol};
use mz_symbol_arrays::lines::defined;
use std::alloc::{AllocError, Global};

/// The elements of an array.
fn items_of(alloc: Global, run: &Run, line: u64) -> Result<Vec<Symbol>, Memory>
    ensures { IfOk result (λ v. option_map (λ l. l.items.items) (slice_get run.now.lines line) ≡ Some v.items) }
{
    let Some(l) = run.line(line) else {
        return Err(Memory);
    };
    let items = Vec::from_slice(alloc, &l.items)?;
    Ok(items)
}

/// Some symbols and then others.
fn both(first: Vec<Symbol>, second: &[Symbol]) -> Result<Vec<Symbol>, AllocError>
    ensures { IfOk result (λ v. v.items ≡ first.items ++ second.now) }
{
    let mut all = first;
    all.extend_from_slice(second)?;
    Ok(all)
}

fn joined_items(alloc: Global, run: &Run, x: u64, y: u64) -> Result<Vec<Symbol>, Memory>
    ensures { IfOk result (AreJoined run.now x y) }
{
    let first = items_of(alloc, run, x)?;
    let second = items_of(alloc, run, y)?;
    let all = both(first, &second)?;
    Ok(all)
}

fn and_node(run: &mut Run, a: Id, b: Id) -> Result<Id, Stop>
    ensures goes { GoesOnBy 6 run.old run.new }
    ensures means { Means (λ r. r.term) result run.old run.new (λ r. give (and_term (r.term a) (r.term b))) }
{
    let n = Node {
        kind: NodeKind::And,
        a,
        b,
        c: 0,
        number: 0,
    };
    run.node(&n)
}

/// The elements of an array and then those of another, as a new array, which is defined where both
/// are.
///
/// Of truth values beside options each is an option. What the array and its lists may cost the
/// caller's work has to pay for. Out of memory too where there is no such array.
pub fn join(alloc: Global, run: &mut Run, x: u64, y: u64) -> Result<u64, Stop>
    ensures goes { GoesOnBy (20 * count_of (slice_get run.old.lines x) + 20 * count_of (slice_get run.old.lines y) + 6) run.old run.new }
    ensures means { Means (λ r. r.line) result run.old run.new (λ r. give (joined_line r x y)) }
{
    let p = defined(run, x)?;
    let q = defined(run, y)?;
    let items = joined_items(alloc, run, x, y)?;
    let Ok(d) = and_node(run, p.0, q.0) else {
        return Err(Stop::Memory);
    };
    let Ok(all) = alike_items(alloc, run, items) else {
        return Err(Stop::Memory);
    };
    let line = run.push_line(d, all)?;
    Ok(line)
}
