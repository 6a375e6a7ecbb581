// What conditions, and sets that may have a number, say of the elements after them.

ghost use Rattle.std.specs.Prelude.{◌≡◌, IfOk, None, Some};
ghost use Rattle.mz_arena.specs.Values.{and_term, member_term, number};
ghost use Rattle.mz_meaning.specs.Cells.{is_true, value_of};
ghost use Rattle.mz_meaning.specs.Comprehensions as comprehensions;
ghost use Rattle.mz_meaning.specs.Comprehensions.{if_given, set_has};
ghost use Rattle.mz_meaning.specs.Runs.{give};
ghost use Rattle.mz_symbol.specs.Makes.{GoesOnBy, Means};
ghost use Rattle.mz_symbol_rows.specs.RowValues.{argument};
ghost use Rattle.mz_eval_cells.specs.Views.{seen};
ghost use Rattle.mz_eval_comprehensions.specs.Presences.{IsPlainSet, IsPlainTruth, presence_seen, where_true};

use crate::presences::types::Presence;
use mz_arena::{Id, Node, NodeKind};
use mz_base::{Memory, Stop};
use mz_core::Base;
use mz_eval_cells::Known;
use mz_eval_symbols::symbol_in;
use mz_symbol::{Run, Symbol};
use std::alloc::Global;

pub(crate) fn both_node(run: &mut Run, x: Id, y: Id) -> Result<Id, Stop>
    ensures goes { GoesOnBy 6 run.old run.new }
    ensures means { Means (λ r. r.term) result run.old run.new (λ r. give (and_term (r.term x) (r.term y))) }
{
    let node = Node {
        kind: NodeKind::And,
        a: x,
        b: y,
        c: 0,
        number: 0,
    };
    run.node(&node)
}

fn member_node(run: &mut Run, x: Id, s: Id) -> Result<Id, Stop>
    ensures goes { GoesOnBy 6 run.old run.new }
    ensures means { Means (λ r. r.term) result run.old run.new (λ r. give (member_term (r.term x) (r.term s))) }
{
    let node = Node {
        kind: NodeKind::Member,
        a: x,
        b: s,
        c: 0,
        number: 0,
    };
    run.node(&node)
}

#[tactic(auto, using(crate::proofs::Occurring::both_are))]
fn both_where(run: &mut Run, x: Id, y: Id) -> Result<Presence, Stop>
    ensures goes { GoesOnBy 6 run.old run.new }
    ensures means { Means presence_seen result run.old run.new (λ r. give (comprehensions.both_occur (where_true r x) (where_true r y))) }
{
    let id = both_node(run, x, y)?;
    Ok(Presence::Where(id))
}

fn where_with(run: &mut Run, x: Id, q: Presence) -> Result<Presence, Stop>
    ensures goes { GoesOnBy 6 run.old run.new }
    ensures means { Means presence_seen result run.old run.new (λ r. give (comprehensions.both_occur (where_true r x) (presence_seen r q))) }
{
    match q {
        Presence::Always => Ok(Presence::Where(x)),
        Presence::Where(y) => both_where(run, x, y),
    }
}

/// An element that occurs where both say so.
pub fn both_occur(run: &mut Run, p: Presence, q: Presence) -> Result<Presence, Stop>
    ensures goes { GoesOnBy 6 run.old run.new }
    ensures means { Means presence_seen result run.old run.new (λ r. give (comprehensions.both_occur (presence_seen r p) (presence_seen r q))) }
{
    match p {
        Presence::Always => Ok(q),
        Presence::Where(x) => where_with(run, x, q),
    }
}

// a Boolean that is no option
fn plain_truth(s: Symbol) -> Result<(), Memory>
    ensures { IfOk result (λ _. IsPlainTruth s) }
{
    match s.base {
        Base::Bool => match s.occurs {
            None => Ok(()),
            Some(_) => Err(Memory),
        },
        _ => Err(Memory),
    }
}

/// What a var condition says: what is after it occurs where the condition is true.
///
/// Out of memory too where it isn't a Boolean's cell, or that of an option.
#[tactic(auto, using(crate::proofs::Occurring::truth_told))]
pub fn occurs_where(alloc: Global, run: &mut Run, cond: &Known) -> Result<Presence, Stop>
    ensures goes { GoesOnBy 8 run.old run.new }
    ensures means { Means presence_seen result run.old run.new (λ r. give (Some (if_given r.mode (is_true (value_of (seen r cond.now)))))) }
{
    let s = symbol_in(alloc, run, Base::Bool, false, cond)?;
    plain_truth(s)?;
    Ok(Presence::Where(s.term))
}

// a set that is no option
fn plain_set(s: Symbol) -> Result<(), Memory>
    ensures { IfOk result (λ _. IsPlainSet s) }
{
    match s.occurs {
        Some(_) => Err(Memory),
        None => match s.base {
            Base::SetInt => Ok(()),
            Base::SetEnum(_) => Ok(()),
            _ => Err(Memory),
        },
    }
}

fn number_node(run: &mut Run, n: i64) -> Result<Id, Stop>
    ensures goes { GoesOnBy 0 run.old run.new }
    ensures means { Means (λ r. r.term) result run.old run.new (λ r. give (Some (number n))) }
{
    let node = Node {
        kind: NodeKind::Int,
        a: 0,
        b: 0,
        c: 0,
        number: n,
    };
    run.node(&node)
}

/// What a var set says of a number that it may have: it occurs where the set has it.
///
/// Out of memory too where the symbol isn't a set's, and where the number leaves the limit.
pub fn occurs_in(run: &mut Run, set: Symbol, n: i64) -> Result<Presence, Stop>
    ensures goes { GoesOnBy 6 run.old run.new }
    ensures means { Means presence_seen result run.old run.new (λ r. give (Some (if_given r.mode (set_has (argument r set) n)))) }
{
    plain_set(set)?;
    let x = number_node(run, n)?;
    let id = member_node(run, x, set.term)?;
    Ok(Presence::Where(id))
}
