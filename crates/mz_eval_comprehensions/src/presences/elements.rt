// Elements that may be absent.

ghost use Rattle.std.specs.Prelude.{◌≡◌, IfOk, Some};
ghost use Rattle.mz_arena.specs.Values as terms;
ghost use Rattle.mz_meaning.specs.Cells.{held};
ghost use Rattle.mz_meaning.specs.Comprehensions as comprehensions;
ghost use Rattle.mz_meaning.specs.Comprehensions.{absent_unless};
ghost use Rattle.mz_meaning.specs.Runs.{give};
ghost use Rattle.mz_symbol.specs.Makes.{GoesOnBy, Means};
ghost use Rattle.mz_symbol_rows.specs.RowValues.{argument};
ghost use Rattle.mz_eval_cells.specs.Views.{seen};
ghost use Rattle.mz_eval_comprehensions.specs.Presences.{presence_seen, where_true};

use crate::presences::conditions::both_node;
use crate::presences::types::Presence;
use mz_arena::Id;
use mz_base::{Memory, Stop};
use mz_core::Base;
use mz_eval_cells::{Bounds, Known, bounds_in};
use mz_eval_symbols::{cell_of_symbol, symbol_in};
use mz_symbol::{Run, Symbol};
use std::alloc::Global;

fn occurrence(s: Symbol) -> Result<Id, Memory>
    ensures { IfOk result (λ o. s.occurs ≡ Some o) }
{
    match s.occurs {
        Some(o) => Ok(o),
        None => Err(Memory),
    }
}

// an option that is absent where a node isn't true, and else what it was
#[tactic(auto, using(crate::proofs::Occurring::absent_else))]
fn absent_else(run: &mut Run, d: Id, x: Symbol) -> Result<Symbol, Stop>
    ensures goes { GoesOnBy 6 run.old run.new }
    ensures means { Means argument result run.old run.new (λ r. give (held r.mode (absent_unless (terms.is_true (r.term d)) (argument r x)))) }
{
    let o = occurrence(x)?;
    let occurs = both_node(run, d, o)?;
    Ok(Symbol {
        base: x.base,
        occurs: Some(occurs),
        term: x.term,
    })
}

#[tactic(auto, using(crate::proofs::Occurring::present_is))]
fn present_where(alloc: Global, run: &mut Run, base: Base, d: Id, k: &Known) -> Result<Known, Stop>
    ensures goes { GoesOnBy 14 run.old run.new }
    ensures means { Means seen result run.old run.new (λ r. give (comprehensions.present r.mode (where_true r d) (seen r k.now))) }
{
    let bounds = bounds_in(alloc, k)?;
    let Bounds::One(bound) = bounds else {
        return Err(Stop::Memory);
    };
    let x = symbol_in(alloc, run, base, true, k)?;
    let s = absent_else(run, d, x)?;
    Ok(cell_of_symbol(alloc, bound, s)?)
}

/// An element of a comprehension whose head has this base: it is absent where it doesn't occur, and
/// then its own definedness doesn't count.
///
/// Out of memory too of an array, of a text, and of a set that may be absent.
pub fn present(
    alloc: Global,
    run: &mut Run,
    base: Base,
    p: Presence,
    k: Known,
) -> Result<Known, Stop>
    ensures goes { GoesOnBy 14 run.old run.new }
    ensures means { Means seen result run.old run.new (λ r. give (comprehensions.present r.mode (presence_seen r p) (seen r k))) }
{
    match p {
        Presence::Always => Ok(k),
        Presence::Where(d) => present_where(alloc, run, base, d, &k),
    }
}
