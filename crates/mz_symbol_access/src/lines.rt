// One of two arrays, element by element.

ghost use Rattle.std.specs.Prelude.{◌≡◌, ◌*◌, ◌+◌, ℕ, IfOk, length, slice_get};
ghost use Rattle.mz_arena.specs.Values.{Term};
ghost use Rattle.mz_meaning.specs.Runs.{give};
ghost use Rattle.mz_symbol.specs.Symbols.{AreWhole, elements_value};
ghost use Rattle.mz_symbol.specs.Runs.{ReadsNodes};
ghost use Rattle.mz_symbol.specs.Makes.{GoesOnBy, Means};
ghost use Rattle.mz_symbol_arrays.specs.LineValues.{count_of};
ghost use Rattle.mz_symbol_access.specs.ChosenValues.{chosen_line};
ghost use Rattle.mz_symbol_access.specs.StepsLines.{HasItems};

use crate::items::chosen_items;
use crate::single::if_node;
use mz_arena::Id;
use mz_base::{Memory, Stop};
use mz_symbol::{Run, Symbol};
use std::alloc::Global;

/// An array without its index ranges: the node that is 1 where it is defined, and its elements, whose
/// nodes have values there.
#[derive(Drop)]
pub struct Elements {
    pub defined: Id,
    pub items: Vec<Symbol>,
}

/// The elements of the first of two arrays where a Boolean node is true, else of the second. Index
/// ranges are no part of these arrays: where they differ, the caller refuses.
///
/// They are no array of the run yet, and no credit for their list is in what they cost: it comes with
/// `push_line`.
///
/// Out of memory too where there is no such array, where there are more elements in one than in the
/// other, and where they are of two bases. A truth value beside an option becomes one.
#[tactic(auto, using(mz_symbol_rows::proofs::GoingOn::goes_both, mz_symbol_rows::proofs::GoingOn::goes_most))]
pub fn choose_elements(
    alloc: Global,
    run: &mut Run,
    cond: Id,
    p: u64,
    q: u64,
) -> Result<Elements, Stop>
    ensures goes { GoesOnBy (36 * count_of (slice_get run.old.lines p) + 16) run.old run.new }
    ensures count { IfOk result (λ x. length x.items.items ≡ count_of (slice_get run.old.lines p)) }
    ensures whole { IfOk result (λ x. (t : ℕ → Term) → ReadsNodes t run.new.arena → AreWhole t x.defined x.items.items) }
    ensures means { Means (λ r x. elements_value r.term x.defined x.items.items) result run.old run.new
        (λ r. give (chosen_line r cond p q)) }
{
    let first = elements_of(alloc, run, p)?;
    let second = elements_of(alloc, run, q)?;
    let count = first.items.len() as u64;
    if second.items.len() as u64 != count {
        return Err(Stop::Memory);
    }
    let defined = if_node(run, cond, first.defined, second.defined)?;
    let Ok(items) = chosen_items(alloc, run, cond, &first.items, &second.items, count) else {
        return Err(Stop::Memory);
    };
    Ok(Elements { defined, items })
}

/// The elements of an array of the run.
fn elements_of(alloc: Global, run: &Run, line: u64) -> Result<Elements, Memory>
    ensures { IfOk result (λ x. HasItems run.now line x.defined x.items.items) }
{
    let Some(l) = run.line(line) else {
        return Err(Memory);
    };
    let items = Vec::from_slice(alloc, &l.items)?;
    Ok(Elements {
        defined: l.defined,
        items,
    })
}
