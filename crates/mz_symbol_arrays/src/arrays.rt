// Symbols one by one → a line.

ghost use Rattle.std.specs.Prelude.{◌≡◌, ◌*◌, ◌+◌, IfOk, length, slice_get};
ghost use Rattle.mz_meaning.specs.Runs.{give};
ghost use Rattle.mz_symbol.specs.Readings.{Reading, Reads};
ghost use Rattle.mz_symbol.specs.Makes.{GoesOnBy, Means};
ghost use Rattle.mz_symbol_arrays.specs.ArrayValues.{all_argued};
ghost use Rattle.mz_symbol_arrays.specs.StepsArrays.{MakesItems, OneMore};

use crate::items::{both_node, item};
use mz_arena::Id;
use mz_base::Stop;
use mz_symbol::{Run, Symbol};
use std::alloc::Global;

/// The elements so far, and the node that is true where each is there.
#[derive(Drop)]
struct Made {
    all: Vec<Symbol>,
    defined: Id,
}

fn nth(items: &[Symbol], n: u64) -> Option<Symbol>
    ensures { result ≡ slice_get items.now n }
{
    match items.get(n as usize) {
        None => None,
        Some(s) => Some(*s),
    }
}

/// One element more.
#[tactic(auto, using(mz_symbol_rows::proofs::GoingOn::goes_both, mz_symbol_rows::proofs::GoingOn::goes_most))]
fn with_item(run: &mut Run, items: &[Symbol], i: u64, made: Made) -> Result<Made, Stop>
    ensures goes { GoesOnBy 34 run.old run.new }
    ensures more { IfOk result (λ m. (r : Reading) → Reads r run.new → OneMore r run.old run.new items.now i made.all.items m.all.items made.defined m.defined) }
    ensures count { IfOk result (λ m. length m.all.items ≡ length made.all.items + 1) }
{
    let Made {
        all: before,
        defined,
    } = made;
    let Some(s) = nth(items, i) else {
        return Err(Stop::Memory);
    };
    let p = item(run, s)?;
    let both = both_node(run, defined, p.1)?;
    let mut all = before;
    all.push(p.0)?;
    Ok(Made { all, defined: both })
}

#[tactic(auto, using(mz_symbol_rows::proofs::GoingOn::goes_most))]
fn made_items(alloc: Global, run: &mut Run, items: &[Symbol], count: u64) -> Result<Made, Stop>
    ensures goes { GoesOnBy (34 * count) run.old run.new }
    ensures made { IfOk result (λ m. (r : Reading) → Reads r run.new → MakesItems r run.old run.new items.now m.all.items m.defined) }
    ensures count { IfOk result (λ m. length m.all.items ≡ count) }
{
    let yes = run.truth_node(true)?;
    let none = Vec::new(alloc);
    let mut made = Made {
        all: none,
        defined: yes,
    };
    for i in 0..count {
        made = with_item(run, items, i, made)?;
    }
    Ok(made)
}

/// The line of what symbols are as arguments, which is defined where each of them is there.
///
/// What the line and its lists may cost the caller's work has to pay for. Out of memory too where one
/// is neither a truth value, a number, a case, nor an option of these, nor a set.
pub fn line_of(alloc: Global, run: &mut Run, items: &[Symbol]) -> Result<u64, Stop>
    ensures goes { GoesOnBy (50 * length items.now) run.old run.new }
    ensures means { Means (λ r. r.line) result run.old run.new (λ r. give (all_argued r.term items.now)) }
{
    let count = items.len() as u64;
    let Ok(made) = made_items(alloc, run, items, count) else {
        return Err(Stop::Memory);
    };
    let line = run.push_line(made.defined, made.all)?;
    Ok(line)
}
