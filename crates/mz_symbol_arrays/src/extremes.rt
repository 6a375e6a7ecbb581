// The least and the greatest element.

ghost use Rattle.std.specs.Prelude.{◌≡◌, List, false, true};
ghost use Rattle.mz_value.specs.Ranges.{Range};
ghost use Rattle.mz_operations.specs.declared.row.ScalarRow.TheVariants as row;
ghost use Rattle.mz_arena.specs.Charges.{charge_of};
ghost use Rattle.mz_arena.specs.Entries.{is_free};
ghost use Rattle.mz_arena.specs.Values.{extreme_term};
ghost use Rattle.mz_meaning.specs.Cells.{held};
ghost use Rattle.mz_meaning.specs.Runs.{give};
ghost use Rattle.mz_symbol.specs.Readings.{symbol_seen};
ghost use Rattle.mz_symbol.specs.Makes.{GoesOnBy, Means};
ghost use Rattle.mz_symbol_rows.specs.StepsNodes.{meaning_over, symbol_of};
ghost use Rattle.mz_symbol_arrays.specs.LineValues.{array_row};
ghost use Rattle.mz_symbol_arrays.specs.StepsExtremes.{AreInts};
ghost use Rattle.mz_core.specs.declared.types.Base.TheVariants as base;

use crate::lines::defined;
use mz_arena::{Id, Node, NodeKind};
use mz_base::Stop;
use mz_core::Base;
use mz_operations::Side;
use mz_symbol::{Lists, Run, Symbol};
use mz_symbol_rows::options::guarded;

/// `min` and `max` of an array of integers. Undefined where the array is, and of none.
///
/// Out of memory too where there is no such array, or an element is no integer.
#[tactic(auto, using(mz_symbol_rows::proofs::GoingOn::goes_both, mz_symbol_rows::proofs::GoingOn::goes_most))]
pub fn extreme(run: &mut Run, side: Side, line: u64) -> Result<Symbol, Stop>
    ensures goes { GoesOnBy 28 run.old run.new }
    ensures means { (ix : List Range) → Means symbol_seen result run.old run.new (λ r. give (held r.mode (array_row r (row.Extreme side) ix line))) }
{
    let Ok(lists) = run.lists(line) else {
        return Err(Stop::Memory);
    };
    let found = defined(run, line)?;
    if !are_ints(lists, found.1) {
        return Err(Stop::Memory);
    }
    let term = extreme_node(run, side, lists.terms)?;
    let number = guarded(run, found.0, whole(term))?;
    Ok(number)
}

/// Whether elements, this many, are integers and no options.
fn are_ints(lists: Lists, count: u64) -> bool
    ensures { result ≡ true → AreInts lists count }
{
    if lists.occurs.is_some() {
        return false;
    }
    match lists.base {
        Base::Int => true,
        _ => count == 0,
    }
}

fn made(run: &mut Run, kind: NodeKind, a: Id) -> Result<Id, Stop>
    requires { is_free kind ≡ false }
    ensures goes { GoesOnBy (charge_of kind) run.old run.new }
    ensures means { Means (λ r. r.term) result run.old run.new (λ r. give (meaning_over kind a 0 r)) }
{
    let n = Node {
        kind,
        a,
        b: 0,
        c: 0,
        number: 0,
    };
    run.node(&n)
}

fn extreme_node(run: &mut Run, side: Side, list: Id) -> Result<Id, Stop>
    ensures goes { GoesOnBy 8 run.old run.new }
    ensures means { Means (λ r. r.term) result run.old run.new (λ r. give (extreme_term side (r.term list))) }
{
    match side {
        Side::Least => made(run, NodeKind::Min, list),
        Side::Greatest => made(run, NodeKind::Max, list),
    }
}

fn whole(term: Id) -> Symbol
    ensures { result ≡ symbol_of base.Int term }
{
    Symbol {
        base: Base::Int,
        occurs: None,
        term,
    }
}
