// The truth value at a place, as an option's value is: an integer, which can be undefined.

ghost use Rattle.std.specs.Prelude.{◌≡◌};
ghost use Rattle.mz_index.specs.Places.{count_of};
ghost use Rattle.mz_meaning.specs.Runs.{give};
ghost use Rattle.mz_symbol.specs.Makes.{GoesOnBy, Means};
ghost use Rattle.mz_symbol_access.specs.StepsTruth.{among_term, truth_term};

use crate::nodes::{integer, made};
use crate::place::size_node;
use mz_arena::{Id, NodeKind};
use mz_base::Stop;
use mz_symbol::Run;

/// Whether a place, from 1, is one of an array with these ranges.
#[tactic(auto, using(mz_symbol_rows::proofs::GoingOn::goes_both, mz_symbol_rows::proofs::GoingOn::goes_most))]
fn among_node(run: &mut Run, ranges: &[(i64, i64)], place: Id) -> Result<Id, Stop>
    ensures goes { GoesOnBy 18 run.old run.new }
    ensures means { Means (λ r. r.term) result run.old run.new (λ r. give (among_term (count_of ranges.now) (r.term place))) }
{
    let first = integer(run, 1)?;
    let last = size_node(run, ranges)?;
    let after = made(run, NodeKind::Le, first, place)?;
    let before = made(run, NodeKind::Le, place, last)?;
    made(run, NodeKind::And, after, before)
}

/// The truth value at a place, from 1: 0 or 1, and undefined where the array has no such place.
///
/// An access to truth values is false there, and so is the integer of it: the place is asked for.
#[tactic(auto, using(mz_symbol_rows::proofs::GoingOn::goes_both, mz_symbol_rows::proofs::GoingOn::goes_most))]
pub(crate) fn truth_node(
    run: &mut Run,
    ranges: &[(i64, i64)],
    list: Id,
    place: Id,
) -> Result<Id, Stop>
    ensures goes { GoesOnBy 54 run.old run.new }
    ensures means { Means (λ r. r.term) result run.old run.new (λ r. give (truth_term (count_of ranges.now) (r.term place) (r.term list))) }
{
    let item = made(run, NodeKind::Access, place, list)?;
    let whole = made(run, NodeKind::ToInt, item, 0)?;
    let among = among_node(run, ranges, place)?;
    made(run, NodeKind::Guard, among, whole)
}
