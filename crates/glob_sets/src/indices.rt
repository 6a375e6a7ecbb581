// Sets that have indices of an array alone.

ghost use Rattle.std.specs.Prelude.{◌≡◌, ◌*◌, IfOk, Some, length, true};
ghost use Rattle.std.specs.List.{list_all};
ghost use Rattle.mz_value.specs.Ranges.{IsInLimit, range_of};
ghost use Rattle.mz_arena.specs.Values.{as_set};
ghost use Rattle.mz_arena.specs.Values as terms;
ghost use Rattle.mz_symbol.specs.Makes.{GoesOnBy};
ghost use Rattle.glob_nodes.specs.Says.{Gives, Says, Tells};
ghost use Rattle.glob_sets.specs.Senses.{have_indices, is_part, lies_among};

use glob_nodes::{Numbers, Test, all_pass, made};
use mz_arena::{Id, NodeKind};
use mz_base::Memory;
use mz_symbol::Run;
use mz_value::{GREATEST, LEAST, RangeSet};
use std::alloc::Global;

/// Whether a set has indices of an array alone; false where the set is undefined. Out of memory too
/// where an end of the array's index range lies outside the limit.
#[tactic(auto, using(mz_symbol_rows::proofs::GoingOn::goes_both))]
pub(crate) fn lies_among(alloc: Global, run: &mut Run, xs: &Numbers, s: Id) -> Result<Id, Memory>
    ensures goes { GoesOnBy 6 run.old run.new }
    ensures says { IfOk result (Says run.old run.new (λ r. lies_among (xs.now.first, xs.now.last) (as_set (r.term s)))) }
{
    let places = index_node(alloc, run, xs)?;
    is_part(run, s, places)
}

/// Whether each set of the one array has indices of the other alone. Out of memory too where an end of
/// the index range lies outside the limit.
pub(crate) fn have_indices(
    alloc: Global,
    run: &mut Run,
    xs: &Numbers,
    ys: &Numbers,
) -> Result<Id, Memory>
    ensures goes { GoesOnBy (12 * length ys.now.items.items) run.old run.new }
    ensures tells { IfOk result (Tells run.old run.new (λ r. have_indices r xs.now ys.now)) }
{
    let places = index_node(alloc, run, xs)?;
    are_parts(run, places, &ys.items)
}

fn are_parts(run: &mut Run, of: Id, sets: &[Id]) -> Result<Id, Memory>
    ensures goes { GoesOnBy (12 * length sets.now) run.old run.new }
    ensures tells { IfOk result (Tells run.old run.new (λ r. list_all (λ s. is_part r s of) sets.now)) }
{
    let id = all_pass(run, &IsPart { of }, sets)?;
    Ok(id)
}

/// Parts of a set.
#[derive(Clone, Copy)]
struct IsPart {
    of: Id,
}

impl Test<Id> for IsPart {
    ghost use Rattle.glob_sets.specs.Senses.{is_part};

    ghost holds = { λ c s r. is_part r s c.of };

    ghost room = { λ c. 6 };

    fn test(&self, run: &mut Run, x: &Id) -> Result<Id, Memory> {
        let id = is_part(run, *x, self.of)?;
        Ok(id)
    }
}

/// Whether a set is part of another; false where one of them is undefined.
fn is_part(run: &mut Run, s: Id, of: Id) -> Result<Id, Memory>
    ensures goes { GoesOnBy 6 run.old run.new }
    ensures says { IfOk result (Says run.old run.new (λ r. is_part r s of)) }
{
    made(run, NodeKind::Subset, s, of)
}

/// The node of the set of an array's indices.
#[tactic(auto, using(glob_nodes::proofs::IntegerNodes::stays))]
fn index_node(alloc: Global, run: &mut Run, xs: &Numbers) -> Result<Id, Memory>
    ensures goes { GoesOnBy 0 run.old run.new }
    ensures gives { IfOk result (Gives run.old run.new (λ _. Some (terms.set (range_of xs.now.first xs.now.last)))) }
{
    let set = index_set(alloc, xs.first, xs.last)?;
    set_node(run, set)
}

fn set_node(run: &mut Run, set: RangeSet) -> Result<Id, Memory>
    ensures goes { GoesOnBy 0 run.old run.new }
    ensures gives { IfOk result (Gives run.old run.new (λ _. Some (terms.set set))) }
{
    match run.set_term(set) {
        Ok(id) => Ok(id),
        Err(_) => Err(Memory),
    }
}

/// The integers from one to another. Out of memory too where one of them lies outside the limit.
fn index_set(alloc: Global, first: i64, last: i64) -> Result<RangeSet, Memory>
    ensures { IfOk result (λ s. s ≡ range_of first last) }
{
    if !is_in_limit(first) {
        return Err(Memory);
    }
    if !is_in_limit(last) {
        return Err(Memory);
    }
    let set = RangeSet::range(alloc, first, last)?;
    Ok(set)
}

fn is_in_limit(n: i64) -> bool
    ensures { result ≡ true → IsInLimit n }
{
    LEAST <= n && n <= GREATEST
}
