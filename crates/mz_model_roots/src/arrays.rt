// The roots of arrays of variables.

ghost use Rattle.std.specs.Prelude.{◌≡◌, ◌+◌, ◌*◌, [], ◌∷◌, List, IfOk, length};
ghost use Rattle.mz_value.specs.Ranges.{Range};
ghost use Rattle.mz_symbol.specs.Makes.{GoesOnBy};
ghost use Rattle.mz_eval_symbols.specs.Taken.{count_in, ranges_in};
ghost use Rattle.mz_model_state.specs.Hands.{ManyPlaces};
ghost use Rattle.mz_model_roots.specs.Rooted.{Stays, view, HasRanges, AreRootsOf};
ghost use Rattle.mz_model_roots.specs.StepsEqual.{AreEqualNodes, IsEqualAt, IsLineOf};

use crate::equality::equal_node;
use crate::names::{false_root, is_undefined};
use mz_arena::Id;
use mz_base::{Memory, Stop};
use mz_core::Base;
use mz_eval_cells::Known;
use mz_eval_symbols::line_in;
use mz_symbol::{Free, Run, Symbol};
use std::alloc::Global;

/// The node that is 1 where a var array is defined, and its elements.
#[tactic(auto, using(crate::proofs::ArrayRoots::line_told))]
fn line_items(alloc: Global, run: &Run, line: u64) -> Result<(Id, Vec<Symbol>), Memory>
    ensures { IfOk result (λ p. IsLineOf run.now line p.0 p.1.items) }
{
    let Some(l) = run.line(line) else {
        return Err(Memory);
    };
    let items = Vec::from_slice(alloc, l.items.as_slice())?;
    Ok((l.defined, items))
}

/// The node that tests the place with this number, from 0, and the element there.
fn node_at(run: &mut Run, places: &[Free], items: &[Symbol], i: usize) -> Result<Id, Stop>
    ensures goes { GoesOnBy 70 run.old run.new }
    ensures stays { Stays result run.old run.new }
    ensures equal { IfOk result (IsEqualAt run.new places.now items.now i) }
{
    let Some(place) = places.get(i) else {
        return Err(Stop::Memory);
    };
    let Some(item) = items.get(i) else {
        return Err(Stop::Memory);
    };
    let id = equal_node(run, place.symbol, *item)?;
    Ok(id)
}

/// The nodes that test the places and the elements, one for each.
#[tactic(auto, using(crate::proofs::EqualNodes::none_goes, crate::proofs::ArrayRoots::nodes_none, crate::proofs::ArrayRoots::goes_some))]
fn element_nodes(
    alloc: Global,
    run: &mut Run,
    places: &[Free],
    items: &[Symbol],
) -> Result<Vec<Id>, Stop>
    ensures goes { GoesOnBy (70 * length places.now) run.old run.new }
    ensures stays { Stays result run.old run.new }
    ensures equal { IfOk result (λ ids. AreEqualNodes run.new places.now items.now ids.items) }
{
    if places.len() != items.len() {
        return Err(Stop::Memory);
    }
    let mut all = Vec::new(alloc);
    for i in 0..places.len() {
        let id = node_at(run, places, items, i)?;
        all.push(id)?;
    }
    Ok(all)
}

/// An id and others after it.
fn with_first(alloc: Global, first: Id, rest: Vec<Id>) -> Result<Vec<Id>, Memory>
    ensures { IfOk result (λ v. v.items ≡ first ∷ rest.items) }
{
    let mut all = Vec::new(alloc);
    all.push(first)?;
    for id in rest {
        all.push(id)?;
    }
    Ok(all)
}

fn only(alloc: Global, id: Id) -> Result<Vec<Id>, Memory>
    ensures { IfOk result (λ v. v.items ≡ id ∷ []) }
{
    let mut all = Vec::new(alloc);
    all.push(id)?;
    Ok(all)
}

#[tactic(auto, using(mz_symbol_rows::proofs::GoingOn::goes_both, mz_symbol_rows::proofs::GoingOn::goes_most))]
fn line_roots(
    alloc: Global,
    run: &mut Run,
    places: &[Free],
    base: Base,
    value: &Known,
) -> Result<Vec<Id>, Stop>
    ensures goes { GoesOnBy (20 * count_in value.now + 70 * length places.now) run.old run.new }
    ensures stays { Stays result run.old run.new }
    ensures roots { IfOk result (λ ids. AreRootsOf run.new (ManyPlaces (ranges_in value.now) places.now) (view value.now) ids.items) }
{
    let line = line_in(alloc, run, base, value)?;
    let found = line_items(alloc, run, line)?;
    let nodes = element_nodes(alloc, run, places, &found.1)?;
    let ids = with_first(alloc, found.0, nodes)?;
    Ok(ids)
}

/// The roots that say that an array of variables, whose base this is, has its declared value: that the
/// value is defined, and one for each place, in order. They are one that is false where the value is
/// undefined whatever values there are.
///
/// What the nodes may cost the caller's work has to pay for; what places and elements may cost as
/// options is drawn from the charges that are saved. Out of memory too where `line_in` is, and where
/// the value hasn't as many elements as the array has places, or one is of another base, or an option
/// where the places are none.
#[tactic(auto, using(mz_symbol_rows::proofs::GoingOn::goes_most, crate::proofs::CellRoots::undefined_rooted, crate::proofs::ShapedRoots::shaped_roots))]
pub fn array_roots(
    alloc: Global,
    run: &mut Run,
    places: &[Free],
    base: Base,
    value: &Known,
) -> Result<Vec<Id>, Stop>
    ensures goes { GoesOnBy (20 * count_in value.now + 70 * length places.now) run.old run.new }
    ensures stays { Stays result run.old run.new }
    ensures roots { IfOk result (λ ids. (ix : List Range) → HasRanges ix value.now → AreRootsOf run.new (ManyPlaces ix places.now) (view value.now) ids.items) }
{
    if is_undefined(value) {
        let id = false_root(run)?;
        let ids = only(alloc, id)?;
        return Ok(ids);
    }
    let ids = line_roots(alloc, run, places, base, value)?;
    Ok(ids)
}
