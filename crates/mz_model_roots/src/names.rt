// The roots of names with a single value, and of constraints; and the node of an objective.

ghost use Rattle.std.specs.Prelude.{◌≡◌, [], ◌∷◌, None, true, false, List, IfOk};
ghost use Rattle.mz_arena.specs.Values.{bit};
ghost use Rattle.mz_meaning.specs.Cells as cells;
ghost use Rattle.mz_meaning.specs.Cells.{value_of};
ghost use Rattle.mz_symbol.specs.Readings.{Reading, Reads};
ghost use Rattle.mz_symbol.specs.Makes.{GoesOnBy};
ghost use Rattle.mz_value.specs.Ranges.{Range};
ghost use Rattle.mz_value.specs.Contents as values;
ghost use Rattle.mz_eval_cells.specs.declared.types.Origin.TheVariants as origin;
ghost use Rattle.mz_eval_cells.specs.declared.types.Origins.TheVariants as origins;
ghost use Rattle.mz_eval_cells.specs.Views.{item_content, seen};
ghost use Rattle.mz_model_state.specs.Hands.{OnePlace, IsAim};
ghost use Rattle.mz_eval_symbols.specs.Taken.{ranges_in};
ghost use Rattle.mz_model_roots.specs.Rooted.{Stays, view, AreRootsOf, AreRootsOfConstraint, HasRanges};

use crate::equality::{equal_node, integer, truth};
use crate::operands::operands_of;
use mz_arena::Id;
use mz_base::{Memory, Stop};
use mz_core::Base;
use mz_eval_cells::{Item, Known, Origin, Origins, VarItems, VarValue};
use mz_eval_symbols::symbol_in;
use mz_symbol::{Free, Run};
use std::alloc::Global;

fn has_no_value(v: &VarValue) -> bool
    ensures { result ≡ true → v.now.origin ≡ origin.Nothing }
{
    match v.origin {
        Origin::Nothing => true,
        _ => false,
    }
}

fn has_no_values(v: &VarItems) -> bool
    ensures { result ≡ true → v.now.origins ≡ origins.Nothing }
{
    match v.origins {
        Origins::Nothing => true,
        _ => false,
    }
}

/// Whether a cell is undefined whatever values there are.
pub(crate) fn is_undefined(k: &Known) -> bool
    ensures undefined { result ≡ true → (r : Reading) → value_of (seen r k.now) ≡ None }
    ensures shaped { result ≡ false → (ix : List Range) → HasRanges ix k.now → ranges_in k.now ≡ ix }
{
    match k {
        Known::Undefined => true,
        Known::One(_) => false,
        Known::Array(_, _) => false,
        Known::Var(v) => has_no_value(v),
        Known::Row(_, xs) => has_no_values(xs),
        Known::Unshaped(_) => true,
    }
}

/// The root of a value that is undefined: it is false.
pub(crate) fn false_root(run: &mut Run) -> Result<Id, Stop>
    ensures goes { GoesOnBy 0 run.old run.new }
    ensures stays { Stays result run.old run.new }
    ensures never { IfOk result (λ id. (r : Reading) → Reads r run.new → r.term id ≡ bit false) }
{
    let id = run.truth_node(false)?;
    Ok(id)
}

#[tactic(auto, using(mz_symbol_rows::proofs::GoingOn::goes_both, mz_symbol_rows::proofs::GoingOn::goes_most))]
fn tested(alloc: Global, run: &mut Run, place: &Free, value: &Known) -> Result<Id, Stop>
    ensures goes { GoesOnBy 78 run.old run.new }
    ensures stays { Stays result run.old run.new }
    ensures roots { IfOk result (λ id. AreRootsOf run.new (OnePlace place.now) (view value.now) (id ∷ [])) }
{
    let symbol = place.symbol;
    let y = symbol_in(alloc, run, symbol.base, symbol.occurs.is_some(), value)?;
    let id = equal_node(run, symbol, y)?;
    Ok(id)
}

/// The root that says that a variable that is no array has its declared value: the two are there and
/// the same. It is false where the value is undefined whatever values there are.
///
/// What the nodes may cost the caller's work has to pay for; what an option of a truth value may cost
/// as an integer is drawn from the charges that are saved. Out of memory too where `symbol_in` is, and
/// where the value isn't of the variable's base, or alone is an option.
#[tactic(auto, using(mz_symbol_rows::proofs::GoingOn::goes_most, crate::proofs::CellRoots::undefined_rooted))]
pub fn place_root(alloc: Global, run: &mut Run, place: &Free, value: &Known) -> Result<Id, Stop>
    ensures goes { GoesOnBy 78 run.old run.new }
    ensures stays { Stays result run.old run.new }
    ensures roots { IfOk result (λ id. AreRootsOf run.new (OnePlace place.now) (view value.now) (id ∷ [])) }
{
    if is_undefined(value) {
        let id = false_root(run)?;
        return Ok(id);
    }
    tested(alloc, run, place, value)
}

/// Whether a cell is true whatever values there are.
fn is_met(k: &Known) -> bool
    ensures { result ≡ true → (r : Reading) → cells.is_true (value_of (seen r k.now)) ≡ true }
{
    match k {
        Known::One(i) => is_true(i),
        _ => false,
    }
}

fn is_true(i: &Item) -> bool
    ensures { result ≡ true → item_content i.now ≡ values.bool true }
{
    match i {
        Item::Bool(b) => *b,
        _ => false,
    }
}

fn one_root(alloc: Global, id: Id) -> Result<Vec<Id>, Memory>
    ensures { IfOk result (λ ids. ids.items ≡ id ∷ []) }
{
    let mut ids = Vec::new(alloc);
    ids.push(id)?;
    Ok(ids)
}

/// The root of a constraint that is undefined whatever values there are: it is false.
fn unmet_roots(alloc: Global, run: &mut Run, k: &Known) -> Result<Vec<Id>, Stop>
    requires { (r : Reading) → value_of (seen r k.now) ≡ None }
    ensures goes { GoesOnBy 8 run.old run.new }
    ensures stays { Stays result run.old run.new }
    ensures roots { IfOk result (λ ids. AreRootsOfConstraint run.new (view k.now) ids.items) }
{
    let id = false_root(run)?;
    let ids = one_root(alloc, id)?;
    Ok(ids)
}

/// The roots of a constraint that is told by a node.
fn told_roots(alloc: Global, run: &mut Run, k: &Known, count: u64) -> Result<Vec<Id>, Stop>
    ensures goes { GoesOnBy 8 run.old run.new }
    ensures stays { Stays result run.old run.new }
    ensures roots { IfOk result (λ ids. AreRootsOfConstraint run.new (view k.now) ids.items) }
{
    let s = symbol_in(alloc, run, Base::Bool, false, k)?;
    let id = truth(s)?;
    let ids = operands_of(alloc, run.arena(), id, count)?;
    Ok(ids)
}

/// The roots of a constraint: all are true where it is. None of a constraint that is par and true; that
/// of one that is undefined whatever values there are is false. Of a conjunction of so many operands
/// there is one for each, as far as its node is one, and the constant false so many times.
///
/// What the nodes may cost the caller's work has to pay for. Out of memory too where `symbol_in` is,
/// and where the cell is no truth value.
#[tactic(auto, using(crate::proofs::EqualNodes::none_goes))]
pub fn constraint_roots(
    alloc: Global,
    run: &mut Run,
    k: &Known,
    count: u64,
) -> Result<Vec<Id>, Stop>
    ensures goes { GoesOnBy 8 run.old run.new }
    ensures stays { Stays result run.old run.new }
    ensures roots { IfOk result (λ ids. AreRootsOfConstraint run.new (view k.now) ids.items) }
{
    if is_met(k) {
        let none = Vec::new(alloc);
        return Ok(none);
    }
    if is_undefined(k) {
        return unmet_roots(alloc, run, k);
    }
    told_roots(alloc, run, k, count)
}

/// The integer node that is minimized or maximized, of the objective's cell.
///
/// What the nodes may cost the caller's work has to pay for. Out of memory too where `symbol_in` is,
/// and where the cell is no integer.
pub fn aim(alloc: Global, run: &mut Run, k: &Known) -> Result<Id, Stop>
    ensures goes { GoesOnBy 8 run.old run.new }
    ensures stays { Stays result run.old run.new }
    ensures aims { IfOk result (IsAim run.new (view k.now)) }
{
    let s = symbol_in(alloc, run, Base::Int, false, k)?;
    let id = integer(s)?;
    Ok(id)
}
