// The cells that stand for the names of arrays of variables.

ghost use Rattle.std.specs.Prelude.{◌≡◌, ℕ, ◌*◌, IfOk, length, map};
ghost use Rattle.mz_arena.specs.Values.{Term};
ghost use Rattle.mz_meaning.specs.Domains.{domain_bound};
ghost use Rattle.mz_meaning.specs.Runs.{give};
ghost use Rattle.mz_symbol.specs.Runs.{ReadsNodes};
ghost use Rattle.mz_symbol.specs.Makes.{GoesOn, GoesOnBy, Means};
ghost use Rattle.mz_symbol.specs.Symbols.{AreItems, domain_of, elements_value};
ghost use Rattle.mz_eval_cells.specs.Views.{known_bound, seen};
ghost use Rattle.mz_model_state.specs.Variables.{IsArrayCell, IsPlacesLine};
ghost use Rattle.mz_model_roots.specs.Placed.{Keeps, ArePlacesOver};
ghost use Rattle.mz_model_roots.specs.StepsPlaces.{AreWholeOf, IsArrayOver, symbols_of};

use crate::bounds::place_bound;
use crate::places::many_places;
use mz_arena::Id;
use mz_base::{Memory, Stop};
use mz_core::Base;
use mz_eval_cells::{Bound, Known};
use mz_eval_symbols::cell_of_line;
use mz_symbol::{Free, Run, Symbol};
use mz_symbol_rows::options::with_whole_value;
use mz_value::RangeSet;
use std::alloc::{AllocError, Global};
use std::rc::Rc;

/// The symbols of places, in order, of which options of truth values have integer nodes. What these
/// may cost is drawn from the charges that are saved.
#[tactic(auto, using(mz_symbol::proofs::RunLaws::goes_on, crate::proofs::WholeItems::wholes_none))]
fn symbols(alloc: Global, run: &mut Run, places: &[Free]) -> Result<Vec<Symbol>, Memory>
    ensures goes { GoesOn run.old run.new }
    ensures keeps { IfOk result (λ _. Keeps run.old run.new) }
    ensures whole { IfOk result (λ v. AreWholeOf run.new places.now v.items) }
{
    let mut all = Vec::new(alloc);
    for f in places {
        let s = with_whole_value(run, f.symbol)?;
        all.push(s)?;
    }
    Ok(all)
}

/// The bounds of places, in order.
fn bounds(alloc: Global, places: &[Free]) -> Result<Vec<Bound>, AllocError>
    ensures { IfOk result (λ v. map known_bound v.items ≡ map domain_bound (map domain_of places.now)) }
{
    let mut all = Vec::new(alloc);
    for f in places {
        let b = place_bound(alloc, f)?;
        all.push(b)?;
    }
    Ok(all)
}

/// Keeps the symbols of places as a var array.
#[tactic(auto, using(mz_symbol_rows::proofs::GoingOn::goes_most, crate::proofs::WholeItems::line_goes))]
fn kept(alloc: Global, run: &mut Run, defined: Id, places: &[Free]) -> Result<u64, Stop>
    requires { (t : ℕ → Term) → ReadsNodes t run.old.arena → AreItems t (symbols_of places.now) }
    ensures goes { GoesOnBy (16 * length places.now) run.old run.new }
    ensures means { Means (λ r. r.line) result run.old run.new (λ r. give (elements_value r.term defined (symbols_of places.now))) }
{
    let items = symbols(alloc, run, places)?;
    let Ok(line) = run.push_line(defined, items) else {
        return Err(Stop::Memory);
    };
    Ok(line)
}

/// The places over these sets, and the number of the var array that they are.
fn lined(
    alloc: Global,
    run: &mut Run,
    number: u64,
    base: Base,
    opt: bool,
    sets: Vec<RangeSet>,
) -> Result<(u64, Vec<Free>), Memory>
    ensures goes { GoesOnBy (24 * length sets.items) run.old run.new }
    ensures keeps { IfOk result (λ _. Keeps run.old run.new) }
    ensures places { IfOk result (λ p. ArePlacesOver base opt sets.items p.1.items) }
    ensures line { IfOk result (λ p. IsPlacesLine run.new p.0 p.1.items) }
{
    let Ok(yes) = run.truth_node(true) else {
        return Err(Memory);
    };
    let places = many_places(alloc, run, number, base, opt, sets)?;
    let Ok(line) = kept(alloc, run, yes, &places) else {
        return Err(Memory);
    };
    Ok((line, places))
}

/// The cell of places that are the elements of this line.
fn line_cell(
    alloc: Global,
    index: Vec<(i64, i64)>,
    places: &[Free],
    line: u64,
) -> Result<Known, AllocError>
    ensures { IfOk result (λ k. IsArrayOver line (λ r. seen r k) index.items places.now) }
{
    let all = bounds(alloc, places)?;
    let ranges = Rc::new(alloc, index)?;
    let each = Rc::new(alloc, all)?;
    cell_of_line(alloc, ranges, each, line)
}

/// The cell of the next name, an array of variables with these index ranges over these sets, the last
/// index moving first, and its places; where the names so far have this number of parts. The array is
/// defined, and its elements are the places; no list of them is made.
///
/// Out of memory too where a variable may not have such a domain, as `one_place` is.
pub fn array_cell(
    alloc: Global,
    run: &mut Run,
    number: u64,
    base: Base,
    opt: bool,
    index: Vec<(i64, i64)>,
    sets: Vec<RangeSet>,
) -> Result<(Known, Vec<Free>), Memory>
    ensures goes { GoesOnBy (24 * length sets.items) run.old run.new }
    ensures keeps { IfOk result (λ _. Keeps run.old run.new) }
    ensures places { IfOk result (λ p. ArePlacesOver base opt sets.items p.1.items) }
    ensures cell { IfOk result (λ p. IsArrayCell run.new (λ r. seen r p.0) index.items p.1.items) }
{
    let (line, places) = lined(alloc, run, number, base, opt, sets)?;
    let k = line_cell(alloc, index, &places, line)?;
    Ok((k, places))
}
