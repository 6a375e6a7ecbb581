// The elements of a generator, one after the other.

ghost use Rattle.std.specs.Prelude.{◌≡◌, ◌≤ℤ◌, ◌∷◌, [], IfOk, MatchOption, Some, None, drop, map};
ghost use Rattle.std.specs.List.{enumerate_from};
ghost use Rattle.mz_value.specs.Ranges.{AreCanonical};
ghost use Rattle.mz_value.specs.Shown.{elements};
ghost use Rattle.mz_operations.specs.Arrays.{element_of};
ghost use Rattle.mz_meaning.specs.Cells.{par_value};
ghost use Rattle.mz_symbol.specs.Makes.{GoesOn};
ghost use Rattle.mz_symbol.specs.Readings.{Reading};
ghost use Rattle.mz_eval_cells.specs.Views.{known_bound, seen};
ghost use Rattle.mz_eval_comprehensions.specs.declared.types.Members.TheVariants as members;
ghost use Rattle.mz_eval_comprehensions.specs.Views.{GivesNext, IsNext, IsNextTurn, elements_of, member_in, numbers_left, place_in, range_left, turn_in, turns_left, value_element};
ghost use Rattle.mz_eval_comprehensions.specs.StepsTurns.{IsTurn};

use crate::drawn::place;
use crate::presences::{Presence, occurs_in};
use crate::types::{Elements, Members, Turn, Turns};
use glob_nodes::truth;
use mz_base::Memory;
use mz_core::Base;
use mz_eval_cells::{Bound, Item, Known, VarItems, copied_cell, one, share_bound};
use mz_symbol::{Run, Symbol};
use mz_value::{RangeSet, Value};
use std::alloc::{AllocError, Global};

/// All elements of a generator.
#[tactic(auto, using(crate::proofs::Numbers::all_elements))]
pub fn all_turns<'a>(elements: &'a Elements<'a>) -> Turns<'a>
    ensures { (r : Reading) → turns_left r result ≡ elements_of r elements.now }
{
    Turns {
        elements,
        place: 0,
        last: None,
    }
}

// ---- numbers

// the next number of a range: its first one, or the one after the last that was given
#[tactic(auto, using(crate::proofs::Numbers::first_left))]
fn next_of(r: &(i64, i64), last: &Option<i64>) -> Option<i64>
    requires { r.now.0 ≤ℤ r.now.1 }
    ensures { MatchOption result (range_left r.now last.now ≡ []) (λ n. range_left r.now last.now ≡ n ∷ range_left r.now (Some n)) }
{
    match last {
        None => Some(r.0),
        Some(n) => { if *n < r.1 { Some(*n + 1) } else { None } }
    }
}

// the first number of the range at a place
#[tactic(auto, using(crate::proofs::Numbers::no_elements, crate::proofs::Numbers::elements_at))]
fn first_number(ranges: &[(i64, i64)], place: usize, last: &mut Option<i64>) -> Option<i64>
    requires { AreCanonical ranges.now }
    ensures { GivesNext (λ n. n) result (elements (drop place ranges.now)) (numbers_left (drop place ranges.now) last.new) }
{
    if place >= ranges.len() {
        return None;
    }
    let n = ranges[place].0;
    *last = Some(n);
    Some(n)
}

// the next number of a set's ranges: the one after `last` in the range at `place`, or the next range's first
#[tactic(auto, using(crate::proofs::Numbers::no_numbers, crate::proofs::Numbers::canonical_at, crate::proofs::Numbers::numbers_on, crate::proofs::Numbers::numbers_over))]
fn next_number(ranges: &[(i64, i64)], place: &mut usize, last: &mut Option<i64>) -> Option<i64>
    requires { AreCanonical ranges.now }
    ensures { GivesNext (λ n. n) result (numbers_left (drop place.old ranges.now) last.old) (numbers_left (drop place.new ranges.now) last.new) }
{
    if *place >= ranges.len() {
        return None;
    }
    match next_of(&ranges[*place], last) {
        Some(n) => {
            *last = Some(n);
            Some(n)
        }
        None => {
            *place += 1;
            first_number(ranges, *place, last)
        }
    }
}

/// An integer, or a case of the enum with this number.
fn number(of: Option<u64>, n: i64) -> Known
    ensures { (r : Reading) → seen r result ≡ par_value (element_of of n) }
{
    match of {
        None => one(Item::Int(n)),
        Some(e) => one(Item::Enum(e, n)),
    }
}

fn untold_turn(run: &mut Run, of: Option<u64>, n: i64) -> Result<Turn, Memory>
    ensures goes { GoesOn run.old run.new }
    ensures turn { IfOk result (IsTurn run.old run.new (λ r. member_in r of members.Nowhere n)) }
{
    let no = truth(run, false)?;
    Ok(Turn {
        cell: number(of, n),
        presence: Presence::Where(no),
    })
}

/// What the node may cost is drawn.
#[tactic(auto, using(mz_symbol_rows::proofs::GoingOn::goes_drawn))]
fn told_turn(run: &mut Run, of: Option<u64>, s: Symbol, n: i64) -> Result<Turn, Memory>
    ensures goes { GoesOn run.old run.new }
    ensures turn { IfOk result (IsTurn run.old run.new (λ r. member_in r of (members.Of s) n)) }
{
    run.draw(6)?;
    let Ok(presence) = occurs_in(run, s, n) else {
        return Err(Memory);
    };
    Ok(Turn {
        cell: number(of, n),
        presence,
    })
}

fn sure_turn(of: Option<u64>, n: i64) -> Turn
    ensures { (r : Reading) → turn_in r result ≡ member_in r of members.All n }
{
    Turn {
        cell: number(of, n),
        presence: Presence::Always,
    }
}

fn member(run: &mut Run, of: Option<u64>, m: Members, n: i64) -> Result<Turn, Memory>
    ensures goes { GoesOn run.old run.new }
    ensures turn { IfOk result (IsTurn run.old run.new (λ r. member_in r of m n)) }
{
    match m {
        Members::All => Ok(sure_turn(of, n)),
        Members::Nowhere => untold_turn(run, of, n),
        Members::Of(s) => told_turn(run, of, s, n),
    }
}

fn next_member(
    run: &mut Run,
    of: Option<u64>,
    m: Members,
    set: &RangeSet,
    place: &mut usize,
    last: &mut Option<i64>,
) -> Result<Option<Turn>, Memory>
    ensures goes { GoesOn run.old run.new }
    ensures next { IfOk result (IsNext run.old run.new
        (λ r. map (member_in r of m) (numbers_left (drop place.old set.now) last.old)) (λ r. map (member_in r of m) (numbers_left (drop place.new set.now) last.new))) }
{
    let Some(n) = next_number(set.ranges(), place, last) else {
        return Ok(None);
    };
    let x = member(run, of, m, n)?;
    Ok(Some(x))
}

// ---- elements of arrays

fn next_value(alloc: Global, all: &[Value], place: &mut usize) -> Result<Option<Turn>, AllocError>
    ensures { IfOk result (λ o. (r : Reading) → GivesNext (turn_in r) o (map value_element (drop place.old all.now)) (map value_element (drop place.new all.now))) }
{
    if *place >= all.len() {
        return Ok(None);
    }
    let cell = copied_cell(alloc, &all[*place])?;
    *place += 1;
    Ok(Some(Turn {
        cell,
        presence: Presence::Always,
    }))
}

fn place_turn(
    alloc: Global,
    run: &mut Run,
    base: Base,
    opt: bool,
    xs: &VarItems,
    n: usize,
    b: &Bound,
) -> Result<Turn, Memory>
    ensures goes { GoesOn run.old run.new }
    ensures turn { IfOk result (IsTurn run.old run.new (λ r. place_in r xs.now (n, known_bound b.now))) }
{
    let bound = share_bound(b)?;
    let cell = place(alloc, run, base, opt, xs, n, bound)?;
    Ok(Turn {
        cell,
        presence: Presence::Always,
    })
}

fn next_place(
    alloc: Global,
    run: &mut Run,
    base: Base,
    opt: bool,
    xs: &VarItems,
    bounds: &[Bound],
    index: &mut usize,
) -> Result<Option<Turn>, Memory>
    ensures goes { GoesOn run.old run.new }
    ensures next { IfOk result (IsNext run.old run.new
        (λ r. map (place_in r xs.now) (enumerate_from index.old (map known_bound (drop index.old bounds.now)))) (λ r. map (place_in r xs.now) (enumerate_from index.new (map known_bound (drop index.new bounds.now))))) }
{
    if *index >= bounds.len() {
        return Ok(None);
    }
    let n = *index;
    let x = place_turn(alloc, run, base, opt, xs, n, &bounds[n])?;
    *index += 1;
    Ok(Some(x))
}

// ---- generators

/// The next element; `None` where none is left.
///
/// What the nodes may cost is drawn: 6 for a number that a var set may have, and 28 for an element of
/// a var array that may be undefined. Out of memory too where the element isn't of the kind that its
/// type says.
pub fn next_turn(alloc: Global, run: &mut Run, t: &mut Turns) -> Result<Option<Turn>, Memory>
    ensures goes { GoesOn run.old run.new }
    ensures next { IfOk result (IsNextTurn run.old run.new t.old t.new) }
{
    let elements = t.elements;
    match elements {
        Elements::Nothing => Ok(None),
        Elements::Numbers(of, m, set) => next_member(run, *of, *m, set, &mut t.place, &mut t.last),
        Elements::Values(all) => {
            let x = next_value(alloc, all, &mut t.place)?;
            Ok(x)
        }
        Elements::Places(base, opt, xs) => {
            next_place(alloc, run, *base, *opt, xs, &xs.bounds, &mut t.place)
        }
    }
}
