// Elements of arrays.

ghost use Rattle.std.specs.Prelude.{◌≡◌, ◌&&◌, ◌*◌, ◌+◌, ◌∷◌, [], IfOk, IfSome, MatchOption, None, false, length, true};
ghost use Rattle.std.specs.List.{list_all};
ghost use Rattle.std.specs.Option.{option_map};
ghost use Rattle.mz_core.specs.Types.{plain_type};
ghost use Rattle.mz_core.specs.Order.{no_dims};
ghost use Rattle.mz_operations.specs.Bounds as bounds;
ghost use Rattle.mz_meaning.specs.Arrays as arrays;
ghost use Rattle.mz_meaning.specs.Cells as cells;
ghost use Rattle.mz_meaning.specs.Cells.{Bare, Var, held, value_of};
ghost use Rattle.mz_meaning.specs.Runs.{give};
ghost use Rattle.mz_symbol.specs.Runs.{ReadsNodes};
ghost use Rattle.mz_symbol.specs.Readings.{Reading, Reads, symbol_seen};
ghost use Rattle.mz_symbol.specs.Makes.{GoesOn, GoesOnBy, Means};
ghost use Rattle.mz_symbol_rows.specs.RowValues.{argument};
ghost use Rattle.mz_symbol_access.specs.AccessValues.{access_charge, access_value, at_node, place_charge};
ghost use Rattle.mz_eval_cells.specs.Views.{all_seen, cell_of, cells_of, known_bound, seen};
ghost use Rattle.mz_eval_symbols.specs.Steps.{argued, item_cast};
ghost use Rattle.mz_eval_symbols.specs.Taken.{cell_value, line_seen, ranges_in};
ghost use Rattle.mz_eval_elements.specs.ElementCells.{element_value, typed_seen};
ghost use Rattle.mz_eval_arrays.specs.Told.{is_told};
ghost use Rattle.mz_eval_elements.specs.StepsElements.{IsSureItem, IsSureItemOf, counted_seen};

use crate::cells::{no_value, number_cell, symbol_cell};
use crate::indices::indices_of;
use crate::listing::listed_line;
use crate::places::{row_element, sure_symbol};
use mz_arena::Arena;
use mz_base::{Memory, Stop};
use mz_core::{Base, TypeInst};
use mz_eval_access::{access_bound, number_place, par_element};
use mz_eval_arrays::{are_told, is_told, of_kind};
use mz_eval_cells::{Bound, Known, Origins, VarItems, all_par, is_par};
use mz_eval_symbols::{is_gone, symbol_base};
use mz_symbol::{Run, Symbol};
use mz_symbol_access::access;
use std::alloc::{AllocError, Global};

// ---- what an access may cost

/// What so many indices and their place may cost.
#[tactic(auto, using(crate::proofs::ChargeLaws::one_index, crate::proofs::ChargeLaws::more_indices))]
fn place_charge(count: u64) -> Result<u64, Memory>
    ensures { IfOk result (λ n. n ≡ 8 * count + place_charge count) }
{
    if count == 1 {
        return Ok(40);
    }
    if count > u64::MAX / 98 {
        return Err(Memory);
    }
    Ok(98 * count)
}

/// What an access at so many indices may cost.
fn access_charge(count: u64, opt: bool) -> Result<u64, Memory>
    ensures { IfOk result (λ n. n ≡ 8 * count + access_charge count opt) }
{
    let place = place_charge(count)?;
    if place > u64::MAX - 74 {
        return Err(Memory);
    }
    match opt {
        true => Ok(place + 74),
        false => Ok(place + 32),
    }
}

// ---- at indices that may be var

fn ranges_in(k: &Known) -> &[(i64, i64)]
    ensures { result.now ≡ ranges_in k.now }
{
    match k {
        Known::Array(index, _) => index.as_slice(),
        Known::Row(index, _) => index.as_slice(),
        _ => &[],
    }
}

fn found_as(
    alloc: Global,
    run: &mut Run,
    line: u64,
    ranges: &[(i64, i64)],
    indices: Vec<Symbol>,
    base: Base,
    opt: bool,
) -> Result<Symbol, Stop>
    ensures goes { GoesOnBy (access_charge (length indices.items) opt) run.old run.new }
    ensures means { Means symbol_seen result run.old run.new (λ r. give (cells.held r.mode (at_node base opt (access_value r ranges.now line indices.items)))) }
{
    access(alloc, run, line, ranges, &indices, base, opt)
}

/// The element of an array by its line; of one whose type has no base of its own as an integer, or as
/// a set of them.
fn found(
    alloc: Global,
    run: &mut Run,
    line: u64,
    ranges: &[(i64, i64)],
    indices: Vec<Symbol>,
    base: Base,
    opt: bool,
) -> Result<Symbol, Stop>
    ensures goes { GoesOnBy (access_charge (length indices.items) opt) run.old run.new }
    ensures means { Means symbol_seen result run.old run.new (λ r. give (cells.held r.mode (at_node base opt (access_value r ranges.now line indices.items)))) }
{
    let own = symbol_base(base);
    let s = found_as(alloc, run, line, ranges, indices, own, opt)?;
    Ok(s)
}

/// The element of an array at indices, by the lists of its line.
fn accessed(
    alloc: Global,
    run: &mut Run,
    base: Base,
    opt: bool,
    line: u64,
    a: &Known,
    at: &[Known],
) -> Result<Symbol, Stop>
    requires { (r : Reading) → Reads r run.old → cell_value r a.now ≡ line_seen a.now r line }
    ensures goes { GoesOnBy (8 * length at.now + access_charge (length at.now) opt) run.old run.new }
    ensures means { Means argument result run.old run.new (λ r. give (element_value r base opt a.now at.now)) }
{
    let Ok(indices) = indices_of(alloc, run, at) else {
        return Err(Stop::Memory);
    };
    let ranges = ranges_in(a);
    let s = found(alloc, run, line, ranges, indices, base, opt)?;
    let x = of_kind(s, base, opt)?;
    Ok(x)
}

/// The same, which is drawn.
fn drawn(
    alloc: Global,
    run: &mut Run,
    base: Base,
    opt: bool,
    line: u64,
    a: &Known,
    at: &[Known],
) -> Result<Symbol, Stop>
    requires { (r : Reading) → Reads r run.old → cell_value r a.now ≡ line_seen a.now r line }
    ensures goes { GoesOn run.old run.new }
    ensures means { Means argument result run.old run.new (λ r. give (element_value r base opt a.now at.now)) }
{
    let charges = access_charge(at.len() as u64, opt)?;
    run.draw(charges)?;
    let s = accessed(alloc, run, base, opt, line, a, at)?;
    Ok(s)
}

/// The cell of an element's symbol: without a value where that is surely undefined, as where the
/// array has no elements.
fn found_cell(alloc: Global, nodes: &Arena, s: Symbol, bound: &Bound) -> Result<Known, AllocError>
    ensures of { IfOk result (λ k. cell_of k ≡ Var (bounds.one (known_bound bound.now)) None) }
    ensures seen { IfOk result (λ k. (r : Reading) → ReadsNodes r.term nodes.now → value_of (seen r k) ≡ held r.mode (option_map (item_cast None) (argued r.term s))) }
{
    let gone = is_gone(alloc, nodes, s)?;
    if gone {
        let none = no_value(alloc, bound)?;
        return Ok(none);
    }
    let k = symbol_cell(alloc, None, s, bound)?;
    Ok(k)
}

fn indexed(
    alloc: Global,
    run: &mut Run,
    base: Base,
    opt: bool,
    a: &Known,
    at: &[Known],
    bound: &Bound,
) -> Result<Known, Stop>
    ensures goes { GoesOn run.old run.new }
    ensures of { IfOk result (λ k. cell_of k ≡ Var (bounds.one (known_bound bound.now)) None) }
    ensures means { Means (counted_seen base opt) result run.old run.new (λ r. give (element_value r base opt a.now at.now)) }
{
    let line = listed_line(alloc, run, base, a)?;
    let s = drawn(alloc, run, base, opt, line, a, at)?;
    let k = found_cell(alloc, run.arena(), s, bound)?;
    Ok(k)
}

// ---- at any indices

/// The element at par indices.
fn placed(
    alloc: Global,
    run: &mut Run,
    base: Base,
    opt: bool,
    a: &Known,
    at: &[Known],
    bound: &Bound,
) -> Result<Known, Stop>
    requires { cells.all_par (cells_of at.now) ≡ true }
    ensures goes { GoesOn run.old run.new }
    ensures of { IfOk result (λ k. cell_of k ≡ Var (bounds.one (known_bound bound.now)) None) }
    ensures means { Means (counted_seen base opt) result run.old run.new (λ r. give (element_value r base opt a.now at.now)) }
{
    match a {
        Known::Row(index, xs) => {
            row_element(alloc, run, base, opt, index.as_slice(), xs, at, bound)
        }
        _ => Err(Stop::Memory),
    }
}

fn are_all_told(a: &Known, at: &[Known]) -> bool
    ensures { result ≡ (is_told a.now && list_all is_told at.now) }
{
    is_told(a) && are_told(at)
}

fn told(
    alloc: Global,
    run: &mut Run,
    base: Base,
    opt: bool,
    a: &Known,
    at: &[Known],
    bound: &Bound,
) -> Result<Known, Stop>
    ensures goes { GoesOn run.old run.new }
    ensures of { IfOk result (λ k. cell_of k ≡ Var (bounds.one (known_bound bound.now)) None) }
    ensures means { Means (counted_seen base opt) result run.old run.new (λ r. give (element_value r base opt a.now at.now)) }
{
    if all_par(at) {
        return placed(alloc, run, base, opt, a, at, bound);
    }
    indexed(alloc, run, base, opt, a, at, bound)
}

/// The element of an array, which or of which an index is var: undefined where nothing tells the
/// array, or an index.
fn var_element(
    alloc: Global,
    run: &mut Run,
    base: Base,
    opt: bool,
    a: &Known,
    at: &[Known],
    bound: &Bound,
) -> Result<Known, Stop>
    ensures goes { GoesOn run.old run.new }
    ensures of { IfOk result (λ k. cell_of k ≡ Var (bounds.one (known_bound bound.now)) None) }
    ensures means { Means (counted_seen base opt) result run.old run.new (λ r. give (element_value r base opt a.now at.now)) }
{
    if are_all_told(a, at) {
        return told(alloc, run, base, opt, a, at, bound);
    }
    let none = no_value(alloc, bound)?;
    Ok(none)
}

// ---- at a node

fn are_par(a: &Known, at: &[Known]) -> bool
    ensures { result ≡ (cells.is_par (cell_of a.now) && cells.all_par (cells_of at.now)) }
{
    is_par(a) && all_par(at)
}

#[tactic(auto, unfolding(mz_core::specs::Types::plain_type))]
fn base_of(t: &TypeInst) -> Base
    ensures { result ≡ (plain_type t.now).base }
{
    t.base
}

#[tactic(auto, unfolding(mz_core::specs::Types::plain_type))]
fn is_option(t: &TypeInst) -> bool
    ensures { result ≡ (plain_type t.now).opt }
{
    t.opt
}

#[tactic(auto, unfolding(mz_core::specs::Types::plain_type))]
fn is_scalar(t: &TypeInst) -> bool
    ensures { result ≡ no_dims (plain_type t.now).dims }
{
    t.dims.is_empty()
}

/// The element of an array, which or of which an index is var.
fn any_element(
    alloc: Global,
    run: &mut Run,
    t: &TypeInst,
    a: &Known,
    at: &[Known],
) -> Result<Known, Stop>
    requires some_var { (cells.is_par (cell_of a.now) && cells.all_par (cells_of at.now)) ≡ false }
    requires scalar { no_dims (plain_type t.now).dims ≡ true }
    ensures goes { GoesOn run.old run.new }
    ensures means { Means (typed_seen (plain_type t.now)) result run.old run.new
        (λ r. give (cells.typed r.mode false (plain_type t.now) (arrays.access_cell r.mode (plain_type t.now) (seen r a.now) (all_seen r at.now)))) }
{
    let bound = access_bound(alloc, t, a, at)?;
    let base = base_of(t);
    let opt = is_option(t);
    let x = var_element(alloc, run, base, opt, a, at, &bound)?;
    Ok(x)
}

/// What stands at a place, from 0, of a line that surely is defined, and the base that it is recast to.
fn sure_item_of(run: &Run, xs: &VarItems, n: u64) -> Option<(Symbol, Option<Base>)>
    ensures { MatchOption result (Unit {0}) (IsSureItemOf run.now xs.now n) }
{
    match &xs.origins {
        Origins::Line(line) => {
            let s = sure_symbol(run, *line, n)?;
            Some((s, xs.cast))
        }
        _ => None,
    }
}

/// The same of an array.
fn sure_item(run: &Run, a: &Known, n: u64) -> Option<(Symbol, Option<Base>)>
    ensures { MatchOption result (Unit {0}) (IsSureItem run.now a.now n) }
{
    match a {
        Known::Row(_, xs) => sure_item_of(run, xs, n),
        _ => None,
    }
}

/// The element at one index, where it is a number of an array that surely is defined, and the index is
/// a par integer.
fn number_element(
    alloc: Global,
    run: &Run,
    t: &TypeInst,
    a: &Known,
    at: &[Known],
    i: &Known,
) -> Result<Option<Known>, AllocError>
    requires one { at.now ≡ i.now ∷ [] }
    requires some_var { (cells.is_par (cell_of a.now) && cells.all_par (cells_of at.now)) ≡ false }
    requires scalar { no_dims (plain_type t.now).dims ≡ true }
    ensures { IfOk result (λ o. IfSome o (λ k. (r : Reading) → Reads r run.now
        → cells.typed r.mode false (plain_type t.now) (arrays.access_cell r.mode (plain_type t.now) (seen r a.now) (all_seen r at.now)) ≡ typed_seen (plain_type t.now) r k)) }
{
    if !is_par(i) {
        return Ok(None);
    }
    let Some(p) = number_place(t, a, i) else {
        return Ok(None);
    };
    let Some(y) = sure_item(run, a, p.0) else {
        return Ok(None);
    };
    let k = number_cell(alloc, y.1, y.0, p.1)?;
    Ok(Some(k))
}

/// The element of an array at one index, where that or the array is var.
fn one_element(
    alloc: Global,
    run: &mut Run,
    t: &TypeInst,
    a: &Known,
    at: &[Known],
    i: &Known,
) -> Result<Known, Stop>
    requires one { at.now ≡ i.now ∷ [] }
    requires some_var { (cells.is_par (cell_of a.now) && cells.all_par (cells_of at.now)) ≡ false }
    requires scalar { no_dims (plain_type t.now).dims ≡ true }
    ensures goes { GoesOn run.old run.new }
    ensures means { Means (typed_seen (plain_type t.now)) result run.old run.new
        (λ r. give (cells.typed r.mode false (plain_type t.now) (arrays.access_cell r.mode (plain_type t.now) (seen r a.now) (all_seen r at.now)))) }
{
    match number_element(alloc, &*run, t, a, at, i)? {
        None => any_element(alloc, run, t, a, at),
        Some(k) => Ok(k),
    }
}

/// The element of an array, which or of which an index is var.
fn open_element(
    alloc: Global,
    run: &mut Run,
    t: &TypeInst,
    a: &Known,
    at: &[Known],
) -> Result<Known, Stop>
    requires some_var { (cells.is_par (cell_of a.now) && cells.all_par (cells_of at.now)) ≡ false }
    requires scalar { no_dims (plain_type t.now).dims ≡ true }
    ensures goes { GoesOn run.old run.new }
    ensures means { Means (typed_seen (plain_type t.now)) result run.old run.new
        (λ r. give (cells.typed r.mode false (plain_type t.now) (arrays.access_cell r.mode (plain_type t.now) (seen r a.now) (all_seen r at.now)))) }
{
    match at {
        [i] => one_element(alloc, run, t, a, at, i),
        _ => any_element(alloc, run, t, a, at),
    }
}

/// The element of an array at these indices, of a node of this type, once the type is stamped on it.
///
/// Where all are par it is the element, undefined where the array or an index is undefined or an
/// index lies outside its range. Else it is var, and its bounds are those of all elements that
/// indices of these bounds reach: the hull of numbers, and of sets the union of what they may have.
///
/// Where all are par, and where nothing tells the array or an index, no node is made and nothing is
/// drawn. The element of a var array at par indices is what stands at its place, and takes constant
/// time; nothing is drawn either, but 28 where the array may be undefined. At var indices 8 each and
/// what the access may cost is drawn, and what `listed_line` draws. Out of memory too where less was
/// saved, and where the type is one of arrays.
pub fn element_cell_in(
    alloc: Global,
    run: &mut Run,
    t: &TypeInst,
    a: &Known,
    at: &[Known],
) -> Result<Known, Stop>
    ensures goes { GoesOn run.old run.new }
    ensures means { Means (typed_seen (plain_type t.now)) result run.old run.new
        (λ r. give (cells.typed r.mode false (plain_type t.now) (arrays.access_cell r.mode (plain_type t.now) (seen r a.now) (all_seen r at.now)))) }
{
    if are_par(a, at) {
        let k = par_element(alloc, a, at)?;
        return Ok(k);
    }
    if !is_scalar(t) {
        return Err(Stop::Memory);
    }
    open_element(alloc, run, t, a, at)
}
