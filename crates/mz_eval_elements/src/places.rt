// Elements at par indices: what stands at their place, without a list.

ghost use Rattle.std.specs.Prelude.{◌≡◌, IfOk, MatchOption, None, false, map, slice_get, true, ℕ};
ghost use Rattle.std.specs.Option.{option_and_then, option_map};
ghost use Rattle.mz_value.specs.Contents.{content};
ghost use Rattle.mz_operations.specs.Bounds as bounds;
ghost use Rattle.mz_meaning.specs.Cells as cells;
ghost use Rattle.mz_meaning.specs.Cells.{Var};
ghost use Rattle.mz_meaning.specs.Runs.{give};
ghost use Rattle.mz_symbol.specs.Readings.{Reading, Reads};
ghost use Rattle.mz_arena.specs.Values.{Term, bit};
ghost use Rattle.mz_symbol.specs.Runs.{ReadsNodes};
ghost use Rattle.mz_symbol.specs.Makes.{GoesOn, GoesOnBy, Means};
ghost use Rattle.mz_symbol_rows.specs.RowValues.{argument};
ghost use Rattle.mz_eval_cells.specs.Views.{cell_of, cells_of, known_bound};
ghost use Rattle.mz_eval_symbols.specs.Steps.{argued, item_cast};
ghost use Rattle.mz_eval_elements.specs.StepsElements.{at_kind, counted_seen, guarded_seen, item_at, origins_item, row_element};

use crate::cells::{no_value, symbol_cell, values_item};
use crate::nodes::is_bit;
use crate::placing::place_at;
use mz_arena::{Arena, Id};
use mz_base::Stop;
use mz_core::Base;
use mz_eval_arrays::of_kind;
use mz_eval_cells::{Bound, Known, Origins, VarItems};
use mz_eval_symbols::symbol_in;
use mz_symbol::{Run, Symbol};
use mz_symbol_arrays::lines::defined;
use mz_symbol_rows::options::guarded;
use mz_value::Value;
use std::alloc::Global;

// ---- elements of lines

/// Whether a node isn't the constant 1.
fn may_fail(nodes: &Arena, d: Id) -> bool
    ensures { result ≡ false → (t : ℕ → Term) → ReadsNodes t nodes.now → t d ≡ bit true }
{
    !is_bit(nodes, d, true)
}

/// The element at a place, from 0, of an array that is surely defined.
pub(crate) fn sure_symbol(run: &Run, line: u64, n: u64) -> Option<Symbol>
    ensures { MatchOption result (Unit {0}) (λ y. (r : Reading) → Reads r run.now → argued r.term y ≡ option_and_then (λ xs. slice_get xs n) (r.line line)) }
{
    let Ok(found) = defined(run, line) else {
        return None;
    };
    if may_fail(run.arena(), found.0) {
        return None;
    }
    match run.element(line, n) {
        None => None,
        Some(y) => Some(y),
    }
}

/// The symbol of a cell where a node is true, and undefined elsewhere, at a node of this base, an
/// option or not.
#[tactic(auto, using(mz_symbol_rows::proofs::GoingOn::goes_both, mz_symbol_rows::proofs::GoingOn::goes_most))]
fn guarded_symbol(
    alloc: Global,
    run: &mut Run,
    base: Base,
    opt: bool,
    d: Id,
    k: &Known,
) -> Result<Symbol, Stop>
    ensures goes { GoesOnBy 28 run.old run.new }
    ensures means { Means argument result run.old run.new (λ r. give (guarded_seen r base opt d k.now)) }
{
    let x = symbol_in(alloc, run, base, opt, k)?;
    let own = of_kind(x, base, opt)?;
    let s = guarded(run, d, own)?;
    let z = of_kind(s, base, opt)?;
    Ok(z)
}

/// The element at a place, from 0, of an array that may be undefined.
fn open_item(
    alloc: Global,
    run: &mut Run,
    base: Base,
    opt: bool,
    cast: Option<Base>,
    line: u64,
    n: u64,
    bound: &Bound,
) -> Result<Known, Stop>
    ensures goes { GoesOn run.old run.new }
    ensures of { IfOk result (λ k. cell_of k ≡ Var (bounds.one (known_bound bound.now)) None) }
    ensures means { Means (counted_seen base opt) result run.old run.new (λ r. give (item_at r base opt cast line n)) }
{
    let found = defined(run, line)?;
    let Some(y) = run.element(line, n) else {
        return Err(Stop::Memory);
    };
    let own = symbol_cell(alloc, cast, y, bound)?;
    run.draw(28)?;
    let s = guarded_symbol(alloc, run, base, opt, found.0, &own)?;
    let k = symbol_cell(alloc, None, s, bound)?;
    Ok(k)
}

fn line_item(
    alloc: Global,
    run: &mut Run,
    base: Base,
    opt: bool,
    cast: Option<Base>,
    line: u64,
    n: u64,
    bound: &Bound,
) -> Result<Known, Stop>
    ensures goes { GoesOn run.old run.new }
    ensures of { IfOk result (λ k. cell_of k ≡ Var (bounds.one (known_bound bound.now)) None) }
    ensures means { Means (counted_seen base opt) result run.old run.new (λ r. give (item_at r base opt cast line n)) }
{
    match sure_symbol(run, line, n) {
        None => open_item(alloc, run, base, opt, cast, line, n, bound),
        Some(s) => {
            let k = symbol_cell(alloc, cast, s, bound)?;
            Ok(k)
        }
    }
}

// ---- elements of arrays

fn values_element(
    alloc: Global,
    run: &mut Run,
    base: Base,
    opt: bool,
    cast: Option<Base>,
    items: &[Value],
    n: u64,
    bound: &Bound,
) -> Result<Known, Stop>
    ensures goes { GoesOn run.old run.new }
    ensures of { IfOk result (λ k. cell_of k ≡ Var (bounds.one (known_bound bound.now)) None) }
    ensures means { Means (counted_seen base opt) result run.old run.new (λ r. give (at_kind r base opt (option_map (item_cast cast) (slice_get (map content items.now) n)))) }
{
    let k = values_item(alloc, cast, items, n, bound)?;
    Ok(k)
}

fn origins_item(
    alloc: Global,
    run: &mut Run,
    base: Base,
    opt: bool,
    cast: Option<Base>,
    o: &Origins,
    n: u64,
    bound: &Bound,
) -> Result<Known, Stop>
    ensures goes { GoesOn run.old run.new }
    ensures of { IfOk result (λ k. cell_of k ≡ Var (bounds.one (known_bound bound.now)) None) }
    ensures means { Means (counted_seen base opt) result run.old run.new (λ r. give (origins_item r base opt cast o.now n)) }
{
    match o {
        Origins::Nothing => {
            let none = no_value(alloc, bound)?;
            Ok(none)
        }
        Origins::Values(items) => {
            values_element(alloc, run, base, opt, cast, items.as_slice(), n, bound)
        }
        Origins::Line(line) => line_item(alloc, run, base, opt, cast, *line, n, bound),
    }
}

/// The element of a var array at par indices.
pub(crate) fn row_element(
    alloc: Global,
    run: &mut Run,
    base: Base,
    opt: bool,
    index: &[(i64, i64)],
    xs: &VarItems,
    at: &[Known],
    bound: &Bound,
) -> Result<Known, Stop>
    requires { cells.all_par (cells_of at.now) ≡ true }
    ensures goes { GoesOn run.old run.new }
    ensures of { IfOk result (λ k. cell_of k ≡ Var (bounds.one (known_bound bound.now)) None) }
    ensures means { Means (counted_seen base opt) result run.old run.new (λ r. give (row_element r base opt index.now xs.now at.now)) }
{
    let Ok(place) = place_at(alloc, index, at) else {
        return Err(Stop::Memory);
    };
    match place {
        None => {
            let none = no_value(alloc, bound)?;
            Ok(none)
        }
        Some(n) => {
            let k = origins_item(alloc, run, base, opt, xs.cast, &xs.origins, n, bound)?;
            Ok(k)
        }
    }
}
