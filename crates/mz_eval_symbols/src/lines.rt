// Cells as lines.

ghost use Rattle.std.specs.Prelude.{◌≡◌, ◌*◌, [], IfOk, None, Some, length, map, true, ℕ};
ghost use Rattle.std.specs.Option.{option_map};
ghost use Rattle.mz_value.specs.Contents as values;
ghost use Rattle.mz_value.specs.Contents.{content, contents};
ghost use Rattle.mz_arena.specs.Values.{Term};
ghost use Rattle.mz_operations.specs.Views.{items_in};
ghost use Rattle.mz_meaning.specs.Cells.{held};
ghost use Rattle.mz_meaning.specs.Coerced.{recast};
ghost use Rattle.mz_meaning.specs.Runs.{give};
ghost use Rattle.mz_symbol.specs.Runs.{ReadsNodes};
ghost use Rattle.mz_symbol.specs.Readings.{Reading, Reads, state_of};
ghost use Rattle.mz_symbol.specs.Makes.{GoesOn, GoesOnBy, Means};
ghost use Rattle.mz_symbol_arrays.specs.LineValues.{array_argument};
ghost use Rattle.mz_eval_cells.specs.Views.{known_bound, origins_value, row_content};
ghost use Rattle.mz_eval_symbols.specs.Steps.{AreCasts, AreMade, IsLineWith, elements_cast, item_cast};
ghost use Rattle.mz_eval_symbols.specs.StepsLacking.{IsSameItem};
ghost use Rattle.mz_eval_symbols.specs.Taken.{cell_value, count_in, line_seen};

use crate::casts::{all_fitted, casts, is_fit};
use crate::constants::{any_node, constants, symbol_base};
use mz_arena::Id;
use mz_base::{Memory, Stop};
use mz_core::Base;
use mz_eval_cells::{Known, Origins, VarItems};
use mz_symbol::{Line, Run, Symbol};
use mz_value::Value;
use std::alloc::{AllocError, Global};

// ---- par elements

#[tactic(auto, using(mz_symbol_rows::proofs::GoingOn::goes_both))]
fn values_line(
    alloc: Global,
    run: &mut Run,
    base: Base,
    cast: Option<Base>,
    items: &[Value],
    count: u64,
) -> Result<u64, Stop>
    requires { count ≡ length items.now }
    ensures goes { GoesOnBy (16 * count) run.old run.new }
    ensures means { Means (λ r. r.line) result run.old run.new (λ r. give (Some (map (item_cast cast) (map content items.now)))) }
{
    let Ok(all) = constants(alloc, run, base, cast, items, count) else {
        return Err(Stop::Memory);
    };
    let yes = run.truth_node(true)?;
    let line = run.push_line(yes, all)?;
    Ok(line)
}

// ---- no elements

fn repeated(alloc: Global, s: Symbol, count: u64) -> Result<Vec<Symbol>, Memory>
    ensures { IfOk result (λ all. length all.items ≡ count) }
{
    let mut all = Vec::new(alloc);
    for _turn in 0..count {
        all.push(s)?;
    }
    Ok(all)
}

fn no_truth(run: &mut Run) -> Result<Id, Stop>
    ensures goes { GoesOn run.old run.new }
    ensures same { IfOk result (λ _. (r : Reading) → Reads r run.new → state_of r run.old ≡ state_of r run.new) }
{
    let no = run.truth_node(false)?;
    Ok(no)
}

/// Some node that an element of a base may have, which is no option.
fn plain_node(alloc: Global, run: &mut Run, base: Base) -> Result<Id, Stop>
    ensures goes { GoesOn run.old run.new }
    ensures same { IfOk result (λ _. (r : Reading) → Reads r run.new → state_of r run.old ≡ state_of r run.new) }
{
    match base {
        Base::Bool => no_truth(run),
        _ => any_node(alloc, run, base),
    }
}

/// A line of so many elements that isn't defined.
fn undefined_line(alloc: Global, run: &mut Run, base: Base, count: u64) -> Result<u64, Stop>
    ensures goes { GoesOnBy (16 * count) run.old run.new }
    ensures means { Means (λ r. r.line) result run.old run.new (λ r. give None) }
{
    let Ok(term) = plain_node(alloc, run, base) else {
        return Err(Stop::Memory);
    };
    let s = Symbol {
        base,
        occurs: None,
        term,
    };
    let all = repeated(alloc, s, count)?;
    let no = run.truth_node(false)?;
    let line = run.push_line(no, all)?;
    Ok(line)
}

// ---- the elements of a line

fn symbols_of(alloc: Global, l: &Line) -> Result<Vec<Symbol>, AllocError>
    ensures { IfOk result (λ v. v.items ≡ l.now.items.items) }
{
    Vec::from_slice(alloc, &l.items)
}

fn count_of(l: &Line) -> u64
    ensures { result ≡ length l.now.items.items }
{
    l.items.len() as u64
}

fn has_count(l: &Line, count: u64) -> bool
    ensures { result ≡ true → length l.now.items.items ≡ count }
{
    count_of(l) == count
}

/// The elements of a line once more, and the node that is 1 where it is defined. Out of memory too
/// where it hasn't so many.
fn line_items(alloc: Global, run: &Run, line: u64, count: u64) -> Result<(Id, Vec<Symbol>), Memory>
    ensures line { IfOk result (λ p. IsLineWith run.now line p.0 p.1.items) }
    ensures count { IfOk result (λ p. length p.1.items ≡ count) }
{
    let Some(l) = run.line(line) else {
        return Err(Memory);
    };
    if !has_count(l, count) {
        return Err(Memory);
    }
    let items = symbols_of(alloc, l)?;
    Ok((l.defined, items))
}

fn casts_of(
    alloc: Global,
    run: &mut Run,
    b: Base,
    items: Vec<Symbol>,
    count: u64,
) -> Result<Vec<Symbol>, Stop>
    ensures goes { GoesOnBy (4 * count) run.old run.new }
    ensures made { IfOk result (λ v. (r : Reading) → Reads r run.new → AreCasts r run.old run.new b items.items count v.items) }
    ensures count { IfOk result (λ v. length v.items ≡ count) }
{
    casts(alloc, run, b, &items, count)
}

/// A line whose elements are recast.
fn cast_line(alloc: Global, run: &mut Run, b: Base, line: u64, count: u64) -> Result<u64, Stop>
    ensures goes { GoesOnBy (20 * count) run.old run.new }
    ensures means { Means (λ r. r.line) result run.old run.new (λ r. give (option_map (map (recast b)) (r.line line))) }
{
    let p = line_items(alloc, run, line, count)?;
    let Ok(all) = casts_of(alloc, run, b, p.1, count) else {
        return Err(Stop::Memory);
    };
    let made = run.push_line(p.0, all)?;
    Ok(made)
}

// ---- arrays

fn array_line(
    alloc: Global,
    run: &mut Run,
    base: Base,
    index: &[(i64, i64)],
    items: &[Value],
) -> Result<u64, Stop>
    ensures goes { GoesOnBy (20 * length (items_in (contents (map content items.now)))) run.old run.new }
    ensures means { Means (λ r. array_argument r index.now) result run.old run.new (λ r. give (held r.mode (Some (values.array index.now (contents (map content items.now)))))) }
{
    let _dimensions = index.len();
    let line = values_line(alloc, run, base, None, items, items.len() as u64)?;
    Ok(line)
}

fn undefined_as(
    alloc: Global,
    run: &mut Run,
    base: Base,
    cast: Option<Base>,
    count: u64,
) -> Result<u64, Stop>
    ensures goes { GoesOnBy (16 * count) run.old run.new }
    ensures means { Means (λ r. r.line) result run.old run.new (λ r. give (elements_cast cast None)) }
{
    match cast {
        None => undefined_line(alloc, run, base, count),
        Some(_) => undefined_line(alloc, run, base, count),
    }
}

fn values_as(
    alloc: Global,
    run: &mut Run,
    base: Base,
    cast: Option<Base>,
    items: &[Value],
    count: u64,
) -> Result<u64, Stop>
    ensures goes { GoesOnBy (16 * count) run.old run.new }
    ensures means { Means (λ r. r.line) result run.old run.new (λ r. give (elements_cast cast (Some (map content items.now)))) }
{
    if items.len() as u64 != count {
        return Err(Stop::Memory);
    }
    let line = values_line(alloc, run, base, cast, items, count)?;
    Ok(line)
}

fn fits_of(
    alloc: Global,
    run: &Run,
    base: Base,
    items: Vec<Symbol>,
    count: u64,
) -> Result<Vec<Symbol>, Memory>
    ensures made { IfOk result (λ v. (t : ℕ → Term) → ReadsNodes t run.now.arena → AreMade (IsSameItem t) items.items count v.items) }
    ensures count { IfOk result (λ v. length v.items ≡ count) }
{
    let all = all_fitted(alloc, run.arena(), base, &items, count)?;
    Ok(all)
}

/// A line whose elements are ones of this base, where they are options that surely have no value where
/// they occur.
fn fitted_line(alloc: Global, run: &mut Run, base: Base, line: u64, count: u64) -> Result<u64, Stop>
    ensures goes { GoesOnBy (20 * count) run.old run.new }
    ensures means { Means (λ r. r.line) result run.old run.new (λ r. give (r.line line)) }
{
    let p = line_items(alloc, run, line, count)?;
    let all = fits_of(alloc, run, base, p.1, count)?;
    let made = run.push_line(p.0, all)?;
    Ok(made)
}

/// Whether a line's first element, if it has one, is of a node's base, or no option. Nothing is promised
/// of it: it only tells whether a line is made anew, which has the same value.
pub fn is_line_of_base(run: &Run, base: Base, line: u64) -> bool {
    match run.line(line) {
        None => true,
        Some(l) => is_fit(&l.items, symbol_base(base)),
    }
}

/// The line itself; where its elements are of another base, one whose elements are of this base.
fn own_line(alloc: Global, run: &mut Run, base: Base, line: u64, count: u64) -> Result<u64, Stop>
    ensures goes { GoesOnBy (20 * count) run.old run.new }
    ensures means { Means (λ r. r.line) result run.old run.new (λ r. give (r.line line)) }
{
    if is_line_of_base(run, base, line) {
        return Ok(line);
    }
    fitted_line(alloc, run, base, line, count)
}

fn line_as(
    alloc: Global,
    run: &mut Run,
    base: Base,
    cast: Option<Base>,
    line: u64,
    count: u64,
) -> Result<u64, Stop>
    ensures goes { GoesOnBy (20 * count) run.old run.new }
    ensures means { Means (λ r. r.line) result run.old run.new (λ r. give (elements_cast cast (r.line line))) }
{
    match cast {
        None => own_line(alloc, run, base, line, count),
        Some(b) => cast_line(alloc, run, b, line, count),
    }
}

#[tactic(auto, using(mz_symbol_rows::proofs::GoingOn::goes_most))]
fn origins_line(
    alloc: Global,
    run: &mut Run,
    base: Base,
    cast: Option<Base>,
    o: &Origins,
    count: u64,
) -> Result<u64, Stop>
    ensures goes { GoesOnBy (20 * count) run.old run.new }
    ensures means { Means (λ r. r.line) result run.old run.new (λ r. give (elements_cast cast (origins_value r.line o.now))) }
{
    match o {
        Origins::Nothing => undefined_as(alloc, run, base, cast, count),
        Origins::Values(items) => values_as(alloc, run, base, cast, items.as_slice(), count),
        Origins::Line(line) => line_as(alloc, run, base, cast, *line, count),
    }
}

fn row_line(
    alloc: Global,
    run: &mut Run,
    base: Base,
    index: &[(i64, i64)],
    xs: &VarItems,
) -> Result<u64, Stop>
    ensures goes { GoesOnBy (20 * length (map known_bound xs.now.bounds.value.items)) run.old run.new }
    ensures means { Means (λ r. array_argument r index.now) result run.old run.new (λ r. give (held r.mode (held r.mode (row_content r.line index.now xs.now)))) }
{
    let _dimensions = index.len();
    let count = xs.bounds.len() as u64;
    let line = origins_line(alloc, run, base, xs.cast, &xs.origins, count)?;
    Ok(line)
}

fn no_line(alloc: Global, run: &mut Run, base: Base) -> Result<u64, Stop>
    ensures goes { GoesOnBy 0 run.old run.new }
    ensures means { Means (λ r. array_argument r []) result run.old run.new (λ r. give (held r.mode None)) }
{
    let line = undefined_line(alloc, run, base, 0)?;
    Ok(line)
}

/// The number of the line that a cell's elements are: of an array whose elements have this base.
///
/// A var array that is a line already, isn't recast and has elements of this base is that line. Of
/// another one a line is made at each call: its elements are constants, or elements of a line, recast
/// or as ones of this base where they surely have no value when they occur. Where there is no base,
/// they are of integers, or of sets of them. An undefined array is a line that isn't defined. What the
/// line and its lists may cost the caller's work has to pay for.
/// Out of memory too of what is no array; of an array of texts that is par or was; and where
/// an option of a truth value that may have a value is recast to an integer.
#[tactic(auto, unfolding(mz_operations::specs::Views::as_items))]
pub fn line_in(alloc: Global, run: &mut Run, base: Base, k: &Known) -> Result<u64, Stop>
    ensures goes { GoesOnBy (20 * count_in k.now) run.old run.new }
    ensures means { Means (line_seen k.now) result run.old run.new (λ r. give (cell_value r k.now)) }
{
    let own = symbol_base(base);
    match k {
        Known::Undefined => no_line(alloc, run, own),
        Known::One(_) => Err(Stop::Memory),
        Known::Array(index, items) => {
            array_line(alloc, run, own, index.as_slice(), items.as_slice())
        }
        Known::Var(_) => Err(Stop::Memory),
        Known::Row(index, xs) => row_line(alloc, run, own, index.as_slice(), xs),
        Known::Unshaped(_) => no_line(alloc, run, own),
    }
}
