// The lines of arrays, each made once.

ghost use Rattle.std.specs.Prelude.{◌≡◌, ◌*◌, IfOk, List, MatchOption, None, Option, Some, false, map, true, ℕ};
ghost use Rattle.mz_value.specs.Contents as values;
ghost use Rattle.mz_value.specs.Contents.{Content, content, contents};
ghost use Rattle.mz_meaning.specs.Cells.{held};
ghost use Rattle.mz_meaning.specs.Runs.{give};
ghost use Rattle.mz_symbol.specs.Readings.{Reading, Reads};
ghost use Rattle.mz_symbol.specs.Makes.{GoesOn, Means};
ghost use Rattle.mz_symbol_arrays.specs.LineValues.{array_argument};
ghost use Rattle.mz_eval_cells.specs.Views.{origins_value, row_content};
ghost use Rattle.mz_eval_symbols.specs.Steps.{elements_cast};
ghost use Rattle.mz_eval_symbols.specs.Taken.{cell_value, count_in, line_seen};

use crate::keys::key_of;
use crate::values::has_values;
use mz_base::{Memory, Stop};
use mz_core::Base;
use mz_eval_cells::{Known, Origins, VarItems, length_of};
use mz_eval_symbols::{is_line_of_base, line_in};
use mz_symbol::Run;
use mz_value::Value;
use std::alloc::Global;

// ---- what is a line already

fn line_of_origins(o: &Origins) -> Option<u64>
    ensures { MatchOption result (Unit {0}) (λ n. (l : ℕ → Option (List Content)) → origins_value l o.now ≡ l n) }
{
    match o {
        Origins::Line(n) => Some(*n),
        _ => None,
    }
}

fn is_cast(cast: Option<Base>) -> bool
    ensures { result ≡ false → cast ≡ None }
{
    cast.is_some()
}

fn line_of_row(index: &[(i64, i64)], xs: &VarItems) -> Option<u64>
    ensures { MatchOption result (Unit {0}) (λ n. (r : Reading) → held r.mode (held r.mode (row_content r.line index.now xs.now)) ≡ array_argument r index.now n) }
{
    let _dimensions = index.len();
    let Some(n) = line_of_origins(&xs.origins) else {
        return None;
    };
    if is_cast(xs.cast) {
        return None;
    }
    Some(n)
}

/// The line that a cell is, where it isn't recast.
fn plain_line(k: &Known) -> Option<u64>
    ensures { MatchOption result (Unit {0}) (λ n. (r : Reading) → cell_value r k.now ≡ line_seen k.now r n) }
{
    match k {
        Known::Row(index, xs) => line_of_row(index.as_slice(), xs),
        _ => None,
    }
}

/// The same, where its elements are of this base.
fn own_line(run: &Run, base: Base, k: &Known) -> Option<u64>
    ensures { MatchOption result (Unit {0}) (λ n. (r : Reading) → cell_value r k.now ≡ line_seen k.now r n) }
{
    let Some(line) = plain_line(k) else {
        return None;
    };
    if is_line_of_base(run, base, line) {
        Some(line)
    } else {
        None
    }
}

// ---- what was made before

fn is_array(run: &Run, line: u64, index: &[(i64, i64)], items: &[Value]) -> bool
    ensures { result ≡ true → (r : Reading) → Reads r run.now → held r.mode (Some (values.array index.now (contents (map content items.now)))) ≡ array_argument r index.now line }
{
    let _dimensions = index.len();
    has_values(run, line, items)
}

fn are_origins(run: &Run, line: u64, cast: Option<Base>, o: &Origins) -> bool
    ensures { result ≡ true → (r : Reading) → Reads r run.now → r.line line ≡ elements_cast cast (origins_value r.line o.now) }
{
    match cast {
        None => match o {
            Origins::Values(items) => has_values(run, line, items.as_slice()),
            _ => false,
        },
        Some(_) => false,
    }
}

fn is_row(run: &Run, line: u64, index: &[(i64, i64)], xs: &VarItems) -> bool
    ensures { result ≡ true → (r : Reading) → Reads r run.now → held r.mode (held r.mode (row_content r.line index.now xs.now)) ≡ array_argument r index.now line }
{
    let _dimensions = index.len();
    are_origins(run, line, xs.cast, &xs.origins)
}

/// Whether a line has a cell's value wherever it is read.
fn is_line_of(run: &Run, line: u64, k: &Known) -> bool
    ensures { result ≡ true → (r : Reading) → Reads r run.now → cell_value r k.now ≡ line_seen k.now r line }
{
    match k {
        Known::Array(index, items) => is_array(run, line, index.as_slice(), items.as_slice()),
        Known::Row(index, xs) => is_row(run, line, index.as_slice(), xs),
        _ => false,
    }
}

/// The line that was noted for a cell, where it still has the cell's value.
fn noted_line(run: &Run, key: u64, k: &Known) -> Option<u64>
    ensures { MatchOption result (Unit {0}) (λ n. (r : Reading) → Reads r run.now → cell_value r k.now ≡ line_seen k.now r n) }
{
    let Some(line) = run.hinted(key) else {
        return None;
    };
    if is_line_of(run, line, k) {
        Some(line)
    } else {
        None
    }
}

// ---- what is made

fn count_in(k: &Known) -> u64
    ensures { result ≡ count_in k.now }
{
    match length_of(k) {
        None => 0,
        Some(n) => n,
    }
}

/// What the line of so many elements may cost.
fn line_charge(count: u64) -> Result<u64, Memory>
    ensures { IfOk result (λ n. n ≡ 20 * count) }
{
    if count > u64::MAX / 20 {
        return Err(Memory);
    }
    Ok(20 * count)
}

fn made_line(alloc: Global, run: &mut Run, base: Base, key: u64, k: &Known) -> Result<u64, Stop>
    ensures goes { GoesOn run.old run.new }
    ensures means { Means (line_seen k.now) result run.old run.new (λ r. give (cell_value r k.now)) }
{
    let charges = line_charge(count_in(k))?;
    run.draw(charges)?;
    let line = line_in(alloc, run, base, k)?;
    run.hint(key, line)?;
    Ok(line)
}

fn listed_by(alloc: Global, run: &mut Run, base: Base, key: u64, k: &Known) -> Result<u64, Stop>
    ensures goes { GoesOn run.old run.new }
    ensures means { Means (line_seen k.now) result run.old run.new (λ r. give (cell_value r k.now)) }
{
    match noted_line(run, key, k) {
        Some(line) => Ok(line),
        None => made_line(alloc, run, base, key, k),
    }
}

/// The number of the line that a cell's elements are: of an array whose elements have this base.
///
/// A var array that is a line of such elements already, and isn't recast, is that line. The line of a
/// par array, and of one that was par, is made at the first call, for which 20 an element is drawn;
/// later calls find it by its elements, in time that grows with their number. Another line is made at
/// each call. Out of memory too where less was saved, and where `line_in` is.
pub fn listed_line(alloc: Global, run: &mut Run, base: Base, k: &Known) -> Result<u64, Stop>
    ensures goes { GoesOn run.old run.new }
    ensures means { Means (line_seen k.now) result run.old run.new (λ r. give (cell_value r k.now)) }
{
    match own_line(run, base, k) {
        Some(line) => Ok(line),
        None => listed_by(alloc, run, base, key_of(base, k), k),
    }
}
