// Par arguments of calls of globals that are no nodes: numbers and tables.

ghost use Rattle.std.specs.Prelude.{◌≡◌, ◌∷◌, [], IfOk, None, Some, length, map, nat_abs, pos, true};
ghost use Rattle.mz_value.specs.Contents.{content, contents};
ghost use Rattle.mz_value.specs.Contents as values;
ghost use Rattle.mz_globals.specs.Reading.{length_of};
ghost use Rattle.mz_meaning.specs.Cells.{value_of};
ghost use Rattle.mz_meaning.specs.Operations.{size_of};
ghost use Rattle.mz_symbol.specs.Readings.{Reading};
ghost use Rattle.mz_eval_cells.specs.Views.{cell_of, item_content, seen};
ghost use Rattle.glob_count.specs.Windows.{count_value};
ghost use Rattle.glob_graph.specs.Tables.{table_value};

use glob_graph::Rows;
use mz_base::Memory;
use mz_eval_cells::{Item, Known};
use mz_eval_row_symbols::size_of;
use mz_value::Value;
use std::alloc::Global;

/// Whether a par argument is undefined.
pub(crate) fn is_undefined(k: &Known) -> bool
    ensures { result ≡ true → (r : Reading) → value_of (seen r k.now) ≡ None }
{
    match k {
        Known::Undefined => true,
        _ => false,
    }
}

fn item_integer(i: &Item) -> Result<i64, Memory>
    ensures { IfOk result (λ n. item_content i.now ≡ values.int n) }
{
    match i {
        Item::Int(n) => Ok(*n),
        _ => Err(Memory),
    }
}

/// A par integer.
pub(crate) fn integer_in(k: &Known) -> Result<i64, Memory>
    ensures { IfOk result (λ n. (r : Reading) → value_of (seen r k.now) ≡ Some (values.int n)) }
{
    match k {
        Known::One(i) => {
            let n = item_integer(i)?;
            Ok(n)
        }
        _ => Err(Memory),
    }
}

/// A par integer that isn't negative; its call's cost counts it.
pub(crate) fn size_in(k: &Known) -> Result<i64, Memory>
    ensures value { IfOk result (λ n. (r : Reading) → value_of (seen r k.now) ≡ Some (values.int n)) }
    ensures size { IfOk result (λ n. nat_abs n ≡ size_of (cell_of k.now)) }
{
    let n = integer_in(k)?;
    if n < 0 {
        return Err(Memory);
    }
    if n as u64 != size_of(k) {
        return Err(Memory);
    }
    Ok(n)
}

fn natural(n: i64) -> Result<usize, Memory>
    ensures { IfOk result (λ k. n ≡ pos k) }
{
    if n < 0 {
        return Err(Memory);
    }
    Ok(n as usize)
}

/// A par integer that isn't negative, as a number of elements.
pub(crate) fn count_in(k: &Known) -> Result<usize, Memory>
    ensures { IfOk result (λ n. (r : Reading) → value_of (seen r k.now) ≡ count_value n) }
{
    let n = integer_in(k)?;
    let count = natural(n)?;
    Ok(count)
}

fn integer_of(v: &Value) -> Result<i64, Memory>
    ensures { IfOk result (λ n. content v.now ≡ values.int n) }
{
    match v {
        Value::Int(n) => Ok(*n),
        _ => Err(Memory),
    }
}

fn integers_of(alloc: Global, items: &[Value]) -> Result<Vec<i64>, Memory>
    ensures { IfOk result (λ ns. map content items.now ≡ map values.int ns.items) }
{
    let mut all = Vec::new(alloc);
    for v in items {
        all.push(integer_of(v)?)?;
    }
    Ok(all)
}

/// How many numbers a range has.
fn length_of(range: &(i64, i64)) -> Result<usize, Memory>
    ensures { IfOk result (λ n. n ≡ length_of range.now) }
{
    if range.0 > range.1 {
        return Ok(0);
    }
    let n = (range.1 as i128 - range.0 as i128) as u128 + 1;
    if n > usize::MAX as u128 {
        return Err(Memory);
    }
    Ok(n as usize)
}

fn two_ranges(index: &[(i64, i64)]) -> Result<((i64, i64), (i64, i64)), Memory>
    ensures { IfOk result (λ p. index.now ≡ p.0 ∷ p.1 ∷ []) }
{
    match index {
        [x, y] => Ok((*x, *y)),
        _ => Err(Memory),
    }
}

fn table_of(alloc: Global, index: &[(i64, i64)], items: &[Value]) -> Result<Rows, Memory>
    ensures value { IfOk result (λ t. Some (values.array index.now (contents (map content items.now))) ≡ table_value t) }
    ensures count { IfOk result (λ t. t.count ≡ length_of t.index) }
{
    let p = two_ranges(index)?;
    let count = length_of(&p.0)?;
    let cells = integers_of(alloc, items)?;
    Ok(Rows {
        index: p.0,
        columns: p.1,
        count,
        cells,
    })
}

/// Out of memory where a table hasn't as many cells as its array's cell says.
fn has_cells(t: &Rows, k: &Known) -> Result<(), Memory>
    ensures { IfOk result (λ _. length t.now.cells.items ≡ size_of (cell_of k.now)) }
{
    if t.cells.len() as u64 != size_of(k) {
        return Err(Memory);
    }
    Ok(())
}

fn rows_in(alloc: Global, k: &Known) -> Result<Rows, Memory>
    ensures value { IfOk result (λ t. (r : Reading) → value_of (seen r k.now) ≡ table_value t) }
    ensures count { IfOk result (λ t. t.count ≡ length_of t.index) }
{
    match k {
        Known::Array(index, items) => table_of(alloc, index.as_slice(), items.as_slice()),
        _ => Err(Memory),
    }
}

/// A par array of integers of two dimensions.
pub(crate) fn table_in(alloc: Global, k: &Known) -> Result<Rows, Memory>
    ensures value { IfOk result (λ t. (r : Reading) → value_of (seen r k.now) ≡ table_value t) }
    ensures count { IfOk result (λ t. t.count ≡ length_of t.index) }
    ensures size { IfOk result (λ t. length t.cells.items ≡ size_of (cell_of k.now)) }
{
    let t = rows_in(alloc, k)?;
    has_cells(&t, k)?;
    Ok(t)
}
