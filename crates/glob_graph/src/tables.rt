// `table`.

ghost use Rattle.std.specs.Prelude.{◌≡◌, ◌≤◌, ◌+◌, ◌*◌, ◌∷◌, [], IfOk, Some, drop, length, take, zip};
ghost use Rattle.std.specs.List.{list_all, list_any};
ghost use Rattle.mz_core.specs.declared.types.Base.TheVariants as base;
ghost use Rattle.mz_globals.specs.declared.global.Global.TheVariants as global;
ghost use Rattle.mz_globals.specs.Reading.{length_of};
ghost use Rattle.mz_symbol.specs.Makes.{GoesOnBy};
ghost use Rattle.glob_nodes.specs.declared.nodes.Compare.TheVariants as compare;
ghost use Rattle.glob_nodes.specs.Arguments.{IsWhole, array_value};
ghost use Rattle.glob_nodes.specs.Rows.{IsRow, row_cost};
ghost use Rattle.glob_nodes.specs.Says.{Says, Tells, compares, num};
ghost use Rattle.glob_graph.specs.Tables.{is_among, is_row, row_at, steps, table_value};

use glob_nodes::{
    Compare, Join, Numbers, Test, all_pass, compared, constant, joined, some_pass, truth, zipped,
};
use mz_arena::Id;
use mz_base::Memory;
use mz_symbol::Run;
use std::alloc::Global;

/// A par array of integers of two dimensions: its index ranges, how many rows it has, and its
/// elements, one row after another.
#[derive(Drop)]
pub struct Rows {
    pub index: (i64, i64),
    pub columns: (i64, i64),
    pub count: usize,
    pub cells: Vec<i64>,
}

/// `table`: the array is one of the rows. Of rows without columns there is only to know whether
/// there are any.
pub fn table(alloc: Global, run: &mut Run, xs: &Numbers, t: &Rows) -> Result<Id, Memory>
    requires whole { IsWhole run.old xs.now }
    requires count { t.now.count ≡ length_of t.now.index }
    requires fits { t.now.count * length xs.now.items.items ≤ length t.now.cells.items }
    ensures goes { GoesOnBy (56 * row_cost global.Table (length xs.now.items.items ∷ length t.now.cells.items ∷ [])) run.old run.new }
    ensures row { IfOk result (IsRow base.Bool run.old run.new global.Table (λ r. array_value r xs.now ∷ table_value t.now ∷ [])) }
{
    let body = one_of(alloc, run, &xs.items, t)?;
    joined(run, Join::Both, xs.defined, body)
}

fn one_of(alloc: Global, run: &mut Run, ids: &[Id], t: &Rows) -> Result<Id, Memory>
    requires { t.now.count * length ids.now ≤ length t.now.cells.items }
    ensures goes { GoesOnBy (18 * length t.now.cells.items) run.old run.new }
    ensures tells { IfOk result (Tells run.old run.new (λ r. is_among r ids.now t.now)) }
{
    if ids.is_empty() {
        truth(run, t.count != 0)
    } else {
        has_row(alloc, run, ids, t.count, &t.cells)
    }
}

fn has_row(
    alloc: Global,
    run: &mut Run,
    ids: &[Id],
    count: usize,
    cells: &[i64],
) -> Result<Id, Memory>
    ensures goes { GoesOnBy ((12 * length ids.now + 6) * count) run.old run.new }
    ensures tells { IfOk result (Tells run.old run.new (λ r. list_any (λ k. row_at r ids.now cells.now k) (steps (length ids.now) 0 count))) }
{
    let places = offsets(alloc, ids.len(), count)?;
    some_pass(run, &RowAt { alloc, ids, cells }, &places)
}

/// Where so many rows begin.
fn offsets(alloc: Global, columns: usize, count: usize) -> Result<Vec<usize>, Memory>
    ensures { IfOk result (λ ks. ks.items ≡ steps columns 0 count) }
{
    let mut places = Vec::new(alloc);
    let mut at = 0;
    let mut left = count;
    while left > 0 {
        places.push(at)?;
        at = sum(at, columns)?;
        left -= 1;
    }
    Ok(places)
}

fn sum(a: usize, b: usize) -> Result<usize, Memory>
    ensures { IfOk result (λ c. c ≡ a + b) }
{
    if a <= usize::MAX - b {
        Ok(a + b)
    } else {
        Err(Memory)
    }
}

/// Rows of which one begins at a place.
#[derive(Clone, Copy)]
struct RowAt<'a> {
    alloc: Global,
    ids: &'a [Id],
    cells: &'a [i64],
}

impl<'a> Test<usize> for RowAt<'a> {
    ghost use Rattle.std.specs.Prelude.{◌*◌, length};
    ghost use Rattle.glob_graph.specs.Tables.{row_at};

    ghost holds = { λ c k r. row_at r c.ids.now c.cells.now k };

    ghost room = { λ c. 12 * length c.ids.now };

    fn test(&self, run: &mut Run, x: &usize) -> Result<Id, Memory> {
        let row = part(self.cells, *x, self.ids.len());
        let id = is_row(self.alloc, run, self.ids, row)?;
        Ok(id)
    }
}

/// So many cells from a place on, as far as there are any.
fn part(cells: &[i64], at: usize, n: usize) -> &[i64]
    ensures { result.now ≡ take n (drop at cells.now) }
{
    first_of(rest_from(cells, at), n)
}

fn rest_from(cells: &[i64], at: usize) -> &[i64]
    ensures { result.now ≡ drop at cells.now }
{
    if at < cells.len() {
        &cells[at..]
    } else {
        &cells[cells.len()..]
    }
}

fn first_of(cells: &[i64], n: usize) -> &[i64]
    ensures { result.now ≡ take n cells.now }
{
    if n < cells.len() { &cells[..n] } else { cells }
}

/// That integers are as many as these, and each is the one at its place.
fn is_row(alloc: Global, run: &mut Run, ids: &[Id], row: &[i64]) -> Result<Id, Memory>
    ensures goes { GoesOnBy (12 * length ids.now) run.old run.new }
    ensures tells { IfOk result (Tells run.old run.new (λ r. is_row r ids.now row.now)) }
{
    if ids.len() == row.len() {
        all_equal(alloc, run, ids, row)
    } else {
        truth(run, false)
    }
}

fn all_equal(alloc: Global, run: &mut Run, ids: &[Id], row: &[i64]) -> Result<Id, Memory>
    ensures goes { GoesOnBy (12 * length ids.now) run.old run.new }
    ensures tells { IfOk result (Tells run.old run.new (λ r. list_all (λ x. compares compare.Equal (num r x.0) (Some x.1)) (zip ids.now row.now))) }
{
    let pairs = zipped(alloc, ids, row)?;
    all_pass(run, &SameNumber {}, &pairs)
}

/// An integer that is a number.
#[derive(Clone, Copy)]
struct SameNumber {}

impl Test<(Id, i64)> for SameNumber {
    ghost use Rattle.std.specs.Prelude.{Some};
    ghost use Rattle.glob_nodes.specs.declared.nodes.Compare.TheVariants as compare;
    ghost use Rattle.glob_nodes.specs.Says.{compares, num};

    ghost holds = { λ c x r. compares compare.Equal (num r x.0) (Some x.1) };

    ghost room = { λ c. 6 };

    fn test(&self, run: &mut Run, x: &(Id, i64)) -> Result<Id, Memory> {
        let id = equals(run, x)?;
        Ok(id)
    }
}

#[tactic(auto, using(mz_symbol_rows::proofs::GoingOn::goes_both))]
fn equals(run: &mut Run, x: &(Id, i64)) -> Result<Id, Memory>
    ensures goes { GoesOnBy 6 run.old run.new }
    ensures says { IfOk result (Says run.old run.new (λ r. compares compare.Equal (num r x.now.0) (Some x.now.1))) }
{
    let n = constant(run, x.1)?;
    compared(run, Compare::Equal, x.0, n)
}
