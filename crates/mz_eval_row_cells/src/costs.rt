// What rows cost over cells.

ghost use Rattle.std.specs.Prelude.{◌≡◌, ◌∷◌, [], IfOk, map};
ghost use Rattle.mz_value.specs.Contents.{int};
ghost use Rattle.mz_meaning.specs.Operations as operations;
ghost use Rattle.mz_eval_cells.specs.Views.{cell_of, cells_of, item_content};

use mz_builtin_apply::{cost_of, counts_from};
use mz_eval_cells::{Item, Known, length_of};
use mz_operations::Row;
use std::alloc::{AllocError, Global};

#[tactic(auto, using(crate::proofs::Sizes::size_none, crate::proofs::Sizes::size_some))]
fn number_size(n: i64) -> u64
    ensures { result ≡ operations.content_size (int n) }
{
    if n < 0 { 0 } else { n.unsigned_abs() }
}

/// The elements of a set, and an integer that isn't negative.
fn item_size(i: &Item) -> u64
    ensures { result ≡ operations.content_size (item_content i.now) }
{
    match i {
        Item::Bool(_) => 0,
        Item::Int(n) => number_size(*n),
        Item::Enum(_, _) => 0,
        Item::Absent => 0,
        Item::Set(s) => s.ranges.card(),
        Item::Text(_) => 0,
    }
}

fn own_size(k: &Known) -> u64
    ensures { result ≡ operations.own_size (cell_of k.now) }
{
    match k {
        Known::Undefined => 0,
        Known::One(i) => item_size(i),
        Known::Array(_, _) => 0,
        Known::Var(_) => 0,
        Known::Row(_, _) => 0,
        Known::Unshaped(_) => 0,
    }
}

/// How many elements an argument has.
/// An array's elements, a set's numbers, and a par integer that isn't negative; else 0.
pub fn size_of(k: &Known) -> u64
    ensures { result ≡ operations.size_of (cell_of k.now) }
{
    match length_of(k) {
        Some(n) => n,
        None => own_size(k),
    }
}

fn cost_by_size(row: Row, a: &Known) -> u64
    ensures { result ≡ operations.row_cost row (cell_of a.now ∷ []) }
{
    let sizes = [size_of(a)];
    cost_of(row, &sizes)
}

/// What a row of one argument costs: at most 2^62. Takes no memory, and reads a set only where its
/// elements count.
#[tactic(auto, unfolding(mz_operations::specs::Costs::cost))]
pub fn cost_of_one(row: Row, a: &Known) -> u64
    ensures { result ≡ operations.row_cost row (cell_of a.now ∷ []) }
{
    match counts_from(row) {
        None => 1,
        Some(_) => cost_by_size(row, a),
    }
}

fn cost_by_sizes(row: Row, a: &Known, b: &Known) -> u64
    ensures { result ≡ operations.row_cost row (cell_of a.now ∷ cell_of b.now ∷ []) }
{
    let sizes = [size_of(a), size_of(b)];
    cost_of(row, &sizes)
}

/// What a row of two arguments costs, as `cost_of_one` says.
#[tactic(auto, unfolding(mz_operations::specs::Costs::cost))]
pub fn cost_of_two(row: Row, a: &Known, b: &Known) -> u64
    ensures { result ≡ operations.row_cost row (cell_of a.now ∷ cell_of b.now ∷ []) }
{
    match counts_from(row) {
        None => 1,
        Some(_) => cost_by_sizes(row, a, b),
    }
}

/// How many elements each argument has, or the value of a par integer that isn't negative.
pub fn sizes_of(alloc: Global, cells: &[Known]) -> Result<Vec<u64>, AllocError>
    ensures { IfOk result (λ ns. ns.items ≡ map operations.size_of (cells_of cells.now)) }
{
    let mut sizes = Vec::new(alloc);
    for k in cells {
        sizes.push(size_of(k))?;
    }
    Ok(sizes)
}

/// What a row costs: 1 and the elements of its arrays, and of the set of `set2array`; at most 2^62.
pub fn cost_of_all(alloc: Global, row: Row, cells: &[Known]) -> Result<u64, AllocError>
    ensures { IfOk result (λ n. n ≡ operations.row_cost row (cells_of cells.now)) }
{
    let sizes = sizes_of(alloc, cells)?;
    Ok(cost_of(row, sizes.as_slice()))
}
