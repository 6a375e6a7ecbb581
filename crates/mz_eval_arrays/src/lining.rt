// Arrays and sets of the cells of a list.

ghost use Rattle.std.specs.Prelude.{◌≡◌, [], IfOk, None, map};
ghost use Rattle.std.specs.Option.{option_map};
ghost use Rattle.mz_value.specs.Contents as values;
ghost use Rattle.mz_value.specs.Contents.{content};
ghost use Rattle.mz_core.specs.Types.{plain_type};
ghost use Rattle.mz_meaning.specs.Arrays as arrays;
ghost use Rattle.mz_meaning.specs.Coerced as coerced;
ghost use Rattle.mz_meaning.specs.Cells as cells;
ghost use Rattle.mz_meaning.specs.Cells.{Bare, Par, Var, par_value};
ghost use Rattle.mz_operations.specs.Arrays.{line};
ghost use Rattle.mz_operations.specs.RowBounds.{line_of};
ghost use Rattle.mz_eval_cells.specs.Views.{cell_of, cells_of};
ghost use Rattle.mz_eval_arrays.specs.Gathered.{gathered};
ghost use Rattle.mz_eval_arrays.specs.StepsJoining.{numbers_in, unions, values_from};

use crate::gathering::Gathered;
use crate::joining::{all_values, cell_bounds, from_one};
use crate::numbering::{numbers_of_cells, numbers_of_values, set_of_numbers};
use mz_core::TypeInst;
use mz_eval_cells::{Known, all_par, array, enum_in, set, undefined, var_items};
use mz_value::Value;
use std::alloc::{AllocError, Global};

fn line_of_values(alloc: Global, items: Vec<Value>) -> Result<Known, AllocError>
    ensures { IfOk result (λ k. cell_of k ≡ par_value (line (map content items.items))) }
{
    let index = from_one(alloc, items.len())?;
    let k = array(alloc, index, items)?;
    Ok(k)
}

fn par_line(alloc: Global, all: &[Known]) -> Result<Known, AllocError>
    ensures { IfOk result (λ k. cell_of k ≡ Par (arrays.line_value (cells_of all.now))) }
{
    match all_values(alloc, all)? {
        None => Ok(undefined()),
        Some(items) => line_of_values(alloc, items),
    }
}

fn var_line(alloc: Global, all: &[Known]) -> Result<Known, AllocError>
    ensures { IfOk result (λ k. cell_of k ≡ Var (line_of (map (λ c. cells.scalar_bound (cells.bounds_in c)) (cells_of all.now))) None) }
{
    let bounds = cell_bounds(alloc, all)?;
    let index = from_one(alloc, bounds.len())?;
    var_items(alloc, index, bounds)
}

fn line_of_cells(alloc: Global, all: &[Known]) -> Result<Known, AllocError>
    ensures { IfOk result (λ k. cell_of k ≡ arrays.line_cell Bare (cells_of all.now)) }
{
    if all_par(all) {
        par_line(alloc, all)
    } else {
        var_line(alloc, all)
    }
}

fn line_of_items(alloc: Global, items: Vec<Value>) -> Result<Known, AllocError>
    ensures { IfOk result (λ k. cell_of k ≡ arrays.line_cell Bare (map (λ x. par_value (content x)) items.items)) }
{
    let k = line_of_values(alloc, items)?;
    Ok(k)
}

/// The array of these cells, with the index set 1..n: par where all are, and then undefined where
/// one is. Values that were gathered alone aren't copied.
pub fn line_cell(alloc: Global, g: Gathered) -> Result<Known, AllocError>
    ensures { IfOk result (λ k. cell_of k ≡ arrays.line_cell Bare (gathered g)) }
{
    match g {
        Gathered::Items(items) => line_of_items(alloc, items),
        Gathered::Cells(all) => line_of_cells(alloc, &all),
    }
}

fn numbers(alloc: Global, g: &Gathered) -> Result<Option<Vec<i64>>, AllocError>
    ensures { IfOk result (λ v. option_map (λ ns. ns.items) v ≡ values_from [] (numbers_in (gathered g.now))) }
{
    match g {
        Gathered::Items(items) => numbers_of_values(alloc, items),
        Gathered::Cells(all) => numbers_of_cells(alloc, all),
    }
}

/// The set of these numbers, at a node of this type.
#[tactic(auto, unfolding(mz_core::specs::Types::plain_type))]
fn set_of(alloc: Global, t: &TypeInst, ns: &[i64]) -> Result<Known, AllocError>
    ensures { IfOk result (λ k. cell_of k ≡ par_value (values.set (coerced.enum_in (plain_type t.now).base) (unions [] ns.now))) }
{
    let ranges = set_of_numbers(alloc, ns)?;
    let k = set(alloc, enum_in(t.base), ranges)?;
    Ok(k)
}

fn set_if(alloc: Global, t: &TypeInst, found: Option<Vec<i64>>) -> Result<Known, AllocError>
    ensures { IfOk result (λ k. cell_of k ≡ Par (option_map (values.set (coerced.enum_in (plain_type t.now).base)) (option_map (unions []) (option_map (λ v. v.items) found)))) }
{
    match found {
        None => Ok(undefined()),
        Some(ns) => set_of(alloc, t, &ns),
    }
}

/// The set of these cells, at a node of this type; undefined where one is undefined or var, or is no
/// number, truth value or case.
pub fn set_cell(alloc: Global, t: &TypeInst, g: &Gathered) -> Result<Known, AllocError>
    ensures { IfOk result (λ k. cell_of k ≡ arrays.set_cell (plain_type t.now) (gathered g.now)) }
{
    let ns = numbers(alloc, g)?;
    let k = set_if(alloc, t, ns)?;
    Ok(k)
}
