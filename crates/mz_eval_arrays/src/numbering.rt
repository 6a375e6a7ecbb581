// The numbers that cells are, as elements of a set.

ghost use Rattle.std.specs.Prelude.{◌≡◌, ◌++◌, ◌∷◌, [], IfOk, filter, map};
ghost use Rattle.std.specs.Option.{option_and_then, option_map};
ghost use Rattle.mz_value.specs.Contents.{content};
ghost use Rattle.mz_interval.specs.Ends as ends;
ghost use Rattle.mz_meaning.specs.Arrays.{number_in};
ghost use Rattle.mz_meaning.specs.Cells.{par_value, par_value_of};
ghost use Rattle.mz_eval_cells.specs.Views.{cell_of, cells_of, item_content};
ghost use Rattle.mz_eval_arrays.specs.StepsJoining.{numbers_in, unions, values_from};

use mz_builtin_arguments::is_number;
use mz_eval_cells::{Item, Known};
use mz_value::{RangeSet, Value};
use std::alloc::{AllocError, Global};

#[tactic(auto, unfolding(mz_operations::specs::Views::as_element, mz_operations::specs::Views::as_ordinal))]
fn number_of_value(v: &Value) -> Option<i64>
    ensures { result ≡ number_in (content v.now) }
{
    match v {
        Value::Bool(true) => Some(1),
        Value::Bool(false) => Some(0),
        Value::Int(n) => Some(*n),
        Value::Enum(_, k) => Some(*k),
        _ => None,
    }
}

#[tactic(auto, unfolding(mz_operations::specs::Views::as_element, mz_operations::specs::Views::as_ordinal))]
fn number_of_item(i: &Item) -> Option<i64>
    ensures { result ≡ number_in (item_content i.now) }
{
    match i {
        Item::Bool(true) => Some(1),
        Item::Bool(false) => Some(0),
        Item::Int(n) => Some(*n),
        Item::Enum(_, k) => Some(*k),
        Item::Absent => None,
        Item::Set(_) => None,
        Item::Text(_) => None,
    }
}

#[tactic(auto, unfolding(mz_operations::specs::Views::as_element))]
fn number_of_cell(k: &Known) -> Option<i64>
    ensures { result ≡ option_and_then number_in (par_value_of (cell_of k.now)) }
{
    match k {
        Known::One(i) => number_of_item(i),
        _ => None,
    }
}

/// The numbers of values, where each is an integer, a truth value or a case.
#[tactic(auto, unfolding(crate::specs::StepsJoining::values_from))]
pub(crate) fn numbers_of_values(
    alloc: Global,
    items: &[Value],
) -> Result<Option<Vec<i64>>, AllocError>
    ensures { IfOk result (λ v. option_map (λ ns. ns.items) v ≡ values_from [] (numbers_in (map (λ x. par_value (content x)) items.now))) }
{
    let mut all = Vec::new(alloc);
    for x in items {
        match number_of_value(x) {
            None => return Ok(None),
            Some(n) => all.push(n)?,
        }
    }
    Ok(Some(all))
}

/// The numbers of cells, where each is par, defined, and an integer, a truth value or a case.
#[tactic(auto, unfolding(crate::specs::StepsJoining::values_from))]
pub(crate) fn numbers_of_cells(
    alloc: Global,
    cells: &[Known],
) -> Result<Option<Vec<i64>>, AllocError>
    ensures { IfOk result (λ v. option_map (λ ns. ns.items) v ≡ values_from [] (numbers_in (cells_of cells.now))) }
{
    let mut all = Vec::new(alloc);
    for k in cells {
        match number_of_cell(k) {
            None => return Ok(None),
            Some(n) => all.push(n)?,
        }
    }
    Ok(Some(all))
}

fn push_in_limit(mut all: Vec<i64>, n: i64) -> Result<Vec<i64>, AllocError>
    ensures { IfOk result (λ v. v.items ≡ all.items ++ filter ends.is_number (n ∷ [])) }
{
    if is_number(i128::from(n)) {
        all.push(n)?;
    }
    Ok(all)
}

/// The numbers that lie in the limit.
#[tactic(auto, using(std::proofs::lemmas::List::Elements::filter_more))]
fn numbers_in_limit(alloc: Global, ns: &[i64]) -> Result<Vec<i64>, AllocError>
    ensures { IfOk result (λ v. v.items ≡ filter ends.is_number ns.now) }
{
    let mut all = Vec::new(alloc);
    for n in ns {
        all = push_in_limit(all, *n)?;
    }
    Ok(all)
}

/// The set of these numbers, without those outside the limit.
pub(crate) fn set_of_numbers(alloc: Global, ns: &[i64]) -> Result<RangeSet, AllocError>
    ensures { IfOk result (λ s. s ≡ unions [] ns.now) }
{
    let all = numbers_in_limit(alloc, ns)?;
    RangeSet::of(alloc, &all)
}
