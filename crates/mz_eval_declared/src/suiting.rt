// Whether values lie in declared sets.

ghost use Rattle.std.specs.Prelude.{◌≡◌, IfOk, map, not};
ghost use Rattle.std.specs.List.{list_all};
ghost use Rattle.mz_value.specs.Contents.{content};
ghost use Rattle.mz_operations.specs.Sets.{is_empty_set};
ghost use Rattle.mz_meaning.specs.Arrays as arrays;
ghost use Rattle.mz_meaning.specs.Calls as calls;
ghost use Rattle.mz_meaning.specs.Cells.{value_of};
ghost use Rattle.mz_eval_cells.specs.Views.{cell_of, item_content, sure_of};
ghost use Rattle.mz_eval_declared.specs.Wants.{wanted};

use crate::want::{Want, has_set};
use mz_builtin_arguments::{contains, is_subset};
use mz_eval_cells::{Item, Known, Sure, is_par, there, unsure};
use mz_value::{RangeSet, Value};
use std::alloc::{AllocError, Global};

fn is_not_empty(u: &RangeSet) -> bool
    ensures { result ≡ not (is_empty_set u.now) }
{
    !u.ranges().is_empty()
}

/// Whether an element of an array lies in a set.
fn element_suits(alloc: Global, u: &RangeSet, v: &Value) -> Result<bool, AllocError>
    ensures { IfOk result (λ b. b ≡ arrays.item_suits u.now (content v.now)) }
{
    match v {
        Value::Bool(_) => Ok(true),
        Value::Int(n) => Ok(contains(u, *n)),
        Value::Enum(_, k) => Ok(contains(u, *k)),
        Value::Set(s) => is_subset(alloc, &s.ranges, u),
        Value::Absent => Ok(is_not_empty(u)),
        Value::Text(_) => Ok(true),
        Value::Array(_) => Ok(true),
    }
}

fn item_suits(alloc: Global, u: &RangeSet, i: &Item) -> Result<bool, AllocError>
    ensures { IfOk result (λ b. b ≡ arrays.value_suits u.now (item_content i.now)) }
{
    match i {
        Item::Bool(_) => Ok(true),
        Item::Int(n) => Ok(contains(u, *n)),
        Item::Enum(_, k) => Ok(contains(u, *k)),
        Item::Absent => Ok(is_not_empty(u)),
        Item::Set(s) => is_subset(alloc, &s.ranges, u),
        Item::Text(_) => Ok(true),
    }
}

fn all_suit(alloc: Global, u: &RangeSet, items: &[Value]) -> Result<bool, AllocError>
    ensures { IfOk result (λ b. b ≡ list_all (arrays.item_suits u.now) (map content items.now)) }
{
    for x in items {
        if !element_suits(alloc, u, x)? {
            return Ok(false);
        }
    }
    Ok(true)
}

/// Whether a cell's value is there and lies in a set.
#[tactic(auto, using(mz_builtin_arguments::proofs::Views::items_in_contents))]
fn defined_in(alloc: Global, u: &RangeSet, k: &Known) -> Result<bool, AllocError>
    ensures { IfOk result (λ b. b ≡ arrays.defined_in u.now (value_of (cell_of k.now))) }
{
    match k {
        Known::Undefined => Ok(false),
        Known::One(i) => item_suits(alloc, u, i),
        Known::Array(_, items) => all_suit(alloc, u, items.as_slice()),
        Known::Var(_) => Ok(false),
        Known::Row(_, _) => Ok(false),
        Known::Unshaped(_) => Ok(false),
    }
}

/// Whether a value is there and lies in its declared set: an absent option lies in each set that
/// isn't empty; of an array each element lies in it; and a set is a part of it. Linear in the
/// elements and ranges.
pub fn suits(alloc: Global, w: &Want, k: &Known) -> Result<Sure, AllocError>
    ensures { IfOk result (λ s. sure_of s ≡ arrays.suits (wanted w.now) (cell_of k.now)) }
{
    match w {
        Want::Anything => Ok(there(k)),
        Want::Missing => Ok(unsure()),
        Want::Within(u) => {
            let is = defined_in(alloc, u, k)?;
            Ok(Sure { par: is_par(k), is })
        }
    }
}

/// Whether an argument is there and lies in its parameter's set. Where the call's result is par and
/// the parameter is var, only the set has to be there.
pub fn argument_suits(
    alloc: Global,
    result_var: bool,
    parameter_var: bool,
    w: &Want,
    k: &Known,
) -> Result<Sure, AllocError>
    ensures { IfOk result (λ s. sure_of s ≡ calls.argument_suits result_var parameter_var (wanted w.now) (cell_of k.now)) }
{
    match (result_var, parameter_var) {
        (true, _) => suits(alloc, w, k),
        (false, false) => suits(alloc, w, k),
        (false, true) => Ok(has_set(w)),
    }
}
