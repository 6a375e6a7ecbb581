// Rows that give arrays, or an index set of an array.

ghost use Rattle.std.specs.Prelude.{◌≡◌, IfOk, length, nat_eq, slice_get};
ghost use Rattle.std.specs.Option.{option_map};
ghost use Rattle.mz_value.specs.Contents.{content};
ghost use Rattle.mz_operations.specs.Arguments.{arguments};
ghost use Rattle.mz_operations.specs.Values.{made_value};

use crate::building::{line_value, set_value};
use crate::elements::element_values;
use crate::index::{fits, shape};
use mz_builtin_arguments::{enum_at, index_at, items_at, push_copies, row_at, set_at, up_to};
use mz_operations::MadeRow;
use mz_value::Value;
use std::alloc::{AllocError, Global};

/// The index range at a place.
fn range_at(rs: &[(i64, i64)], place: u64) -> Option<(i64, i64)>
    ensures { result ≡ slice_get rs.now place }
{
    let place = place as usize;
    if place < rs.len() {
        Some(rs[place])
    } else {
        None
    }
}

fn has_dimensions(rs: &[(i64, i64)], dimensions: u64) -> bool
    ensures { result ≡ nat_eq (length rs.now) dimensions }
{
    rs.len() as u64 == dimensions
}

/// `index_set` and its kin.
#[tactic(auto, unfolding(mz_operations::specs::Values::made_value))]
pub(crate) fn index_set(
    alloc: Global,
    place: u64,
    dimensions: u64,
    args: &[Option<Value>],
) -> Result<Option<Value>, AllocError>
    ensures { IfOk result (λ v. option_map content v ≡ made_value (MadeRow.IndexSet place dimensions) (arguments args.now)) }
{
    let Some(rs) = index_at(args, 0) else {
        return Ok(None);
    };
    let Some(r) = range_at(rs, place) else {
        return Ok(None);
    };
    let Some(s) = up_to(alloc, r.0, r.1)? else {
        return Ok(None);
    };
    if has_dimensions(rs, dimensions) {
        Ok(Some(set_value(None, s)))
    } else {
        Ok(None)
    }
}

/// `array1d` of an array alone.
#[tactic(auto, unfolding(mz_operations::specs::Values::made_value))]
pub(crate) fn line(alloc: Global, args: &[Option<Value>]) -> Result<Option<Value>, AllocError>
    ensures { IfOk result (λ v. option_map content v ≡ made_value MadeRow.Line (arguments args.now)) }
{
    let Some(xs) = items_at(args, 0) else {
        return Ok(None);
    };
    let mut all = Vec::new(alloc);
    push_copies(alloc, &mut all, xs)?;
    let array = line_value(alloc, all)?;
    Ok(Some(array))
}

/// `array1d` to `array6d` of this many index sets and an array.
#[tactic(auto, unfolding(mz_operations::specs::Values::made_value))]
pub(crate) fn shaped(
    alloc: Global,
    d: u64,
    args: &[Option<Value>],
) -> Result<Option<Value>, AllocError>
    ensures { IfOk result (λ v. option_map content v ≡ made_value (MadeRow.Shaped d) (arguments args.now)) }
{
    let Some(w) = shape(alloc, d, args)? else {
        return Ok(None);
    };
    let Some(xs) = items_at(args, d as usize) else {
        return Ok(None);
    };
    if !fits(&w, xs.len() as u64) {
        return Ok(None);
    }
    let mut all = Vec::new(alloc);
    push_copies(alloc, &mut all, xs)?;
    Ok(Some(Value::array(w.ranges, all)))
}

/// `++` of arrays.
#[tactic(auto, unfolding(mz_operations::specs::Values::made_value))]
pub(crate) fn concatenation(
    alloc: Global,
    args: &[Option<Value>],
) -> Result<Option<Value>, AllocError>
    ensures { IfOk result (λ v. option_map content v ≡ made_value MadeRow.Concat (arguments args.now)) }
{
    let Some(xs) = row_at(args, 0) else {
        return Ok(None);
    };
    let Some(ys) = row_at(args, 1) else {
        return Ok(None);
    };
    let mut all = Vec::new(alloc);
    push_copies(alloc, &mut all, xs)?;
    push_copies(alloc, &mut all, ys)?;
    let array = line_value(alloc, all)?;
    Ok(Some(array))
}

/// `set2array`.
#[tactic(auto, unfolding(mz_operations::specs::Values::made_value))]
pub(crate) fn set_to_array(
    alloc: Global,
    args: &[Option<Value>],
) -> Result<Option<Value>, AllocError>
    ensures { IfOk result (λ v. option_map content v ≡ made_value MadeRow.SetToArray (arguments args.now)) }
{
    let Some(s) = set_at(args, 0) else {
        return Ok(None);
    };
    let all = element_values(alloc, enum_at(args, 0), s)?;
    let array = line_value(alloc, all)?;
    Ok(Some(array))
}
