// The bounds of rows that give truth values, integers and cases: one function a row, each by its line of the definitions.

ghost use Rattle.std.specs.Prelude.{◌≡◌, IfOk};
ghost use Rattle.std.specs.Option.{option_map};
ghost use Rattle.mz_operations.specs.RowBounds.{exponent};
ghost use Rattle.mz_operations.specs.RowBounds as rows;
ghost use Rattle.mz_operations.specs.Bounds as bounds;
ghost use Rattle.mz_eval_row_bounds.specs.Arguments.{all_bounds, numbers};

use crate::arguments::{all_ends_at, elements_at, ends_at, upper_at};
use mz_builtin_arguments::end_of;
use mz_eval_cells::Known;
use mz_operations::{Arith, Fold, ScalarRow, Side, Sign};
use mz_operations_bounds::{arith_ends, extreme_ends, folded_ends, raised_ends, sign_ends};
use mz_value::RangeSet;
use std::alloc::{AllocError, Global};

/// The same ends, as wide numbers.
fn wide(e: &(i64, i64)) -> (i128, i128)
    ensures { result ≡ e.now }
{
    (e.0 as i128, e.1 as i128)
}

#[tactic(auto, unfolding(mz_operations::specs::RowBounds::scalar_bounds))]
fn arith(alloc: Global, op: Arith, cells: &[Known]) -> Result<Option<(i128, i128)>, AllocError>
    ensures { IfOk result (λ e. option_map numbers e ≡ rows.scalar_bounds (ScalarRow.Arith op) (all_bounds cells.now)) }
{
    let Some(e) = ends_at(alloc, cells, 0)? else {
        return Ok(None);
    };
    let Some(f) = ends_at(alloc, cells, 1)? else {
        return Ok(None);
    };
    Ok(Some(arith_ends(op, &e, &f)))
}

#[tactic(auto, unfolding(mz_operations::specs::RowBounds::scalar_bounds))]
fn sign(alloc: Global, op: Sign, cells: &[Known]) -> Result<Option<(i128, i128)>, AllocError>
    ensures { IfOk result (λ e. option_map numbers e ≡ rows.scalar_bounds (ScalarRow.Sign op) (all_bounds cells.now)) }
{
    let Some(e) = ends_at(alloc, cells, 0)? else {
        return Ok(None);
    };
    Ok(Some(sign_ends(op, &e)))
}

/// 0 where it is negative.
#[tactic(auto, using(crate::proofs::Counting::exponent_none, crate::proofs::Counting::exponent_some))]
fn exponent_of(k: i64) -> u64
    ensures { result ≡ exponent k }
{
    if k < 0 { 0 } else { k.unsigned_abs() }
}

#[tactic(auto, unfolding(mz_operations::specs::RowBounds::scalar_bounds))]
fn power(alloc: Global, cells: &[Known]) -> Result<Option<(i128, i128)>, AllocError>
    ensures { IfOk result (λ e. option_map numbers e ≡ rows.scalar_bounds ScalarRow.Power (all_bounds cells.now)) }
{
    let Some(e) = ends_at(alloc, cells, 0)? else {
        return Ok(None);
    };
    let Some(k) = ends_at(alloc, cells, 1)? else {
        return Ok(None);
    };
    Ok(Some(raised_ends(&e, exponent_of(k.0))))
}

#[tactic(auto, unfolding(mz_operations::specs::RowBounds::scalar_bounds))]
fn fold(alloc: Global, op: Fold, cells: &[Known]) -> Result<Option<(i128, i128)>, AllocError>
    ensures { IfOk result (λ e. option_map numbers e ≡ rows.scalar_bounds (ScalarRow.Fold op) (all_bounds cells.now)) }
{
    let Some(es) = all_ends_at(alloc, cells, 0)? else {
        return Ok(None);
    };
    Ok(Some(folded_ends(op, es.as_slice())))
}

#[tactic(auto, unfolding(mz_operations::specs::RowBounds::scalar_bounds))]
fn extreme(alloc: Global, side: Side, cells: &[Known]) -> Result<Option<(i128, i128)>, AllocError>
    ensures { IfOk result (λ e. option_map numbers e ≡ rows.scalar_bounds (ScalarRow.Extreme side) (all_bounds cells.now)) }
{
    let Some(es) = all_ends_at(alloc, cells, 0)? else {
        return Ok(None);
    };
    let nearest = extreme_ends(side, es.as_slice());
    Ok(Some(wide(&nearest)))
}

/// The bounds of a count of this many elements.
fn count_ends(n: u64) -> (i128, i128)
    ensures { result ≡ bounds.count_ends n }
{
    (0, n as i128)
}

#[tactic(auto, unfolding(mz_operations::specs::RowBounds::scalar_bounds), using(crate::proofs::Listing::as_many))]
fn count(alloc: Global, cells: &[Known]) -> Result<Option<(i128, i128)>, AllocError>
    ensures { IfOk result (λ e. option_map numbers e ≡ rows.scalar_bounds ScalarRow.Count (all_bounds cells.now)) }
{
    let Some(all) = elements_at(alloc, cells, 0)? else {
        return Ok(None);
    };
    Ok(Some(count_ends(all.len() as u64)))
}

#[tactic(auto, unfolding(mz_operations::specs::RowBounds::scalar_bounds))]
fn ordinal(alloc: Global, cells: &[Known]) -> Result<Option<(i128, i128)>, AllocError>
    ensures { IfOk result (λ e. option_map numbers e ≡ rows.scalar_bounds ScalarRow.Ordinal (all_bounds cells.now)) }
{
    let Some(e) = ends_at(alloc, cells, 0)? else {
        return Ok(None);
    };
    Ok(Some(wide(&e)))
}

/// The bounds of the number of elements of a set that lies in this one.
fn card_ends(s: &RangeSet) -> (i128, i128)
    ensures { result ≡ bounds.card_ends s.now }
{
    (0, s.card() as i128)
}

#[tactic(auto, unfolding(mz_operations::specs::RowBounds::scalar_bounds))]
fn card(alloc: Global, cells: &[Known]) -> Result<Option<(i128, i128)>, AllocError>
    ensures { IfOk result (λ e. option_map numbers e ≡ rows.scalar_bounds ScalarRow.Card (all_bounds cells.now)) }
{
    let Some(u) = upper_at(alloc, cells, 0)? else {
        return Ok(None);
    };
    Ok(Some(card_ends(&u)))
}

/// From the least to the greatest element, 0..0 of the empty set.
fn hull_of_set(s: &RangeSet) -> (i64, i64)
    ensures { result ≡ bounds.hull_of_set s.now }
{
    let least = end_of(Side::Least, s);
    let greatest = end_of(Side::Greatest, s);
    (least.unwrap_or(0), greatest.unwrap_or(0))
}

#[tactic(auto, unfolding(mz_operations::specs::RowBounds::scalar_bounds))]
fn beside(alloc: Global, side: Side, cells: &[Known]) -> Result<Option<(i128, i128)>, AllocError>
    ensures { IfOk result (λ e. option_map numbers e ≡ rows.scalar_bounds (ScalarRow.Beside side) (all_bounds cells.now)) }
{
    let Some(u) = upper_at(alloc, cells, 0)? else {
        return Ok(None);
    };
    let hull = hull_of_set(&u);
    Ok(Some(wide(&hull)))
}

/// The bounds of a truth value.
fn truth() -> (i128, i128)
    ensures { result ≡ bounds.truth }
{
    (0, 1)
}

/// The bounds of what a row gives of these arguments, which may leave the limit; `None` where the
/// arguments are of other kinds, and where the row's value is always par.
#[tactic(auto, unfolding(mz_operations::specs::RowBounds::scalar_bounds))]
pub fn scalar_bounds(
    alloc: Global,
    row: ScalarRow,
    cells: &[Known],
) -> Result<Option<(i128, i128)>, AllocError>
    ensures { IfOk result (λ e. option_map numbers e ≡ rows.scalar_bounds row (all_bounds cells.now)) }
{
    match row {
        ScalarRow::Arith(op) => arith(alloc, op, cells),
        ScalarRow::Sign(op) => sign(alloc, op, cells),
        ScalarRow::Power => power(alloc, cells),
        ScalarRow::Fold(op) => fold(alloc, op, cells),
        ScalarRow::Extreme(side) => extreme(alloc, side, cells),
        ScalarRow::Count => count(alloc, cells),
        ScalarRow::Ordinal => ordinal(alloc, cells),
        ScalarRow::Card => card(alloc, cells),
        ScalarRow::Beside(side) => beside(alloc, side, cells),
        ScalarRow::SetExtreme(_) => Ok(None),
        ScalarRow::Length => Ok(None),
        ScalarRow::Logic(_) => Ok(Some(truth())),
        ScalarRow::Not => Ok(Some(truth())),
        ScalarRow::Order(_) => Ok(Some(truth())),
        ScalarRow::Equal => Ok(Some(truth())),
        ScalarRow::Unequal => Ok(Some(truth())),
        ScalarRow::SetEqual => Ok(Some(truth())),
        ScalarRow::SetUnequal => Ok(Some(truth())),
        ScalarRow::In => Ok(Some(truth())),
        ScalarRow::Quantified(_) => Ok(Some(truth())),
        ScalarRow::Clause => Ok(Some(truth())),
        ScalarRow::Occurs => Ok(Some(truth())),
        ScalarRow::Absent => Ok(Some(truth())),
        ScalarRow::Assert => Ok(Some(truth())),
    }
}
