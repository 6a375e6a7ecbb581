// Rows that read a set, which isn't copied.

ghost use Rattle.std.specs.Prelude.{◌≡◌, ◌∷◌, []};
ghost use Rattle.std.specs.Option.{option_and_then, option_map};
ghost use Rattle.mz_operations.specs.Answers.{limited};
ghost use Rattle.mz_operations.specs.Values.{scalar_value};
ghost use Rattle.mz_operations.specs.Views as views;
ghost use Rattle.mz_builtin_values.specs.Scalars.{scalar_content};
ghost use Rattle.mz_meaning.specs.Cells.{value_of};
ghost use Rattle.mz_meaning.specs.Operations.{par_answer};
ghost use Rattle.mz_eval_cells.specs.Views.{cell_of, item_content};
ghost use Rattle.mz_eval_cells.specs.Meets.{Tells};

use crate::integers::scalar_cell;
use mz_base::{Span, Stop};
use mz_builtin_arguments::{contains, end_of};
use mz_builtin_values::{Scalar, given};
use mz_core::Base;
use mz_eval_cells::{Item, Known, ranges_of};
use mz_operations::{ScalarRow, Side};
use mz_value::RangeSet;

#[tactic(auto, unfolding(mz_operations::specs::Views::as_element))]
fn element_in(i: &Item) -> Option<i64>
    ensures { result ≡ views.as_element (item_content i.now) }
{
    match i {
        Item::Int(n) => Some(*n),
        Item::Enum(_, k) => Some(*k),
        _ => None,
    }
}

/// The integer that a par cell is, or the number of its case.
#[tactic(auto, unfolding(mz_operations::specs::Views::as_element))]
fn element_of(k: &Known) -> Option<i64>
    ensures { result ≡ option_and_then views.as_element (value_of (cell_of k.now)) }
{
    match k {
        Known::One(i) => element_in(i),
        _ => None,
    }
}

#[tactic(auto, unfolding(mz_operations::specs::Views::as_set))]
fn set_in(i: &Item) -> Option<&RangeSet>
    ensures { option_map (λ s. s.now) result ≡ views.as_set (item_content i.now) }
{
    match i {
        Item::Set(s) => Some(ranges_of(s)),
        _ => None,
    }
}

/// The set that a par cell is.
#[tactic(auto, unfolding(mz_operations::specs::Views::as_set))]
fn set_of(k: &Known) -> Option<&RangeSet>
    ensures { option_map (λ s. s.now) result ≡ option_and_then views.as_set (value_of (cell_of k.now)) }
{
    match k {
        Known::One(i) => set_in(i),
        _ => None,
    }
}

#[tactic(auto, unfolding(mz_operations::specs::Views::enum_of))]
fn enum_in(i: &Item) -> Option<u64>
    ensures { result ≡ views.enum_of (item_content i.now) }
{
    match i {
        Item::Enum(e, _) => Some(*e),
        Item::Set(s) => s.of,
        _ => None,
    }
}

/// The enum of a case or of a set of cases.
#[tactic(auto, unfolding(mz_operations::specs::Views::enum_of))]
fn enum_of(k: &Known) -> Option<u64>
    ensures { result ≡ option_and_then views.enum_of (value_of (cell_of k.now)) }
{
    match k {
        Known::One(i) => enum_in(i),
        _ => None,
    }
}

#[tactic(auto, unfolding(mz_operations::specs::Values::scalar_value, mz_operations::specs::Arguments::element_at, mz_operations::specs::Arguments::set_at, mz_operations::specs::Arguments::at))]
fn member(a: &Known, b: &Known) -> Option<Scalar>
    ensures { option_map scalar_content result ≡ scalar_value ScalarRow.In (value_of (cell_of a.now) ∷ value_of (cell_of b.now) ∷ []) }
{
    let x = element_of(a)?;
    let s = set_of(b)?;
    Some(Scalar::Truth(contains(s, x)))
}

/// `in` of par cells.
pub(crate) fn row_of_member(base: Base, at: Span, a: &Known, b: &Known) -> Result<Known, Stop>
    ensures { Tells cell_of result (par_answer base at (limited (scalar_value ScalarRow.In (value_of (cell_of a.now) ∷ value_of (cell_of b.now) ∷ [])))) }
{
    let v = member(a, b);
    scalar_cell(base, at, v)
}

#[tactic(auto, unfolding(mz_operations::specs::Values::scalar_value, mz_operations::specs::Arguments::set_at, mz_operations::specs::Arguments::enum_at, mz_operations::specs::Arguments::at))]
fn extreme(side: Side, a: &Known) -> Option<Scalar>
    ensures { option_map scalar_content result ≡ scalar_value (ScalarRow.SetExtreme side) (value_of (cell_of a.now) ∷ []) }
{
    let s = set_of(a)?;
    let n = end_of(side, s)?;
    Some(given(enum_of(a), n))
}

/// `min` and `max` of a par set.
pub(crate) fn row_of_extreme(side: Side, base: Base, at: Span, a: &Known) -> Result<Known, Stop>
    ensures { Tells cell_of result (par_answer base at (limited (scalar_value (ScalarRow.SetExtreme side) (value_of (cell_of a.now) ∷ [])))) }
{
    let v = extreme(side, a);
    scalar_cell(base, at, v)
}
