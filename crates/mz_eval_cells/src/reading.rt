// What is read of a cell.

ghost use Rattle.std.specs.Prelude.{◌≡◌, map, length};
ghost use Rattle.std.specs.Option.{option_map};
ghost use Rattle.mz_value.specs.Contents.{content, contents};
ghost use Rattle.mz_operations.specs.Views.{items_in};
ghost use Rattle.mz_meaning.specs.Cells as cells;
ghost use Rattle.mz_meaning.specs.Cells.{value_of};
ghost use Rattle.mz_eval_cells.specs.Views.{cell_of, cells_of, item_content, sure_of, test_if};
ghost use Rattle.std.specs.Prelude.{Some};

use crate::types::{Item, Known, Sure};
use mz_value::{RangeSet, SetValue, Value};

/// Whether the cell is par.
pub fn is_par(k: &Known) -> bool
    ensures { result ≡ cells.is_par (cell_of k.now) }
{
    match k {
        Known::Undefined => true,
        Known::One(_) => true,
        Known::Array(_, _) => true,
        Known::Var(_) => false,
        Known::Row(_, _) => false,
        Known::Unshaped(_) => false,
    }
}

/// Whether all cells are par.
pub fn all_par(ks: &[Known]) -> bool
    ensures { result ≡ cells.all_par (cells_of ks.now) }
{
    for k in ks {
        if !is_par(k) {
            return false;
        }
    }
    true
}

/// Whether a par cell is defined; a var one has no value here.
pub fn is_there(k: &Known) -> bool
    ensures { result ≡ cells.is_there (value_of (cell_of k.now)) }
{
    match k {
        Known::Undefined => false,
        Known::One(_) => true,
        Known::Array(_, _) => true,
        Known::Var(_) => false,
        Known::Row(_, _) => false,
        Known::Unshaped(_) => false,
    }
}

pub(crate) fn is_true_item(i: &Item) -> bool
    ensures { result ≡ cells.is_true (Some (item_content i.now)) }
{
    match i {
        Item::Bool(b) => *b,
        Item::Int(_) => false,
        Item::Enum(_, _) => false,
        Item::Absent => false,
        Item::Set(_) => false,
        Item::Text(_) => false,
    }
}

/// Whether the cell is par, defined and true.
pub fn is_true(k: &Known) -> bool
    ensures { result ≡ cells.is_true (value_of (cell_of k.now)) }
{
    match k {
        Known::Undefined => false,
        Known::One(i) => is_true_item(i),
        Known::Array(_, _) => false,
        Known::Var(_) => false,
        Known::Row(_, _) => false,
        Known::Unshaped(_) => false,
    }
}

/// What decides of a condition: whether a par one is true, and `None` of a var one.
pub fn test_of(k: &Known) -> Option<bool>
    ensures { cells.test_of (cell_of k.now) ≡ test_if result }
{
    match k {
        Known::Undefined => Some(false),
        Known::One(i) => Some(is_true_item(i)),
        Known::Array(_, _) => Some(false),
        Known::Var(_) => None,
        Known::Row(_, _) => None,
        Known::Unshaped(_) => None,
    }
}

/// The elements of a set, whose enum doesn't matter.
pub fn ranges_of(s: &SetValue) -> &RangeSet
    ensures { result.now ≡ s.now.ranges }
{
    &s.ranges
}

#[tactic(auto, unfolding(mz_operations::specs::Views::as_set))]
fn set_of_item(i: &Item) -> Option<&RangeSet>
    ensures { option_map (λ s. s.now) result ≡ cells.set_in (cells.par_value (item_content i.now)) }
{
    match i {
        Item::Set(s) => Some(ranges_of(s)),
        _ => None,
    }
}

/// The set of a par cell that is a set and defined.
#[tactic(auto, unfolding(mz_operations::specs::Views::as_set))]
pub fn set_in(k: &Known) -> Option<&RangeSet>
    ensures { option_map (λ s. s.now) result ≡ cells.set_in (cell_of k.now) }
{
    match k {
        Known::One(i) => set_of_item(i),
        _ => None,
    }
}

/// An array's index ranges; `None` of an undefined par array, also where it has become var, and of
/// what is no array.
#[tactic(auto, unfolding(mz_operations::specs::Views::as_index))]
pub fn index_of(k: &Known) -> Option<&[(i64, i64)]>
    ensures { option_map (λ r. r.now) result ≡ cells.index_of (cell_of k.now) }
{
    match k {
        Known::Array(index, _) => Some(index.as_slice()),
        Known::Row(index, _) => Some(index.as_slice()),
        _ => None,
    }
}

#[tactic(auto, using(crate::proofs::Items::items_length))]
fn item_count(items: &[Value]) -> u64
    ensures { result ≡ length (items_in (contents (map content items.now))) }
{
    items.len() as u64
}

/// How many elements an array has; `None` where `index_of` gives none.
#[tactic(auto, unfolding(mz_operations::specs::Views::as_items))]
pub fn length_of(k: &Known) -> Option<u64>
    ensures { result ≡ cells.length_of (cell_of k.now) }
{
    match k {
        Known::Array(_, items) => Some(item_count(items.as_slice())),
        Known::Row(_, xs) => Some(xs.bounds.len() as u64),
        _ => None,
    }
}

/// A value is there.
pub fn there(k: &Known) -> Sure
    ensures { sure_of result ≡ cells.there (cell_of k.now) }
{
    Sure {
        par: is_par(k),
        is: is_there(k),
    }
}
