// What a generator runs over.

ghost use Rattle.std.specs.Prelude.{◌≡◌, IfOk, None, Some, false, map};
ghost use Rattle.std.specs.List.{enumerate_from};
ghost use Rattle.mz_value.specs.Contents.{content, contents};
ghost use Rattle.mz_value.specs.Shown.{elements};
ghost use Rattle.mz_operations.specs.Arrays.{element_of};
ghost use Rattle.mz_operations.specs.Bounds as bounds;
ghost use Rattle.mz_operations.specs.Views.{items_in};
ghost use Rattle.mz_meaning.specs.Cells.{Bare, Var, par_value};
ghost use Rattle.mz_meaning.specs.Comprehensions as comprehensions;
ghost use Rattle.mz_eval_cells.specs.Views.{cell_of, item_content, known_bound};
ghost use Rattle.mz_eval_arrays.specs.Gathered.{elements_of};

use mz_core::Base;
use mz_eval_cells::{Bound, Item, Known, enum_in, one, ranges_of, share_bound, var_value};
use mz_value::{RangeSet, Value};
use std::alloc::{AllocError, Global};

/// What a generator runs over, in its order.
#[derive(Clone, Copy)]
pub enum Elements<'a> {
    Nothing,
    /// The numbers of a set, as integers or as cases of the enum with this number, and whether each
    /// surely occurs.
    Numbers(Option<u64>, bool, &'a RangeSet),
    /// The elements of a par array.
    Values(&'a [Value]),
    /// The bounds of the elements of a var array.
    Places(&'a [Bound]),
}

/// An integer, or a case of the enum with this number.
pub fn element(of: Option<u64>, n: i64) -> Known
    ensures { cell_of result ≡ par_value (element_of of n) }
{
    match of {
        None => one(Item::Int(n)),
        Some(e) => one(Item::Enum(e, n)),
    }
}

/// An element of a var array with these bounds.
pub fn place(alloc: Global, b: &Bound) -> Result<Known, AllocError>
    ensures { IfOk result (λ x. cell_of x ≡ Var (bounds.one (known_bound b.now)) None) }
{
    let bound = share_bound(b)?;
    var_value(alloc, bound)
}

fn item_elements(base: Base, i: &Item) -> Elements<'_>
    ensures { elements_of result ≡ comprehensions.set_elements base (Some (item_content i.now)) }
{
    match i {
        Item::Set(s) => Elements::Numbers(enum_in(base), true, ranges_of(s)),
        Item::Bool(_) => Elements::Nothing,
        Item::Int(_) => Elements::Nothing,
        Item::Enum(_, _) => Elements::Nothing,
        Item::Absent => Elements::Nothing,
        Item::Text(_) => Elements::Nothing,
    }
}

/// The numbers of a set of which none surely occurs.
fn perhaps(of: Option<u64>, s: &RangeSet) -> Elements<'_>
    ensures { elements_of result ≡ map (λ n. (par_value (element_of of n), Some false)) (elements s.now) }
{
    Elements::Numbers(of, false, s)
}

fn bound_elements(base: Base, b: &Bound) -> Elements<'_>
    ensures { elements_of result ≡ comprehensions.var_elements Bare base (bounds.one (known_bound b.now)) None }
{
    match b {
        Bound::Number(_, _) => Elements::Nothing,
        Bound::Sets(_, upper) => perhaps(enum_in(base), upper),
    }
}

fn array_elements(items: &[Value]) -> Elements<'_>
    ensures { elements_of result ≡ map (λ x. comprehensions.surely (par_value x)) (items_in (contents (map content items.now))) }
{
    Elements::Values(items)
}

fn row_elements(bs: &[Bound]) -> Elements<'_>
    ensures { elements_of result ≡ map (comprehensions.place_cell Bare None) (enumerate_from 0 (map known_bound bs.now)) }
{
    Elements::Places(bs)
}

/// What a generator over this cell runs over, whose type has this base: a set's elements, ascending,
/// of a var set over those that it may have, which then may be absent; or an array's elements.
pub fn elements_in(base: Base, k: &Known) -> Elements<'_>
    ensures { elements_of result ≡ comprehensions.elements_in Bare base (cell_of k.now) }
{
    match k {
        Known::Undefined => Elements::Nothing,
        Known::One(i) => item_elements(base, i),
        Known::Array(_, items) => array_elements(items.as_slice()),
        Known::Var(v) => bound_elements(base, &v.bound),
        Known::Row(_, xs) => row_elements(xs.bounds.as_slice()),
        Known::Unshaped(_) => Elements::Nothing,
    }
}
