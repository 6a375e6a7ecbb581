// Free locals: their cells have the bounds of their domains, and no values.

ghost use Rattle.std.specs.Prelude.{◌≡◌, ◌<◌, ◌≤ℤ◌, ◌&&◌, pos, IfOk, None, Some, [], map, not, replicate};
ghost use Rattle.std.specs.Option.{option_map};
ghost use Rattle.mz_value.specs.Ranges.{greatest};
ghost use Rattle.mz_core.specs.Types.{plain_type};
ghost use Rattle.mz_core.specs.Types as types;
ghost use Rattle.mz_operations.specs.Arrays as operations;
ghost use Rattle.mz_operations.specs.Bounds as bounds;
ghost use Rattle.mz_meaning.specs.Runs.{State, Out};
ghost use Rattle.mz_meaning.specs.Cells as cells;
ghost use Rattle.mz_meaning.specs.Cells.{Bare};
ghost use Rattle.mz_meaning.specs.Domains.{default_set, domain_over};
ghost use Rattle.mz_meaning.specs.Arrays as arrays;
ghost use Rattle.mz_meaning.specs.Lets as lets;
ghost use Rattle.mz_eval_cells.specs.Views.{cell_of, known_bound};
ghost use Rattle.mz_eval_declared.specs.Wants.{local_of, wanted, wants_of};
ghost use Rattle.mz_eval_declared.specs.Steps as steps;

use crate::ranges::{declared_ranges, place_count};
use crate::want::Want;
use mz_builtin_arguments::end_of;
use mz_core::{Base, TypeInst};
use mz_eval_cells::{
    Bound, Known, Sure, empty_bound, share_bound, surely, unsure, var_items, var_value,
};
use mz_operations::Side;
use mz_value::RangeSet;
use std::alloc::{AllocError, Global};
use std::rc::Rc;

fn is_set(b: Base) -> bool
    ensures { result ≡ types.is_set b }
{
    match b {
        Base::SetInt => true,
        Base::SetEnum(_) => true,
        Base::SetBottom => true,
        _ => false,
    }
}

/// What a variable of this base ranges over where no set is declared.
fn default_set(alloc: Global, int_range: &i64, b: Base) -> Result<RangeSet, AllocError>
    requires least { pos 0 ≤ℤ int_range.now }
    requires greatest { int_range.now ≤ℤ greatest }
    ensures { IfOk result (λ s. s ≡ default_set int_range.now b) }
{
    match b {
        Base::Bool => RangeSet::range(alloc, 0, 1),
        _ => RangeSet::range(alloc, -*int_range, *int_range),
    }
}

/// The set of a domain; `None` where no variable has it.
#[tactic(auto, unfolding(mz_core::specs::Types::plain_type))]
fn unless_empty(t: &TypeInst, s: RangeSet) -> Option<RangeSet>
    ensures { option_map (domain_over (plain_type t.now)) result ≡ lets.unless_empty (Some (domain_over (plain_type t.now) s)) }
{
    if !is_set(t.base) && s.ranges().is_empty() {
        None
    } else {
        Some(s)
    }
}

#[tactic(auto, unfolding(mz_core::specs::Types::plain_type))]
fn any_set(alloc: Global, int_range: &i64, t: &TypeInst) -> Result<Option<RangeSet>, AllocError>
    requires least { pos 0 ≤ℤ int_range.now }
    requires greatest { int_range.now ≤ℤ greatest }
    ensures { IfOk result (λ s. option_map (domain_over (plain_type t.now)) s ≡ lets.unless_empty (lets.local_domain int_range.now (plain_type t.now) arrays.Anything)) }
{
    let s = default_set(alloc, int_range, t.base)?;
    Ok(unless_empty(t, s))
}

fn declared_set(alloc: Global, t: &TypeInst, u: &RangeSet) -> Result<Option<RangeSet>, AllocError>
    ensures { IfOk result (λ s. option_map (domain_over (plain_type t.now)) s ≡ lets.unless_empty (Some (domain_over (plain_type t.now) u.now))) }
{
    let s = u.copy(alloc)?;
    Ok(unless_empty(t, s))
}

/// The set of a free local's domain; `None` where its declared set is undefined, and where no
/// variable has the domain.
fn local_set(
    alloc: Global,
    int_range: &i64,
    t: &TypeInst,
    w: &Want,
) -> Result<Option<RangeSet>, AllocError>
    requires least { pos 0 ≤ℤ int_range.now }
    requires greatest { int_range.now ≤ℤ greatest }
    ensures { IfOk result (λ s. option_map (domain_over (plain_type t.now)) s ≡ lets.unless_empty (lets.local_domain int_range.now (plain_type t.now) (wanted w.now))) }
{
    match w {
        Want::Anything => any_set(alloc, int_range, t),
        Want::Missing => Ok(None),
        Want::Within(u) => declared_set(alloc, t, u),
    }
}

/// From the least to the greatest element, 0..0 of the empty set.
fn hull_of_set(s: &RangeSet) -> (i64, i64)
    ensures { result ≡ bounds.hull_of_set s.now }
{
    let least = end_of(Side::Least, s);
    let greatest = end_of(Side::Greatest, s);
    (least.unwrap_or(0), greatest.unwrap_or(0))
}

fn number_over(s: &RangeSet) -> Bound
    ensures { known_bound result ≡ bounds.number (bounds.hull_of_set s.now) }
{
    let hull = hull_of_set(s);
    Bound::Number(hull.0, hull.1)
}

fn at_most(alloc: Global, upper: RangeSet) -> Result<Bound, AllocError>
    ensures { IfOk result (λ b. known_bound b ≡ bounds.sets [] upper) }
{
    let none = RangeSet::range(alloc, 1, 0)?;
    let least = Rc::new(alloc, none)?;
    let most = Rc::new(alloc, upper)?;
    Ok(Bound::Sets(least, most))
}

/// The bounds of a variable of this type and set.
#[tactic(auto, unfolding(mz_core::specs::Types::plain_type))]
fn bound_over(alloc: Global, t: &TypeInst, s: RangeSet) -> Result<Bound, AllocError>
    ensures { IfOk result (λ b. known_bound b ≡ steps.bound_over (plain_type t.now) s) }
{
    if is_set(t.base) {
        at_most(alloc, s)
    } else {
        Ok(number_over(&s))
    }
}

fn no_choice(alloc: Global, t: &TypeInst) -> Result<(Known, Sure), AllocError>
    ensures { IfOk result (λ p. (s : State) → lets.no_choice (plain_type t.now) s ≡ Out (local_of p) s) }
{
    let b = empty_bound(alloc, t)?;
    let k = var_value(alloc, b)?;
    Ok((k, unsure()))
}

/// A free local that is no array.
fn choose(alloc: Global, t: &TypeInst, set: Option<RangeSet>) -> Result<(Known, Sure), AllocError>
    ensures { IfOk result (λ p. (s : State) → lets.choose Bare (plain_type t.now) (option_map (domain_over (plain_type t.now)) set) s ≡ Out (local_of p) s) }
{
    match set {
        None => no_choice(alloc, t),
        Some(values) => {
            let b = bound_over(alloc, t, values)?;
            let k = var_value(alloc, b)?;
            Ok((k, surely()))
        }
    }
}

/// The same bounds, this many times.
fn repeated(alloc: Global, b: &Bound, count: u64) -> Result<Vec<Bound>, AllocError>
    ensures { IfOk result (λ all. map known_bound all.items ≡ replicate count (known_bound b.now)) }
{
    let mut all = Vec::new(alloc);
    for _i in 0..count {
        let same = share_bound(b)?;
        all.push(same)?;
    }
    Ok(all)
}

/// More places than any array has.
const MANY_PLACES: u64 = 1 << 63;

fn row_of(alloc: Global, ranges: Vec<(i64, i64)>, all: Vec<Bound>) -> Result<Known, AllocError>
    ensures { IfOk result (λ k. cell_of k ≡ cells.Var (bounds.many ranges.items (map known_bound all.items)) None) }
{
    var_items(alloc, ranges, all)
}

/// A var array with the same bounds at each place; out of memory where it has 2^63 places or more.
fn filled(alloc: Global, ranges: Vec<(i64, i64)>, b: &Bound) -> Result<Known, AllocError>
    ensures { IfOk result (λ k. cell_of k ≡ steps.filled ranges.items (known_bound b.now)) }
{
    let count = place_count(ranges.as_slice());
    if count >= MANY_PLACES {
        return Err(AllocError);
    }
    let all = repeated(alloc, b, count)?;
    let k = row_of(alloc, ranges, all)?;
    Ok(k)
}

fn no_choices(
    alloc: Global,
    t: &TypeInst,
    ranges: Vec<(i64, i64)>,
) -> Result<(Known, Sure), AllocError>
    ensures { IfOk result (λ p. (s : State) → lets.no_choices (plain_type t.now) ranges.items s ≡ Out (local_of p) s) }
{
    let b = empty_bound(alloc, t)?;
    let k = filled(alloc, ranges, &b)?;
    Ok((k, unsure()))
}

fn chosen_places(
    alloc: Global,
    t: &TypeInst,
    ranges: Vec<(i64, i64)>,
    set: RangeSet,
) -> Result<(Known, Sure), AllocError>
    ensures { IfOk result (λ p. local_of p ≡ (steps.filled ranges.items (steps.bound_over (plain_type t.now) set), cells.sure)) }
{
    let b = bound_over(alloc, t, set)?;
    let k = filled(alloc, ranges, &b)?;
    Ok((k, surely()))
}

fn no_places(alloc: Global, ranges: Vec<(i64, i64)>) -> Result<(Known, Sure), AllocError>
    ensures { IfOk result (λ p. local_of p ≡ (cells.Var (bounds.many ranges.items []) None, cells.sure)) }
{
    let none = Vec::new(alloc);
    let k = var_items(alloc, ranges, none)?;
    Ok((k, surely()))
}

/// A free local that is an array with places.
fn some_places(
    alloc: Global,
    t: &TypeInst,
    ranges: Vec<(i64, i64)>,
    set: Option<RangeSet>,
) -> Result<(Known, Sure), AllocError>
    requires { 0 < operations.place_count ranges.items }
    ensures { IfOk result (λ p. (s : State) → steps.chosen_over (plain_type t.now) ranges.items set s ≡ Out (local_of p) s) }
{
    match set {
        None => no_choices(alloc, t, ranges),
        Some(values) => chosen_places(alloc, t, ranges, values),
    }
}

/// A free local that is an array: nothing is chosen for one without places, also where the domain
/// is empty.
fn choose_places(
    alloc: Global,
    t: &TypeInst,
    ranges: Vec<(i64, i64)>,
    set: Option<RangeSet>,
) -> Result<(Known, Sure), AllocError>
    ensures { IfOk result (λ p. (s : State) → steps.chosen_over (plain_type t.now) ranges.items set s ≡ Out (local_of p) s) }
{
    let count = place_count(ranges.as_slice());
    if count == 0 {
        no_places(alloc, ranges)
    } else {
        some_places(alloc, t, ranges, set)
    }
}

fn free_array(
    alloc: Global,
    t: &TypeInst,
    ranges: Vec<(i64, i64)>,
    w: &Want,
    set: Option<RangeSet>,
) -> Result<(Known, Sure), AllocError>
    ensures { IfOk result (λ p. (s : State) → lets.free_array Bare (plain_type t.now) ranges.items (wanted w.now) (option_map (domain_over (plain_type t.now)) set) s ≡ Out (local_of p) s) }
{
    match w {
        Want::Missing => no_choices(alloc, t, ranges),
        Want::Anything => choose_places(alloc, t, ranges, set),
        Want::Within(_) => choose_places(alloc, t, ranges, set),
    }
}

fn is_declared(w: &Want) -> bool
    ensures { result ≡ (not (arrays.is_own (wanted w.now)) && not (arrays.is_missing (wanted w.now))) }
{
    match w {
        Want::Anything => false,
        Want::Missing => false,
        Want::Within(_) => true,
    }
}

/// Whether all index sets are declared and defined.
fn all_declared(ws: &[Want]) -> bool
    ensures { result ≡ lets.all_declared (wants_of ws.now) }
{
    match ws {
        [] => true,
        [first, others @ ..] => is_declared(first) && all_declared(others),
    }
}

fn chosen_array(
    alloc: Global,
    t: &TypeInst,
    ws: &[Want],
    w: &Want,
    set: Option<RangeSet>,
) -> Result<(Known, Sure), AllocError>
    ensures { IfOk result (λ p. (s : State) → steps.chosen_array (plain_type t.now) (wants_of ws.now) (wanted w.now) (option_map (domain_over (plain_type t.now)) set) s ≡ Out (local_of p) s) }
{
    let ranges = declared_ranges(alloc, ws, &[])?;
    if all_declared(ws) {
        free_array(alloc, t, ranges, w, set)
    } else {
        no_choices(alloc, t, ranges)
    }
}

/// The cell of a free local of this type, index sets and set, and whether these are there: its
/// bounds are those of its domain. Where no set is declared an integer ranges from `-int_range` to
/// `int_range`. Without a value for it the let is undefined, an array has its places all the same.
/// Out of memory where it has 2^63 places or more.
pub fn chosen(
    alloc: Global,
    int_range: &i64,
    t: &TypeInst,
    ws: &[Want],
    w: &Want,
) -> Result<(Known, Sure), AllocError>
    requires least { pos 0 ≤ℤ int_range.now }
    requires greatest { int_range.now ≤ℤ greatest }
    ensures { IfOk result (λ p. (s : State) → lets.chosen Bare int_range.now (plain_type t.now) (wants_of ws.now) (wanted w.now) s ≡ Out (local_of p) s) }
{
    let set = local_set(alloc, int_range, t, w)?;
    match ws {
        [] => choose(alloc, t, set),
        [_, ..] => chosen_array(alloc, t, ws, w, set),
    }
}
