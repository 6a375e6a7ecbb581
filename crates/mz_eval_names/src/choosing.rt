// Free locals: their choices, and their cells.

ghost use Rattle.std.specs.Prelude.{◌≡◌, ◌≤ℤ◌, ◌*◌, IfOk, length, map, pos, true, []};
ghost use Rattle.std.specs.Option.{option_map};
ghost use Rattle.mz_value.specs.Ranges.{greatest};
ghost use Rattle.mz_core.specs.Types.{plain_type};
ghost use Rattle.mz_meaning.specs.Cells as cells;
ghost use Rattle.mz_meaning.specs.Domains.{default_set, domain_over};
ghost use Rattle.mz_meaning.specs.Lets as lets;
ghost use Rattle.mz_symbol.specs.Makes.{GoesOn, Means};
ghost use Rattle.mz_symbol.specs.Readings.{Reading};
ghost use Rattle.mz_eval_cells.specs.Views.{cell_of, known_bound, sure_of};
ghost use Rattle.mz_eval_declared.specs.Wants.{wanted, wants_of};
ghost use Rattle.mz_eval_declared.specs.Locals.{IsLocal, local_in};
ghost use Rattle.mz_eval_names.specs.Steps.{empty_cell, line_cell, taken_places, unchosen_cell};

use mz_base::{Memory, Stop};
use mz_core::{Base, TypeInst};
use mz_eval_cells::{Bound, Known, Origins, VarItems, row_of};
use mz_eval_declared::{Want, chosen, chosen_line, chosen_one};
use mz_eval_guards::{Guard, surely, unsure};
use mz_eval_symbols::cell_of_line;
use mz_symbol::Run;
use mz_value::RangeSet;
use std::alloc::{AllocError, Global};
use std::rc::Rc;

fn default_set(alloc: Global, int_range: &i64, b: Base) -> Result<RangeSet, AllocError>
    requires least { pos 0 ≤ℤ int_range.now }
    requires greatest { int_range.now ≤ℤ greatest }
    ensures { IfOk result (λ s. s ≡ default_set int_range.now b) }
{
    match b {
        Base::Bool => RangeSet::range(alloc, 0, 1),
        _ => RangeSet::range(alloc, -*int_range, *int_range),
    }
}

/// What a choice ranges over; `None` where its declared set is undefined.
fn choice_set(
    alloc: Global,
    int_range: &i64,
    t: &TypeInst,
    w: &Want,
) -> Result<Option<RangeSet>, AllocError>
    requires least { pos 0 ≤ℤ int_range.now }
    requires greatest { int_range.now ≤ℤ greatest }
    ensures { IfOk result (λ s. option_map (domain_over (plain_type t.now)) s ≡ lets.local_domain int_range.now (plain_type t.now) (wanted w.now)) }
{
    match w {
        Want::Anything => {
            let s = default_set(alloc, int_range, t.base)?;
            Ok(Some(s))
        }
        Want::Missing => Ok(None),
        Want::Within(u) => {
            let s = u.copy(alloc)?;
            Ok(Some(s))
        }
    }
}

#[tactic(auto, using(mz_eval_declared::proofs::Ranging::as_many))]
fn bound_count(all: &[Bound]) -> u64
    ensures { result ≡ length (map known_bound all.now) }
{
    all.len() as u64
}

fn place_count(xs: &Rc<VarItems>) -> u64
    ensures { result ≡ length (map known_bound xs.now.value.bounds.value.items) }
{
    bound_count(xs.bounds.as_slice())
}

/// Without a choice an array has its places all the same.
#[tactic(auto, using(crate::proofs::ChoiceLaws::unchosen_is))]
fn unchosen(
    alloc: Global,
    index: &Rc<Vec<(i64, i64)>>,
    xs: &Rc<VarItems>,
) -> Result<(Known, Guard), AllocError>
    ensures { IfOk result (λ p. (r : Reading) → local_in r p ≡ (unchosen_cell index.now.value.items (map known_bound xs.now.value.bounds.value.items), cells.unsure)) }
{
    let ranges = index.clone()?;
    let all = xs.bounds.clone()?;
    let k = row_of(alloc, ranges, all, Origins::Nothing)?;
    Ok((k, unsure()))
}

/// An array without places is there.
#[tactic(auto, using(crate::proofs::ChoiceLaws::empty_is))]
fn placeless(alloc: Global, index: &Rc<Vec<(i64, i64)>>) -> Result<(Known, Guard), AllocError>
    ensures { IfOk result (λ p. (r : Reading) → local_in r p ≡ (empty_cell r.mode index.now.value.items, cells.sure)) }
{
    let ranges = index.clone()?;
    let none = Vec::new(alloc);
    let all = Rc::new(alloc, none)?;
    let nothing = Vec::new(alloc);
    let items = Rc::new(alloc, nothing)?;
    let k = row_of(alloc, ranges, all, Origins::Values(items))?;
    Ok((k, surely()))
}

/// An array whose elements are a line.
#[tactic(auto, using(crate::proofs::ChoiceLaws::local_is))]
fn line_local(
    alloc: Global,
    index: &Rc<Vec<(i64, i64)>>,
    xs: &Rc<VarItems>,
    line: u64,
) -> Result<(Known, Guard), AllocError>
    ensures { IfOk result (λ p. (r : Reading) → local_in r p ≡ (line_cell r index.now.value.items (map known_bound xs.now.value.bounds.value.items) line, cells.sure)) }
{
    let ranges = index.clone()?;
    let all = xs.bounds.clone()?;
    let k = cell_of_line(alloc, ranges, all, line)?;
    Ok((k, surely()))
}

/// Each place of an array takes a choice.
#[tactic(auto, using(crate::proofs::GuardLaws::drawn_as))]
fn places_taken(
    alloc: Global,
    run: &mut Run,
    t: &TypeInst,
    set: &RangeSet,
    index: &Rc<Vec<(i64, i64)>>,
    xs: &Rc<VarItems>,
) -> Result<(Known, Guard), Memory>
    ensures goes { GoesOn run.old run.new }
    ensures means { IfOk result (IsLocal run.old run.new
        (λ r. taken_places r.mode index.now.value.items (map known_bound xs.now.value.bounds.value.items) (domain_over (plain_type t.now) set.now))) }
{
    let count = place_count(xs);
    let n = 24u64.checked_mul(count).ok_or(Memory)?;
    run.draw(n)?;
    let line = chosen_line(alloc, run, t, set, count)?;
    let p = line_local(alloc, index, xs, line)?;
    Ok(p)
}

/// A free local that is an array.
fn array_chosen(
    alloc: Global,
    run: &mut Run,
    int_range: &i64,
    t: &TypeInst,
    index: &[Want],
    set: &Want,
) -> Result<(Known, Guard), Memory>
    requires least { pos 0 ≤ℤ int_range.now }
    requires greatest { int_range.now ≤ℤ greatest }
    ensures goes { GoesOn run.old run.new }
    ensures means { IfOk result (IsLocal run.old run.new (λ r. lets.chosen r.mode int_range.now (plain_type t.now) (wants_of index.now) (wanted set.now))) }
{
    let p = chosen(alloc, int_range, t, index, set)?;
    let Known::Row(ranges, xs) = &p.0 else {
        return Err(Memory);
    };
    if !p.1.is {
        let none = unchosen(alloc, ranges, xs)?;
        return Ok(none);
    }
    let count = place_count(xs);
    if count == 0 {
        let empty = placeless(alloc, ranges)?;
        return Ok(empty);
    }
    let Some(values) = choice_set(alloc, int_range, t, set)? else {
        return Err(Memory);
    };
    let all = places_taken(alloc, run, t, &values, ranges, xs)?;
    Ok(all)
}

/// A free local that is no array.
#[tactic(auto, using(mz_symbol_rows::proofs::GoingOn::goes_drawn, crate::proofs::ChoiceLaws::drawn_local))]
fn one_chosen(
    alloc: Global,
    run: &mut Run,
    int_range: &i64,
    t: &TypeInst,
    set: &Want,
) -> Result<(Known, Guard), Memory>
    requires least { pos 0 ≤ℤ int_range.now }
    requires greatest { int_range.now ≤ℤ greatest }
    ensures goes { GoesOn run.old run.new }
    ensures means { IfOk result (IsLocal run.old run.new (λ r. lets.chosen r.mode int_range.now (plain_type t.now) [] (wanted set.now))) }
{
    run.draw(12)?;
    let p = chosen_one(alloc, run, int_range, t, set)?;
    Ok(p)
}

fn local_chosen(
    alloc: Global,
    run: &mut Run,
    int_range: &i64,
    t: &TypeInst,
    index: &[Want],
    set: &Want,
) -> Result<(Known, Guard), Memory>
    requires least { pos 0 ≤ℤ int_range.now }
    requires greatest { int_range.now ≤ℤ greatest }
    ensures goes { GoesOn run.old run.new }
    ensures means { IfOk result (IsLocal run.old run.new (λ r. lets.chosen r.mode int_range.now (plain_type t.now) (wants_of index.now) (wanted set.now))) }
{
    match index {
        [] => one_chosen(alloc, run, int_range, t, set),
        [_, ..] => array_chosen(alloc, run, int_range, t, index, set),
    }
}

/// A free local of this type, index sets and set: its choices, one for each place of an array, and its
/// cell, and whether the sets are there and have values. Out of memory too where it has 2^63 places or
/// more, and where no choice may be taken from its domain, as `take` of `mz_symbol` says.
pub fn chosen_in(
    alloc: Global,
    run: &mut Run,
    int_range: &i64,
    t: &TypeInst,
    index: &[Want],
    set: &Want,
) -> Result<(Known, Guard), Stop>
    requires least { pos 0 ≤ℤ int_range.now }
    requires greatest { int_range.now ≤ℤ greatest }
    ensures goes { GoesOn run.old run.new }
    ensures means { Means local_in result run.old run.new (λ r. lets.chosen r.mode int_range.now (plain_type t.now) (wants_of index.now) (wanted set.now)) }
{
    let p = local_chosen(alloc, run, int_range, t, index, set)?;
    Ok(p)
}
