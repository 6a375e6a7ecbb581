// Free locals: their choices, and their cells.

ghost use Rattle.std.specs.Prelude.{◌≡◌, ◌≤ℤ◌, IfOk, None, Some, [], pos};
ghost use Rattle.std.specs.Option.{option_map};
ghost use Rattle.mz_value.specs.Ranges.{greatest};
ghost use Rattle.mz_core.specs.Types.{plain_type};
ghost use Rattle.mz_operations.specs.Bounds as bounds;
ghost use Rattle.mz_meaning.specs.Cells as cells;
ghost use Rattle.mz_meaning.specs.Domains.{default_set, domain_bound, domain_over};
ghost use Rattle.mz_meaning.specs.Lets as lets;
ghost use Rattle.mz_symbol.specs.Makes.{GoesOnBy};
ghost use Rattle.mz_symbol.specs.Readings.{Reading};
ghost use Rattle.mz_eval_cells.specs.Views.{known_bound};
ghost use Rattle.mz_eval_declared.specs.Wants.{wanted};
ghost use Rattle.mz_eval_declared.specs.Locals.{IsLocal, local_in};

use crate::{Want, chosen};
use mz_base::Memory;
use mz_core::{Base, TypeInst};
use mz_eval_cells::{Bound, Known, scalar_bound, var_value};
use mz_eval_guards::{Guard, cell_of_symbol, surely, unsure};
use mz_symbol::Run;
use mz_symbol_rows::options::choice;
use mz_value::RangeSet;
use std::alloc::{AllocError, Global};

fn default_set(alloc: Global, int_range: &i64, b: Base) -> Result<RangeSet, AllocError>
    requires least { pos 0 ≤ℤ int_range.now }
    requires greatest { int_range.now ≤ℤ greatest }
    ensures { IfOk result (λ s. s ≡ default_set int_range.now b) }
{
    match b {
        Base::Bool => RangeSet::range(alloc, 0, 1),
        _ => RangeSet::range(alloc, -*int_range, *int_range),
    }
}

/// What a choice ranges over; `None` where its declared set is undefined.
fn choice_set(
    alloc: Global,
    int_range: &i64,
    t: &TypeInst,
    w: &Want,
) -> Result<Option<RangeSet>, AllocError>
    requires least { pos 0 ≤ℤ int_range.now }
    requires greatest { int_range.now ≤ℤ greatest }
    ensures { IfOk result (λ s. option_map (domain_over (plain_type t.now)) s ≡ lets.local_domain int_range.now (plain_type t.now) (wanted w.now)) }
{
    match w {
        Want::Anything => {
            let s = default_set(alloc, int_range, t.base)?;
            Ok(Some(s))
        }
        Want::Missing => Ok(None),
        Want::Within(u) => {
            let s = u.copy(alloc)?;
            Ok(Some(s))
        }
    }
}

/// A free local without a choice, of these bounds.
fn unchosen(alloc: Global, b: Bound) -> Result<(Known, Guard), AllocError>
    ensures { IfOk result (λ p. (r : Reading) → local_in r p ≡ (cells.Var (bounds.one (known_bound b)) None, cells.unsure)) }
{
    let k = var_value(alloc, b)?;
    Ok((k, unsure()))
}

/// The next choice from this set, and its cell with these bounds.
#[tactic(auto, using(mz_symbol_rows::proofs::GoingOn::goes_most))]
fn taken_in(
    alloc: Global,
    run: &mut Run,
    t: &TypeInst,
    set: &RangeSet,
    b: Bound,
) -> Result<(Known, Guard), Memory>
    requires { known_bound b ≡ domain_bound (domain_over (plain_type t.now) set.now) }
    ensures goes { GoesOnBy 12 run.old run.new }
    ensures means { IfOk result (IsLocal run.old run.new (λ r. lets.choose r.mode (plain_type t.now) (Some (domain_over (plain_type t.now) set.now)))) }
{
    let Ok(s) = choice(run, t.base, t.opt, set) else {
        return Err(Memory);
    };
    let k = cell_of_symbol(alloc, b, s)?;
    Ok((k, surely()))
}

/// `chosen` under each reading, of a free local that is no array: its choice, and its cell. Out of
/// memory too where no choice may be taken from its domain, as `take` of `mz_symbol` says.
#[tactic(auto, using(crate::proofs::SuitingLaws::goes_none))]
pub fn chosen_one(
    alloc: Global,
    run: &mut Run,
    int_range: &i64,
    t: &TypeInst,
    w: &Want,
) -> Result<(Known, Guard), Memory>
    requires least { pos 0 ≤ℤ int_range.now }
    requires greatest { int_range.now ≤ℤ greatest }
    ensures goes { GoesOnBy 12 run.old run.new }
    ensures means { IfOk result (IsLocal run.old run.new (λ r. lets.chosen r.mode int_range.now (plain_type t.now) [] (wanted w.now))) }
{
    let p = chosen(alloc, int_range, t, &[], w)?;
    let b = scalar_bound(alloc, &p.0)?;
    if !p.1.is {
        let none = unchosen(alloc, b)?;
        return Ok(none);
    }
    let Some(set) = choice_set(alloc, int_range, t, w)? else {
        return Err(Memory);
    };
    let one = taken_in(alloc, run, t, &set, b)?;
    Ok(one)
}
