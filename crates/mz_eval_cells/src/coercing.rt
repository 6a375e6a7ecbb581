// Coercions of cells.

ghost use Rattle.std.specs.Prelude.{◌≡◌, IfOk, map};
ghost use Rattle.mz_value.specs.Shown.{elements};
ghost use Rattle.mz_core.specs.Paths.{path_link};
ghost use Rattle.mz_core.specs.Types.{plain_type};
ghost use Rattle.mz_operations.specs.Arrays.{element_of, line};
ghost use Rattle.mz_meaning.specs.Cells as cells;
ghost use Rattle.mz_meaning.specs.Cells.{Bare, par_value};
ghost use Rattle.mz_meaning.specs.Coerced as coercions;
ghost use Rattle.mz_symbol.specs.Readings.{Reading};
ghost use Rattle.mz_eval_cells.specs.Views.{cell_of, seen};

use crate::making::{known_of, undefined};
use crate::reading::set_in;
use crate::recasting::recast_cell;
use crate::sealing::to_var;
use crate::types::Known;
use mz_builtin_values::{made, set_value};
use mz_core::{Base, Coercion, TypeInst};
use mz_operations::MadeRow;
use mz_value::RangeSet;
use std::alloc::{AllocError, Global};

/// The enum of a case, or of a set's elements.
pub fn enum_in(b: Base) -> Option<u64>
    ensures { result ≡ coercions.enum_in b }
{
    match b {
        Base::Enum(e) => Some(e),
        Base::SetEnum(e) => Some(e),
        _ => None,
    }
}

#[tactic(auto, unfolding(mz_operations::specs::Values::made_value, mz_operations::specs::Arguments::set_at, mz_operations::specs::Arguments::enum_at, mz_operations::specs::Arguments::at, mz_operations::specs::Views::as_set, mz_operations::specs::Views::enum_of))]
fn line_of_set(alloc: Global, of: Option<u64>, s: &RangeSet) -> Result<Known, AllocError>
    ensures of { IfOk result (λ k. cell_of k ≡ par_value (line (map (element_of of) (elements s.now)))) }
    ensures seen { IfOk result (λ k. (r : Reading) → seen r k ≡ par_value (line (map (element_of of) (elements s.now)))) }
{
    let ranges = s.copy(alloc)?;
    let args = [Some(set_value(of, ranges))];
    let all = made(alloc, MadeRow::SetToArray, &args)?;
    known_of(alloc, all)
}

/// The elements of a par set, ascending, as an array.
#[tactic(auto, using(crate::proofs::Seeing::set_seen))]
fn elements_of_set(alloc: Global, b: Base, k: &Known) -> Result<Known, AllocError>
    ensures of { IfOk result (λ x. cell_of x ≡ coercions.elements_of_set b (cells.set_in (cell_of k.now))) }
    ensures seen { IfOk result (λ x. (r : Reading) → seen r x ≡ coercions.elements_of_set b (cells.set_in (seen r k.now))) }
{
    match set_in(k) {
        None => Ok(undefined()),
        Some(s) => line_of_set(alloc, enum_in(b), s),
    }
}

/// A cell after one step of coercion, to the type `t`.
#[tactic(auto, unfolding(mz_core::specs::Types::plain_type))]
pub fn coerced_to(alloc: Global, c: Coercion, t: &TypeInst, k: Known) -> Result<Known, AllocError>
    ensures of { IfOk result (λ x. cell_of x ≡ coercions.coerced Bare (c, plain_type t.now) (cell_of k)) }
    ensures seen { IfOk result (λ x. (r : Reading) → seen r x ≡ coercions.coerced r.mode (c, plain_type t.now) (seen r k)) }
{
    match c {
        Coercion::ToVar => to_var(alloc, t, &k),
        Coercion::BoolToInt => recast_cell(alloc, Base::Int, &k),
        Coercion::EnumToInt => recast_cell(alloc, Base::Int, &k),
        Coercion::SetEnumToSetInt => recast_cell(alloc, Base::SetInt, &k),
        Coercion::SetBottomToSet => recast_cell(alloc, t.base, &k),
        Coercion::SetToArray => elements_of_set(alloc, t.base, &k),
        Coercion::ToOpt => Ok(k),
        Coercion::IndexToInt => Ok(k),
        Coercion::BottomToBase => Ok(k),
    }
}

/// A cell after one step of coercion, to the type beside it.
pub fn coerced(alloc: Global, l: &(Coercion, TypeInst), k: Known) -> Result<Known, AllocError>
    ensures of { IfOk result (λ x. cell_of x ≡ coercions.coerced Bare (path_link l.now) (cell_of k)) }
    ensures seen { IfOk result (λ x. (r : Reading) → seen r x ≡ coercions.coerced r.mode (path_link l.now) (seen r k)) }
{
    coerced_to(alloc, l.0, &l.1, k)
}

/// What a step of coercion counts: the elements of a set that becomes an array, and else nothing.
pub fn coercion_work(c: Coercion, k: &Known) -> u64
    ensures { result ≡ coercions.coercion_work c (cell_of k.now) }
{
    match c {
        Coercion::SetToArray => set_size(k),
        _ => 0,
    }
}

fn set_size(k: &Known) -> u64
    ensures { result ≡ coercions.set_size (cells.set_in (cell_of k.now)) }
{
    match set_in(k) {
        None => 0,
        Some(s) => s.card(),
    }
}
