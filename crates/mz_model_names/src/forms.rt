// The form of a declared name.

ghost use Rattle.std.specs.Prelude.{◌≡◌, ◌≤ℤ◌, IfOk, None, Some, [], false, map, pos, true};
ghost use Rattle.mz_value.specs.Ranges.{greatest};
ghost use Rattle.mz_core.specs.Types.{plain_type};
ghost use Rattle.mz_meaning.specs.Arrays as arrays;
ghost use Rattle.mz_meaning.specs.Cells as cells;
ghost use Rattle.mz_meaning.specs.Domains.{domain_over};
ghost use Rattle.mz_meaning.specs.Walk as walk;
ghost use Rattle.mz_symbol.specs.Readings.{Reading};
ghost use Rattle.mz_eval_cells.specs.Views.{known_bounds, seen};
ghost use Rattle.mz_eval_cells.specs.Meets.{Tells};
ghost use Rattle.mz_eval_declared.specs.Wants.{wanted, wants_of};
ghost use Rattle.mz_model_state.specs.Forms as forms;
ghost use Rattle.mz_model_names.specs.Formed.{form_seen, HasForm, DomainsByBounds, DomainsByRanges};

use crate::index_ranges::{index_ranges, place_count};
use crate::sets::{copies, free_set, set_by_value, sets_by_value};
use mz_base::{Fault, Kind, Memory, Span, Stop};
use mz_core::TypeInst;
use mz_eval_cells::{Bounds, Known, bounds_in, empty_bound};
use mz_eval_declared::{Want, suits};
use mz_value::RangeSet;
use std::alloc::Global;

/// What a declaration's sets and its value tell of its name.
#[derive(Drop)]
pub enum Form {
    /// A par name, with its cell.
    Par(Known),
    /// A variable over this set, with the cell of its value if it is declared with one.
    One(RangeSet, Option<Known>),
    /// An array of variables: its index ranges, the set of each place, the last index moving first,
    /// and the cell of its value if it is declared with one.
    Many(Vec<(i64, i64)>, Vec<RangeSet>, Option<Known>),
}

// ---- domains by a value

/// The form of a variable whose value, this cell, has these bounds.
#[tactic(auto, unfolding(mz_core::specs::Types::plain_type))]
fn by_bounds(alloc: Global, t: &TypeInst, w: &Want, b: Bounds, k: Known) -> Result<Form, Memory>
    ensures { IfOk result (λ f. HasForm (plain_type t.now) f (Some k) (walk.domains_of_bounds (plain_type t.now) (wanted w.now) (known_bounds b))) }
{
    match b {
        Bounds::One(bound) => {
            let s = set_by_value(alloc, t.base, w, &bound)?;
            Ok(Form::One(s, Some(k)))
        }
        Bounds::Many(index, all) => {
            let ranges = Vec::from_slice(alloc, index.as_slice())?;
            let sets = sets_by_value(alloc, t, w, all.as_slice())?;
            Ok(Form::Many(ranges, sets, Some(k)))
        }
    }
}

/// The form of an array of variables of the declared index ranges, each over one set. Out of memory
/// too where none are declared.
#[tactic(auto, unfolding(mz_core::specs::Types::plain_type))]
fn in_ranges(
    alloc: Global,
    t: &TypeInst,
    ws: &[Want],
    s: &RangeSet,
    k: Option<Known>,
) -> Result<Form, Memory>
    ensures { IfOk result (λ f. HasForm (plain_type t.now) f k (walk.domains_in_ranges (arrays.declared_ranges (wants_of ws.now) []) (domain_over (plain_type t.now) s.now))) }
{
    let count = place_count(alloc, ws)?;
    let ranges = index_ranges(alloc, ws)?;
    let sets = copies(alloc, t, s, count)?;
    Ok(Form::Many(ranges, sets, k))
}

/// Whether a cell is an array without a shape.
#[tactic(auto, unfolding(mz_core::specs::Types::plain_type))]
fn is_unshaped(k: &Known) -> bool
    ensures bounds { result ≡ false → DomainsByBounds k.now }
    ensures ranges { result ≡ true → DomainsByRanges k.now }
{
    match k {
        Known::Unshaped(_) => true,
        _ => false,
    }
}

#[tactic(auto, unfolding(mz_core::specs::Types::plain_type))]
fn without_shape(
    alloc: Global,
    t: &TypeInst,
    ws: &[Want],
    w: &Want,
    k: Known,
) -> Result<Form, Memory>
    ensures { IfOk result (λ f. HasForm (plain_type t.now) f (Some k)
        (walk.domains_in_ranges (arrays.declared_ranges (wants_of ws.now) []) (walk.domain_by_value (plain_type t.now) (wanted w.now) (cells.empty_bound (plain_type t.now))))) }
{
    let b = empty_bound(alloc, t)?;
    let s = set_by_value(alloc, t.base, w, &b)?;
    in_ranges(alloc, t, ws, &s, Some(k))
}

/// The form of a variable that is declared with this cell as its value.
#[tactic(auto, unfolding(mz_core::specs::Types::plain_type))]
fn var_form(alloc: Global, t: &TypeInst, ws: &[Want], w: &Want, k: Known) -> Result<Form, Memory>
    ensures { IfOk result (λ f. (r : Reading) → form_seen (plain_type t.now) r f
        ≡ forms.VarForm (walk.domains_by_value (plain_type t.now) (wants_of ws.now) (wanted w.now) (seen r k)) (Some (seen r k))) }
{
    if is_unshaped(&k) {
        without_shape(alloc, t, ws, w, k)
    } else {
        let b = bounds_in(alloc, &k)?;
        by_bounds(alloc, t, w, b, k)
    }
}

// ---- par names

/// The form of a par name. Refused ParUndefined at `at` where the cell has no value, or one outside
/// the declared set.
#[tactic(auto, using(crate::proofs::Shapes::told_par, crate::proofs::Shapes::told_undefined))]
fn par_form(alloc: Global, at: Span, t: &TypeInst, w: &Want, k: Known) -> Result<Form, Stop>
    ensures { (r : Reading) → Tells (form_seen (plain_type t.now) r) result (forms.par_form at (seen r k) (walk.surely (arrays.suits (wanted w.now) (seen r k)))) }
{
    let sure = suits(alloc, w, &k)?;
    if sure.par && sure.is {
        Ok(Form::Par(k))
    } else {
        Err(Stop::Refused(Fault::at(Kind::ParUndefined, at)))
    }
}

// ---- names with a value, and names without

#[tactic(auto, unfolding(mz_core::specs::Types::plain_type))]
fn is_var(t: &TypeInst) -> bool
    ensures { result ≡ (plain_type t.now).var }
{
    t.var
}

/// The form of a name of this type that is declared with this cell as its value, which has taken its
/// index sets: `ws` are the index sets, `w` is the set.
///
/// Refused ParUndefined at `at`, of a par name, where the value is undefined or lies outside its set.
/// Out of memory too where the value has a bound beyond the limit, or has no shape and no index sets
/// are declared.
pub fn valued_form(
    alloc: Global,
    at: Span,
    t: &TypeInst,
    ws: &[Want],
    w: &Want,
    k: Known,
) -> Result<Form, Stop>
    ensures { (r : Reading) → Tells (form_seen (plain_type t.now) r) result (forms.valued_form at (plain_type t.now) (wants_of ws.now) (wanted w.now) (plain_type t.now).var (seen r k)) }
{
    if is_var(t) {
        let f = var_form(alloc, t, ws, w, k)?;
        Ok(f)
    } else {
        par_form(alloc, at, t, w, k)
    }
}

/// The form of a name of this type without a value: `ws` are its index sets, `w` is its set. Where no
/// set is declared an integer ranges from `-int_range` to `int_range`.
///
/// Out of memory too where an array has 2^63 places or more.
#[tactic(auto, unfolding(mz_core::specs::Types::plain_type))]
pub fn free_form(
    alloc: Global,
    int_range: &i64,
    t: &TypeInst,
    ws: &[Want],
    w: &Want,
) -> Result<Form, Memory>
    requires least { pos 0 ≤ℤ int_range.now }
    requires greatest { int_range.now ≤ℤ greatest }
    ensures { IfOk result (λ f. HasForm (plain_type t.now) f None (walk.free_domains int_range.now (plain_type t.now) (wants_of ws.now) (wanted w.now))) }
{
    let s = free_set(alloc, int_range, t.base, w)?;
    match ws {
        [] => Ok(Form::One(s, None)),
        [_, ..] => in_ranges(alloc, t, ws, &s, None),
    }
}
