// What a type makes of a cell, and what becomes of one where something that is declared doesn't hold.

ghost use Rattle.std.specs.Prelude.{◌≡◌, Bool, IfOk, None, Some, false, map, true, ℕ};
ghost use Rattle.mz_value.specs.Contents as values;
ghost use Rattle.mz_value.specs.Contents.{content, contents};
ghost use Rattle.mz_core.specs.Types.{plain_type};
ghost use Rattle.mz_operations.specs.Bounds as bounds;
ghost use Rattle.mz_meaning.specs.Cells as cells;
ghost use Rattle.mz_arena.specs.Values.{Term};
ghost use Rattle.mz_meaning.specs.Cells.{Bare, Mode, Var, held, par_value};
ghost use Rattle.mz_symbol.specs.Readings.{Reading};
ghost use Rattle.mz_eval_cells.specs.declared.types.Origin.TheVariants as origin;
ghost use Rattle.mz_eval_cells.specs.Views.{cell_of, item_content, known_bound, origin_value, seen, sure_of, var_content};

use crate::bounding::{all_bounds, item_bound, no_bounds};
use crate::making::{one, row_of, undefined, var_cell, var_of};
use crate::reading::{is_par, is_true_item};
use crate::sharing::{row_shared, share, share_bound, share_item, share_origin};
use crate::types::{Bound, Item, Known, Origin, Origins, Sure, VarValue};
use mz_core::{Base, TypeInst};
use mz_symbol::Symbol;
use mz_value::Value;
use std::alloc::{AllocError, Global};
use std::rc::Rc;

fn is_bool(b: Base) -> bool
    ensures { result ≡ cells.is_bool b }
{
    matches!(b, Base::Bool)
}

/// Whether a type is one Boolean that is no option.
#[tactic(auto, unfolding(mz_core::specs::Types::plain_type))]
pub fn is_truth(t: &TypeInst) -> bool
    ensures { result ≡ cells.is_truth (plain_type t.now) }
{
    !t.opt && (is_bool(t.base) && t.dims.is_empty())
}

#[tactic(auto, unfolding(mz_core::specs::Types::plain_type))]
fn undefined_var(alloc: Global, t: &TypeInst) -> Result<Known, AllocError>
    ensures of { IfOk result (λ k. cell_of k ≡ cells.undefined_var (plain_type t.now)) }
    ensures seen { IfOk result (λ k. (r : Reading) → seen r k ≡ cells.undefined_var (plain_type t.now)) }
{
    if t.dims.is_empty() {
        let bounds = no_bounds(alloc, t)?;
        var_cell(alloc, bounds)
    } else {
        Ok(Known::Unshaped(t.dims.len() as u64))
    }
}

#[tactic(auto, using(crate::proofs::Items::item_bounds))]
fn item_to_var(alloc: Global, i: &Item) -> Result<Known, AllocError>
    ensures of { IfOk result (λ k. cell_of k ≡ Var (bounds.bounds_of (item_content i.now)) None) }
    ensures seen { IfOk result (λ k. (r : Reading) → seen r k ≡ Var (bounds.bounds_of (item_content i.now)) (held r.mode (Some (item_content i.now)))) }
{
    let bound = item_bound(alloc, i)?;
    let same = share_item(i)?;
    var_of(alloc, bound, Origin::Item(same))
}

#[tactic(auto, using(crate::proofs::Items::array_bounds))]
fn array_to_var(
    alloc: Global,
    index: &Rc<Vec<(i64, i64)>>,
    items: &Rc<Vec<Value>>,
) -> Result<Known, AllocError>
    ensures of { IfOk result (λ k. cell_of k ≡ Var (bounds.bounds_of (values.array index.now.value.items (contents (map content items.now.value.items)))) None) }
    ensures seen { IfOk result (λ k. (r : Reading) → seen r k
        ≡ Var (bounds.bounds_of (values.array index.now.value.items (contents (map content items.now.value.items)))) (held r.mode (Some (values.array index.now.value.items (contents (map content items.now.value.items)))))) }
{
    let all = all_bounds(alloc, items.as_slice())?;
    let held = Rc::new(alloc, all)?;
    let ranges = index.clone()?;
    let same = items.clone()?;
    row_of(alloc, ranges, held, Origins::Values(same))
}

/// A par cell of this type becomes var: it keeps its value's bounds. A var one stays.
pub fn to_var(alloc: Global, t: &TypeInst, k: &Known) -> Result<Known, AllocError>
    ensures of { IfOk result (λ x. cell_of x ≡ cells.to_var Bare (plain_type t.now) (cell_of k.now)) }
    ensures seen { IfOk result (λ x. (r : Reading) → seen r x ≡ cells.to_var r.mode (plain_type t.now) (seen r k.now)) }
{
    match k {
        Known::Undefined => undefined_var(alloc, t),
        Known::One(i) => item_to_var(alloc, i),
        Known::Array(index, items) => array_to_var(alloc, index, items),
        Known::Var(v) => Ok(Known::Var(v.clone()?)),
        Known::Row(index, all) => row_shared(index, all),
        Known::Unshaped(d) => Ok(Known::Unshaped(*d)),
    }
}

fn to_par(k: &Known) -> Result<Known, AllocError>
    ensures of { IfOk result (λ x. cell_of x ≡ cells.to_par (cell_of k.now)) }
    ensures seen { IfOk result (λ x. (r : Reading) → seen r x ≡ cells.to_par (seen r k.now)) }
{
    match k {
        Known::Undefined => Ok(undefined()),
        Known::One(_) => share(k),
        Known::Array(_, _) => share(k),
        Known::Var(_) => Ok(undefined()),
        Known::Row(_, _) => Ok(undefined()),
        Known::Unshaped(_) => Ok(undefined()),
    }
}

#[tactic(auto, unfolding(mz_core::specs::Types::plain_type))]
fn sealed(alloc: Global, t: &TypeInst, k: &Known) -> Result<Known, AllocError>
    ensures of { IfOk result (λ x. cell_of x ≡ cells.sealed Bare t.now.var (plain_type t.now) (cell_of k.now)) }
    ensures seen { IfOk result (λ x. (r : Reading) → seen r x ≡ cells.sealed r.mode t.now.var (plain_type t.now) (seen r k.now)) }
{
    if t.var {
        to_var(alloc, t, k)
    } else {
        to_par(k)
    }
}

/// Whether a cell is par where the type is, and var where it is.
#[tactic(auto, unfolding(mz_core::specs::Types::plain_type), using(crate::proofs::Seals::stays_sealed, crate::proofs::Seeing::par_seen))]
fn is_sealed(t: &TypeInst, k: &Known) -> bool
    ensures of { result ≡ true → cells.sealed Bare t.now.var (plain_type t.now) (cell_of k.now) ≡ cell_of k.now }
    ensures seen { result ≡ true → (r : Reading) → cells.sealed r.mode t.now.var (plain_type t.now) (seen r k.now) ≡ seen r k.now }
{
    if t.var { !is_par(k) } else { is_par(k) }
}

/// The cell made par or var, as the type is.
pub fn sealed_by(alloc: Global, t: &TypeInst, k: Known) -> Result<Known, AllocError>
    ensures of { IfOk result (λ x. cell_of x ≡ cells.sealed Bare t.now.var (plain_type t.now) (cell_of k)) }
    ensures seen { IfOk result (λ x. (r : Reading) → seen r x ≡ cells.sealed r.mode t.now.var (plain_type t.now) (seen r k)) }
{
    if is_sealed(t, &k) {
        Ok(k)
    } else {
        sealed(alloc, t, &k)
    }
}

/// A var value that may be false or true.
fn value_widened(alloc: Global, v: &VarValue) -> Result<Known, AllocError>
    ensures of { IfOk result (λ x. cell_of x ≡ Var (bounds.one (bounds.number bounds.truth)) None) }
    ensures seen { IfOk result (λ x. (r : Reading) → seen r x ≡ Var (bounds.one (bounds.number bounds.truth)) (held r.mode (var_content r.term v.now))) }
{
    let origin = share_origin(&v.origin)?;
    let value = VarValue {
        bound: Bound::Number(0, 1),
        origin,
        cast: v.cast,
    };
    let held = Rc::new(alloc, value)?;
    Ok(Known::Var(held))
}

/// A Boolean's cell, which may be false or true where it is var.
///
/// Out of memory too of a var array, which no Boolean is.
fn wide(alloc: Global, k: &Known) -> Result<Known, AllocError>
    ensures of { IfOk result (λ x. cell_of x ≡ cells.widened true (cell_of k.now)) }
    ensures seen { IfOk result (λ x. (r : Reading) → seen r x ≡ cells.widened true (seen r k.now)) }
{
    match k {
        Known::Undefined => share(k),
        Known::One(_) => share(k),
        Known::Array(_, _) => share(k),
        Known::Var(v) => value_widened(alloc, v),
        Known::Row(_, _) => Err(AllocError),
        Known::Unshaped(_) => share(k),
    }
}

fn widened(alloc: Global, wider: bool, k: Known) -> Result<Known, AllocError>
    ensures of { IfOk result (λ x. cell_of x ≡ cells.widened wider (cell_of k)) }
    ensures seen { IfOk result (λ x. (r : Reading) → seen r x ≡ cells.widened wider (seen r k)) }
{
    if wider { wide(alloc, &k) } else { Ok(k) }
}

/// A truth value by its symbol. Out of memory too where it is another, or an option.
#[tactic(auto, using(crate::proofs::Held::truth_stays))]
fn symbol_risen(s: Symbol) -> Result<Origin, AllocError>
    ensures { IfOk result (λ x. (t : ℕ → Term) → origin_value t x ≡ Some (values.bool (cells.is_true (origin_value t (origin.Symbol s))))) }
{
    match s.base {
        Base::Bool => match s.occurs {
            None => Ok(Origin::Symbol(s)),
            Some(_) => Err(AllocError),
        },
        _ => Err(AllocError),
    }
}

/// A truth value, which is false where it would be undefined.
#[tactic(auto, using(crate::proofs::Held::truth_told))]
fn origin_risen(o: &Origin) -> Result<Origin, AllocError>
    ensures { IfOk result (λ x. (t : ℕ → Term) → origin_value t x ≡ Some (values.bool (cells.is_true (origin_value t o.now)))) }
{
    match o {
        Origin::Nothing => Ok(Origin::Item(Item::Bool(false))),
        Origin::Item(i) => Ok(Origin::Item(Item::Bool(is_true_item(i)))),
        Origin::Symbol(s) => symbol_risen(*s),
        Origin::Truth(yes, _) => Ok(Origin::Symbol(Symbol {
            base: Base::Bool,
            occurs: None,
            term: *yes,
        })),
    }
}

/// A var truth value, which is false where it would be undefined.
///
/// Out of memory too where it is recast, or no truth value.
#[tactic(auto, using(crate::proofs::Held::held_truth))]
fn value_risen(alloc: Global, v: &VarValue) -> Result<Known, AllocError>
    ensures of { IfOk result (λ x. cell_of x ≡ Var (bounds.one (known_bound v.now.bound)) None) }
    ensures seen { IfOk result (λ x. (r : Reading) → seen r x ≡ cells.risen r.mode true (Var (bounds.one (known_bound v.now.bound)) (held r.mode (var_content r.term v.now)))) }
{
    match v.cast {
        None => {
            let bound = share_bound(&v.bound)?;
            let origin = origin_risen(&v.origin)?;
            var_of(alloc, bound, origin)
        }
        Some(_) => Err(AllocError),
    }
}

/// A Boolean's cell, which is false where it would be undefined.
///
/// Out of memory too of a var array, which no Boolean is.
fn defined(alloc: Global, k: &Known) -> Result<Known, AllocError>
    ensures of { IfOk result (λ x. cell_of x ≡ cells.risen Bare true (cell_of k.now)) }
    ensures seen { IfOk result (λ x. (r : Reading) → seen r x ≡ cells.risen r.mode true (seen r k.now)) }
{
    match k {
        Known::Undefined => Ok(one(Item::Bool(false))),
        Known::One(i) => Ok(one(Item::Bool(is_true_item(i)))),
        Known::Array(_, _) => Ok(one(Item::Bool(false))),
        Known::Var(v) => value_risen(alloc, v),
        Known::Row(_, _) => Err(AllocError),
        Known::Unshaped(_) => var_of(alloc, Bound::Number(0, 1), Origin::Item(Item::Bool(false))),
    }
}

fn risen(alloc: Global, truth: bool, k: Known) -> Result<Known, AllocError>
    ensures of { IfOk result (λ x. cell_of x ≡ cells.risen Bare truth (cell_of k)) }
    ensures seen { IfOk result (λ x. (r : Reading) → seen r x ≡ cells.risen r.mode truth (seen r k)) }
{
    if truth { defined(alloc, &k) } else { Ok(k) }
}

#[tactic(auto, unfolding(mz_core::specs::Types::plain_type))]
fn typed_anew(alloc: Global, name: bool, t: &TypeInst, k: &Known) -> Result<Known, AllocError>
    ensures of { IfOk result (λ x. cell_of x ≡ cells.typed Bare name (plain_type t.now) (cell_of k.now)) }
    ensures seen { IfOk result (λ x. (r : Reading) → seen r x ≡ cells.typed r.mode name (plain_type t.now) (seen r k.now)) }
{
    let truth = is_truth(t);
    let first = sealed(alloc, t, k)?;
    let wide = widened(alloc, !name && truth, first)?;
    risen(alloc, truth, wide)
}

fn is_truth_item(i: &Item) -> bool
    ensures { result ≡ true → (m : Mode) (b : Bool) → cells.risen m b (par_value (item_content i.now)) ≡ par_value (item_content i.now) }
{
    match i {
        Item::Bool(_) => true,
        _ => false,
    }
}

fn is_truth_value(k: &Known) -> bool
    ensures of { result ≡ true → (m : Mode) (b : Bool) → cells.risen m b (cell_of k.now) ≡ cell_of k.now }
    ensures seen { result ≡ true → (r : Reading) (m : Mode) (b : Bool) → cells.risen m b (seen r k.now) ≡ seen r k.now }
    ensures par { result ≡ true → cells.is_par (cell_of k.now) ≡ true }
{
    match k {
        Known::One(i) => is_truth_item(i),
        _ => false,
    }
}

// whether a symbol is a truth value that is no option: it is false where its node has no value
#[tactic(auto, using(crate::proofs::Held::truth_stays))]
fn is_truth_symbol(s: Symbol) -> bool
    ensures { result ≡ true → (t : ℕ → Term) → origin_value t (origin.Symbol s) ≡ Some (values.bool (cells.is_true (origin_value t (origin.Symbol s)))) }
{
    match s.base {
        Base::Bool => s.occurs.is_none(),
        _ => false,
    }
}

fn is_truth_origin(o: &Origin) -> bool
    ensures { result ≡ true → (t : ℕ → Term) → origin_value t o.now ≡ Some (values.bool (cells.is_true (origin_value t o.now))) }
{
    match o {
        Origin::Symbol(s) => is_truth_symbol(*s),
        _ => false,
    }
}

fn is_any_truth(b: &Bound) -> bool
    ensures { result ≡ true → known_bound b.now ≡ bounds.number bounds.truth }
{
    match b {
        Bound::Number(0, 1) => true,
        _ => false,
    }
}

// whether a var value may be false or true, and is surely there
fn is_var_truth(v: &VarValue) -> bool
    ensures bound { result ≡ true → known_bound v.now.bound ≡ bounds.number bounds.truth }
    ensures truth { result ≡ true → (t : ℕ → Term) → var_content t v.now ≡ Some (values.bool (cells.is_true (var_content t v.now))) }
{
    match v.cast {
        None => is_any_truth(&v.bound) && is_truth_origin(&v.origin),
        Some(_) => false,
    }
}

// the same of a cell. It stands apart, so that `stays` is short where a cell is par
#[inline(never)]
#[tactic(auto, using(crate::proofs::Seals::truth_kept))]
fn is_var_truth_cell(k: &Known) -> bool
    ensures of { result ≡ true → (b w : Bool) → cells.risen Bare b (cells.widened w (cell_of k.now)) ≡ cell_of k.now }
    ensures seen { result ≡ true → (r : Reading) (b w : Bool) → cells.risen r.mode b (cells.widened w (seen r k.now)) ≡ seen r k.now }
    ensures var { result ≡ true → cells.is_par (cell_of k.now) ≡ false }
{
    match k {
        Known::Var(v) => is_var_truth(v),
        _ => false,
    }
}

// whether one Boolean that is no option stays: a par one that is defined, and a var one that may be false or true
#[tactic(auto, unfolding(mz_core::specs::Types::plain_type), using(crate::proofs::Seals::stays_truth, crate::proofs::Seals::stays_var, crate::proofs::Seeing::par_seen))]
fn stays_truth(t: &TypeInst, k: &Known) -> bool
    ensures of { result ≡ true → (n : Bool) → cells.typed Bare n (plain_type t.now) (cell_of k.now) ≡ cell_of k.now }
    ensures seen { result ≡ true → (r : Reading) (n : Bool) → cells.typed r.mode n (plain_type t.now) (seen r k.now) ≡ seen r k.now }
{
    if t.var {
        is_var_truth_cell(k)
    } else {
        is_truth_value(k)
    }
}

/// Whether a type surely leaves a cell as it is, whether or not the cell is that of a name.
#[tactic(auto, unfolding(mz_core::specs::Types::plain_type), using(crate::proofs::Seals::stays_other, crate::proofs::Seeing::par_seen))]
pub fn stays(t: &TypeInst, k: &Known) -> bool
    ensures of { result ≡ true → (n : Bool) → cells.typed Bare n (plain_type t.now) (cell_of k.now) ≡ cell_of k.now }
    ensures seen { result ≡ true → (r : Reading) (n : Bool) → cells.typed r.mode n (plain_type t.now) (seen r k.now) ≡ seen r k.now }
{
    if is_truth(t) {
        stays_truth(t, k)
    } else if t.var {
        !is_par(k)
    } else {
        is_par(k)
    }
}

/// The cell of a node of this type: par or var as the type is; a var Boolean that isn't the cell of
/// a name may be false or true; and a Boolean is false where it would be undefined.
pub fn typed(alloc: Global, name: bool, t: &TypeInst, k: Known) -> Result<Known, AllocError>
    ensures of { IfOk result (λ x. cell_of x ≡ cells.typed Bare name (plain_type t.now) (cell_of k)) }
    ensures seen { IfOk result (λ x. (r : Reading) → seen r x ≡ cells.typed r.mode name (plain_type t.now) (seen r k)) }
{
    if stays(t, &k) {
        Ok(k)
    } else {
        typed_anew(alloc, name, t, &k)
    }
}

/// All that is declared holds.
pub fn surely() -> Sure
    ensures { sure_of result ≡ cells.sure }
{
    Sure {
        par: true,
        is: true,
    }
}

/// Something that is declared doesn't hold, and par cells tell it.
pub fn unsure() -> Sure
    ensures { sure_of result ≡ cells.unsure }
{
    Sure {
        par: true,
        is: false,
    }
}

/// What both say holds.
pub fn both_sure(a: Sure, b: Sure) -> Sure
    ensures { sure_of result ≡ cells.both_sure (sure_of a) (sure_of b) }
{
    Sure {
        par: a.par && b.par,
        is: a.is && b.is,
    }
}

#[tactic(auto, using(crate::proofs::Seals::kept_true, crate::proofs::Seals::kept_var, crate::proofs::Seals::kept_par))]
fn kept_if(is: bool, k: Known) -> Known
    ensures { cell_of result ≡ cells.kept_if Bare is (cell_of k) }
{
    if is || !is_par(&k) { k } else { undefined() }
}

/// A cell of this type, which is undefined where something that is declared doesn't hold; and var
/// where par cells alone don't tell it.
pub fn guarded(alloc: Global, t: &TypeInst, s: Sure, k: Known) -> Result<Known, AllocError>
    ensures { IfOk result (λ x. cell_of x ≡ cells.guarded Bare (plain_type t.now) (sure_of s) (cell_of k)) }
{
    if s.par {
        Ok(kept_if(s.is, k))
    } else {
        let open = to_var(alloc, t, &k)?;
        Ok(kept_if(s.is, open))
    }
}
