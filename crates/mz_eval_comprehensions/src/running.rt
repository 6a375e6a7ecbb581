// What a generator runs over.

ghost use Rattle.std.specs.Prelude.{◌≡◌, IfOk, None, Some, map};
ghost use Rattle.std.specs.List.{enumerate_from};
ghost use Rattle.mz_value.specs.Contents.{content, contents};
ghost use Rattle.mz_value.specs.Shown.{elements};
ghost use Rattle.mz_operations.specs.Bounds as bounds;
ghost use Rattle.mz_operations.specs.Views.{items_in};
ghost use Rattle.mz_meaning.specs.Cells.{par_value, value_of};
ghost use Rattle.mz_meaning.specs.Comprehensions as comps;
ghost use Rattle.mz_meaning.specs.Runs.{give};
ghost use Rattle.mz_symbol.specs.Makes.{GoesOn, Means};
ghost use Rattle.mz_symbol.specs.Readings.{Reading};
ghost use Rattle.mz_symbol_rows.specs.RowValues.{argument};
ghost use Rattle.mz_eval_cells.specs.declared.types.Known.TheVariants as known;
ghost use Rattle.mz_eval_cells.specs.Views.{item_content, known_bound, seen};
ghost use Rattle.mz_eval_comprehensions.specs.Views.{elements_of, place_in};

use crate::drawn::is_nothing;
use crate::types::{Elements, Members};
use mz_base::Stop;
use mz_core::Base;
use mz_eval_cells::{Bound, Item, Known, VarItems, VarValue, enum_in, ranges_of};
use mz_eval_symbols::symbol_in;
use mz_symbol::{Run, Symbol};
use mz_value::{RangeSet, Value};
use std::alloc::{AllocError, Global};
use std::rc::Rc;

// ---- par cells

fn item_elements(base: Base, i: &Item) -> Elements<'_>
    ensures { (r : Reading) → elements_of r result ≡ comps.set_elements base (Some (item_content i.now)) }
{
    match i {
        Item::Set(s) => Elements::Numbers(enum_in(base), Members::All, ranges_of(s)),
        Item::Bool(_) => Elements::Nothing,
        Item::Int(_) => Elements::Nothing,
        Item::Enum(_, _) => Elements::Nothing,
        Item::Absent => Elements::Nothing,
        Item::Text(_) => Elements::Nothing,
    }
}

fn array_elements(items: &[Value]) -> Elements<'_>
    ensures { (r : Reading) → elements_of r result ≡ map (λ x. comps.surely (par_value x)) (items_in (contents (map content items.now))) }
{
    Elements::Values(items)
}

// ---- var sets

/// The numbers that a set may have, of which nothing tells which it has.
fn untold(base: Base, upper: &RangeSet) -> Elements<'_>
    ensures { (r : Reading) → elements_of r result ≡ map (comps.member r.mode base None) (elements upper.now) }
{
    Elements::Numbers(enum_in(base), Members::Nowhere, upper)
}

/// The numbers that a set may have, of which it has those of a symbol's set.
fn told(base: Base, s: Symbol, upper: &RangeSet) -> Elements<'_>
    ensures { (r : Reading) → elements_of r result ≡ map (comps.member r.mode base (argument r s)) (elements upper.now) }
{
    Elements::Numbers(enum_in(base), Members::Of(s), upper)
}

fn same_cell(v: &Rc<VarValue>) -> Result<Known, AllocError>
    ensures { IfOk result (λ k. (r : Reading) → seen r k ≡ seen r (known.Var v.now)) }
{
    Ok(Known::Var(v.clone()?))
}

/// The symbol of a var set; what its nodes may cost is drawn.
#[tactic(auto, using(mz_symbol_rows::proofs::GoingOn::goes_drawn))]
fn set_symbol(alloc: Global, run: &mut Run, base: Base, v: &Rc<VarValue>) -> Result<Symbol, Stop>
    ensures goes { GoesOn run.old run.new }
    ensures means { Means argument result run.old run.new (λ r. give (value_of (seen r (known.Var v.now)))) }
{
    let k = same_cell(v)?;
    run.draw(8)?;
    let s = symbol_in(alloc, run, base, false, &k)?;
    Ok(s)
}

fn set_elements<'a>(
    alloc: Global,
    run: &mut Run,
    base: Base,
    v: &Rc<VarValue>,
    upper: &'a RangeSet,
) -> Result<Elements<'a>, Stop>
    ensures goes { GoesOn run.old run.new }
    ensures means { Means elements_of result run.old run.new (λ r. give (map (comps.member r.mode base (value_of (seen r (known.Var v.now)))) (elements upper.now))) }
{
    if is_nothing(v) {
        return Ok(untold(base, upper));
    }
    let s = set_symbol(alloc, run, base, v)?;
    Ok(told(base, s, upper))
}

fn var_elements<'a>(
    alloc: Global,
    run: &mut Run,
    base: Base,
    v: &'a Rc<VarValue>,
) -> Result<Elements<'a>, Stop>
    ensures goes { GoesOn run.old run.new }
    ensures means { Means elements_of result run.old run.new
        (λ r. give (comps.var_elements r.mode base (bounds.one (known_bound v.now.value.bound)) (value_of (seen r (known.Var v.now))))) }
{
    match &v.bound {
        Bound::Number(_, _) => Ok(Elements::Nothing),
        Bound::Sets(_, upper) => set_elements(alloc, run, base, v, upper),
    }
}

// ---- var arrays

fn row_elements(base: Base, opt: bool, xs: &VarItems) -> Elements<'_>
    ensures { (r : Reading) → elements_of r result ≡ map (place_in r xs.now) (enumerate_from 0 (map known_bound xs.now.bounds.value.items)) }
{
    Elements::Places(base, opt, xs)
}

// ---- cells

/// What a generator over this cell runs over, whose type has this base: a set's elements, ascending,
/// of a var set over those that it may have; or an array's elements, options or not.
///
/// The symbol of a var set is made here, and what it may cost is drawn: 8. Out of memory too where
/// `symbol_in` is.
pub fn elements_in<'a>(
    alloc: Global,
    run: &mut Run,
    base: Base,
    opt: bool,
    k: &'a Known,
) -> Result<Elements<'a>, Stop>
    ensures goes { GoesOn run.old run.new }
    ensures means { Means elements_of result run.old run.new (λ r. give (comps.elements_in r.mode base (seen r k.now))) }
{
    match k {
        Known::Undefined => Ok(Elements::Nothing),
        Known::One(i) => Ok(item_elements(base, i)),
        Known::Array(_, items) => Ok(array_elements(items.as_slice())),
        Known::Var(v) => var_elements(alloc, run, base, v),
        Known::Row(_, xs) => Ok(row_elements(base, opt, xs)),
        Known::Unshaped(_) => Ok(Elements::Nothing),
    }
}
