// Values that no node tells: those of par cells, of par ones that have become var, and undefined ones.

ghost use Rattle.std.specs.Prelude.{◌≡◌, ◌∷◌, [], IfOk, List, None, Option, Some, map, true, ℕ};
ghost use Rattle.std.specs.Option.{option_map};
ghost use Rattle.mz_value.specs.Contents as values;
ghost use Rattle.mz_value.specs.Contents.{Content, content, contents};
ghost use Rattle.mz_arena.specs.Values.{Term};
ghost use Rattle.mz_operations.specs.declared.row.ScalarRow.TheVariants as scalar;
ghost use Rattle.mz_operations.specs.declared.row.Row.TheVariants.{Scalar};
ghost use Rattle.mz_operations.specs.Bounds as bounds;
ghost use Rattle.mz_meaning.specs.Cells.{Par, Var, held, value_of};
ghost use Rattle.mz_meaning.specs.Coerced.{recast_all};
ghost use Rattle.mz_symbol.specs.Readings.{Reading};
ghost use Rattle.mz_eval_cells.specs.Views.{array_of, cell_of, item_content, known_bound, origin_value, origins_value, row_content, seen, var_content};
ghost use Rattle.mz_eval_row_symbols.specs.NodeRows.{with_value};
ghost use Rattle.mz_eval_rows.specs.Settled.{IsExact, IsSettled, is_fold, is_plain, is_plain_scalar, is_power};

use mz_base::Memory;
use mz_core::Base;
use mz_eval_cells::{
    Bound, Item, Known, Origin, Origins, VarItems, VarValue, is_par, row_of, share, share_bound,
    share_item, var_of,
};
use mz_eval_row_symbols::whole;
use mz_operations::{Row, ScalarRow};
use mz_value::Value;
use std::alloc::{AllocError, Global};
use std::rc::Rc;

// ---- the par cell of a cell

fn item_once(i: &Item) -> Result<Known, Memory>
    ensures { IfOk result (λ x. Par (Some (item_content i.now)) ≡ cell_of x) }
{
    let same = share_item(i)?;
    Ok(Known::One(same))
}

fn plain_origin(o: &Origin) -> Result<Known, Memory>
    ensures { IfOk result (λ c. (r : Reading) → Par (origin_value r.term o.now) ≡ cell_of c) }
{
    match o {
        Origin::Nothing => Ok(Known::Undefined),
        Origin::Item(i) => item_once(i),
        Origin::Symbol(_) => Err(Memory),
        Origin::Truth(_, _) => Err(Memory),
    }
}

fn cast_origin(b: Base, o: &Origin) -> Result<Known, Memory>
    ensures { IfOk result (λ c. (r : Reading) → Par (option_map (recast_all b) (origin_value r.term o.now)) ≡ cell_of c) }
{
    match o {
        Origin::Nothing => Ok(Known::Undefined),
        Origin::Item(_) => Err(Memory),
        Origin::Symbol(_) => Err(Memory),
        Origin::Truth(_, _) => Err(Memory),
    }
}

fn settled_value(x: &Rc<VarValue>) -> Result<Known, Memory>
    ensures { IfOk result (λ c. (r : Reading) → Par (var_content r.term x.now.value) ≡ cell_of c) }
{
    match x.cast {
        None => plain_origin(&x.origin),
        Some(b) => cast_origin(b, &x.origin),
    }
}

fn array_once(ix: &Rc<Vec<(i64, i64)>>, o: &Origins) -> Result<Known, Memory>
    ensures { IfOk result (λ c. (r : Reading) → Par (array_of ix.now.value.items (origins_value r.line o.now)) ≡ cell_of c) }
{
    match o {
        Origins::Nothing => Ok(Known::Undefined),
        Origins::Values(items) => {
            let ranges = ix.clone()?;
            Ok(Known::Array(ranges, items.clone()?))
        }
        Origins::Line(_) => Err(Memory),
    }
}

fn cast_array(b: Base, ix: &Rc<Vec<(i64, i64)>>, o: &Origins) -> Result<Known, Memory>
    ensures { IfOk result (λ c. (r : Reading) → Par (option_map (recast_all b) (array_of ix.now.value.items (origins_value r.line o.now))) ≡ cell_of c) }
{
    match o {
        Origins::Nothing => Ok(Known::Undefined),
        Origins::Values(_) => Err(Memory),
        Origins::Line(_) => Err(Memory),
    }
}

fn settled_items(ix: &Rc<Vec<(i64, i64)>>, xs: &Rc<VarItems>) -> Result<Known, Memory>
    ensures { IfOk result (λ c. (r : Reading) → Par (row_content r.line ix.now.value.items xs.now.value) ≡ cell_of c) }
{
    match xs.cast {
        None => array_once(ix, &xs.origins),
        Some(b) => cast_array(b, ix, &xs.origins),
    }
}

fn par_again(k: &Known) -> Result<Known, Memory>
    ensures { IfOk result (IsSettled k.now) }
{
    if !is_par(k) {
        return Err(Memory);
    }
    let same = share(k)?;
    Ok(same)
}

/// The par cell that has a cell's value under each reading. Out of memory too where a node tells it.
#[tactic(auto, using(crate::proofs::SettledLaws::unshaped_settled))]
pub(crate) fn settled(k: &Known) -> Result<Known, Memory>
    ensures { IfOk result (IsSettled k.now) }
{
    match k {
        Known::Var(x) => settled_value(x),
        Known::Row(ix, xs) => settled_items(ix, xs),
        Known::Unshaped(_) => Ok(Known::Undefined),
        _ => par_again(k),
    }
}

// ---- rows that are exact

fn is_plain_scalar(w: ScalarRow) -> bool
    ensures { result ≡ is_plain_scalar w }
{
    match w {
        ScalarRow::Fold(_) => false,
        ScalarRow::Power => false,
        _ => true,
    }
}

fn is_plain(row: Row) -> bool
    ensures { result ≡ is_plain row }
{
    match row {
        Row::Scalar(w) => is_plain_scalar(w),
        Row::Made(_) => true,
        _ => false,
    }
}

fn is_undefined(k: &Known) -> bool
    ensures { result ≡ true → cell_of k.now ≡ Par None }
{
    match k {
        Known::Undefined => true,
        _ => false,
    }
}

fn is_fold(row: Row) -> bool
    ensures { result ≡ is_fold row }
{
    match row {
        Row::Scalar(ScalarRow::Fold(_)) => true,
        _ => false,
    }
}

fn is_power(row: Row) -> bool
    ensures { result ≡ is_power row }
{
    match row {
        Row::Scalar(ScalarRow::Power) => true,
        _ => false,
    }
}

/// Whether a row of this par argument has the value that it has of a var one.
fn is_exact_of_one(row: Row, x: &Known) -> bool
    ensures { result ≡ true → IsExact row (value_of (cell_of x.now) ∷ []) }
{
    if is_fold(row) {
        is_undefined(x)
    } else {
        is_plain(row)
    }
}

#[tactic(auto, using(crate::proofs::SettledLaws::base_undefined, crate::proofs::SettledLaws::exponent_undefined))]
fn power_is_undefined(x: &Known, y: &Known) -> bool
    ensures { result ≡ true → IsExact (Scalar scalar.Power) (value_of (cell_of x.now) ∷ value_of (cell_of y.now) ∷ []) }
{
    if is_undefined(x) {
        true
    } else {
        is_undefined(y)
    }
}

/// The same of two.
fn is_exact_of_two(row: Row, x: &Known, y: &Known) -> bool
    ensures { result ≡ true → IsExact row (value_of (cell_of x.now) ∷ value_of (cell_of y.now) ∷ []) }
{
    if is_power(row) {
        power_is_undefined(x, y)
    } else {
        is_plain(row)
    }
}

/// The par cell that a row's argument can be taken for. Out of memory too where a node tells its
/// value, and where the row of it may be refused though that of a var one isn't.
pub(crate) fn settled_one(row: Row, k: &Known) -> Result<Known, Memory>
    ensures settled { IfOk result (IsSettled k.now) }
    ensures exact { IfOk result (λ x. IsExact row (value_of (cell_of x) ∷ [])) }
{
    let x = settled(k)?;
    if is_exact_of_one(row, &x) {
        Ok(x)
    } else {
        Err(Memory)
    }
}

/// The same of two arguments.
pub(crate) fn settled_two(row: Row, a: &Known, b: &Known) -> Result<(Known, Known), Memory>
    ensures first { IfOk result (λ p. IsSettled a.now p.0) }
    ensures second { IfOk result (λ p. IsSettled b.now p.1) }
    ensures exact { IfOk result (λ p. IsExact row (value_of (cell_of p.0) ∷ value_of (cell_of p.1) ∷ [])) }
{
    let x = settled(a)?;
    let y = settled(b)?;
    if is_exact_of_two(row, &x, &y) {
        Ok((x, y))
    } else {
        Err(Memory)
    }
}

// ---- a cell with a value that no node tells

fn origin_of(c: &Known) -> Result<Origin, Memory>
    ensures { IfOk result (λ o. (t : ℕ → Term) → origin_value t o ≡ value_of (cell_of c.now)) }
{
    match c {
        Known::Undefined => Ok(Origin::Nothing),
        Known::One(i) => {
            let same = share_item(i)?;
            Ok(Origin::Item(same))
        }
        _ => Err(Memory),
    }
}

pub(crate) fn same_ranges(a: &[(i64, i64)], b: &[(i64, i64)]) -> bool
    ensures { result ≡ true → a.now ≡ b.now }
{
    a == b
}

/// Whether two arrays have the same index ranges.
pub(crate) fn same_index(a: &Rc<Vec<(i64, i64)>>, b: &Rc<Vec<(i64, i64)>>) -> bool
    ensures { result ≡ true → a.now.value.items ≡ b.now.value.items }
{
    same_ranges(a.as_slice(), b.as_slice())
}

fn values_again(items: &Rc<Vec<Value>>) -> Result<Origins, AllocError>
    ensures { IfOk result (λ o. (l : ℕ → Option (List Content)) → origins_value l o ≡ Some (map content items.now.value.items)) }
{
    let same = items.clone()?;
    Ok(Origins::Values(same))
}

fn array_origins(
    ix: &Rc<Vec<(i64, i64)>>,
    jx: &Rc<Vec<(i64, i64)>>,
    items: &Rc<Vec<Value>>,
) -> Result<Origins, Memory>
    ensures { IfOk result (λ o. (l : ℕ → Option (List Content)) → array_of ix.now.value.items (origins_value l o)
        ≡ Some (values.array jx.now.value.items (contents (map content items.now.value.items)))) }
{
    if !same_index(ix, jx) {
        return Err(Memory);
    }
    let o = values_again(items)?;
    Ok(o)
}

fn origins_of(ix: &Rc<Vec<(i64, i64)>>, c: &Known) -> Result<Origins, Memory>
    ensures { IfOk result (λ o. (l : ℕ → Option (List Content)) → array_of ix.now.value.items (origins_value l o) ≡ value_of (cell_of c.now)) }
{
    match c {
        Known::Undefined => Ok(Origins::Nothing),
        Known::Array(jx, items) => array_origins(ix, jx, items),
        _ => Err(Memory),
    }
}

fn array_with(
    alloc: Global,
    ix: &Rc<Vec<(i64, i64)>>,
    all: &Rc<Vec<Bound>>,
    origins: Origins,
) -> Result<Known, AllocError>
    ensures { IfOk result (λ k. (r : Reading) → seen r k ≡ Var (bounds.many ix.now.value.items (map known_bound all.now.value.items))
        (held r.mode (array_of ix.now.value.items (origins_value r.line origins)))) }
{
    let ranges = ix.clone()?;
    let held = all.clone()?;
    row_of(alloc, ranges, held, origins)
}

fn valued_single(alloc: Global, bound: &Bound, c: &Known) -> Result<Known, Memory>
    ensures { IfOk result (λ k. (r : Reading) → Var (bounds.one (known_bound bound.now)) (held r.mode (value_of (cell_of c.now))) ≡ seen r k) }
{
    let same = share_bound(bound)?;
    let origin = origin_of(c)?;
    let k = var_of(alloc, same, origin)?;
    Ok(k)
}

fn valued_array(
    alloc: Global,
    ix: &Rc<Vec<(i64, i64)>>,
    all: &Rc<Vec<Bound>>,
    c: &Known,
) -> Result<Known, Memory>
    ensures { IfOk result (λ k. (r : Reading) → Var (bounds.many ix.now.value.items (map known_bound all.now.value.items)) (held r.mode (value_of (cell_of c.now))) ≡ seen r k) }
{
    let origins = origins_of(ix, c)?;
    let k = array_with(alloc, ix, all, origins)?;
    Ok(k)
}

pub(crate) fn whole_again(k: &Known) -> Result<Known, Memory>
    ensures { IfOk result (λ x. (r : Reading) (v : Option Content) → with_value v (cell_of k.now) ≡ seen r x) }
{
    let same = share(k)?;
    whole(same)
}

/// A cell without values, with the value of a par one.
pub(crate) fn valued(alloc: Global, shape: &Known, c: &Known) -> Result<Known, Memory>
    ensures { IfOk result (λ k. (r : Reading) → with_value (held r.mode (value_of (cell_of c.now))) (cell_of shape.now) ≡ seen r k) }
{
    match shape {
        Known::Var(x) => valued_single(alloc, &x.bound, c),
        Known::Row(ix, xs) => valued_array(alloc, ix, &xs.bounds, c),
        _ => {
            let k = whole_again(shape)?;
            Ok(k)
        }
    }
}
