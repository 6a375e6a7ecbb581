// Whether the values of var cells lie in a set.

ghost use Rattle.std.specs.Prelude.{◌≡◌, ◌*◌, ◌+◌, IfOk, IfSome, Some, true, false, ℕ, length};
ghost use Rattle.mz_operations.specs.Sets.{is_subset};
ghost use Rattle.mz_arena.specs.Values.{Term, as_number, as_set, holds, is_member, is_true};
ghost use Rattle.mz_meaning.specs.Arrays.{defined_in};
ghost use Rattle.mz_meaning.specs.Cells.{value_of};
ghost use Rattle.mz_symbol.specs.Makes.{GoesOnBy};
ghost use Rattle.mz_symbol.specs.Readings.{Reading};
ghost use Rattle.glob_nodes.specs.declared.nodes.Join.TheVariants.{Both};
ghost use Rattle.glob_nodes.specs.Says.{Tells, joined_each};
ghost use Rattle.mz_eval_cells.specs.declared.types.Known.TheVariants as known;
ghost use Rattle.mz_eval_cells.specs.Views.{seen, truth_by, var_content};
ghost use Rattle.mz_eval_symbols.specs.Taken.{count_in};
ghost use Rattle.mz_eval_guards.specs.Guards.{IsGuard, open_sure};
ghost use Rattle.mz_eval_guards.specs.Lying.{IsSetNode, IsWithin, lies_by, plain_lies, symbol_lies, value_lies};

use crate::joining::never;
use crate::lines::line_items;
use crate::there::{always, number_there};
use crate::types::Guard;
use glob_nodes::{Join, Relation, joined, made, negated, to_each};
use mz_arena::{Id, NodeKind};
use mz_base::Memory;
use mz_core::Base;
use mz_eval_cells::{Known, Origin, VarValue, length_of};
use mz_eval_symbols::{line_in, symbol_in};
use mz_symbol::{Run, Symbol};
use mz_value::RangeSet;
use std::alloc::{AllocError, Global};
use std::rc::Rc;

/// A set's node, and whether the set has some element.
#[derive(Clone, Copy)]
pub(crate) struct Within {
    pub set: Id,
    pub some: bool,
}

/// The node of a set that is no set of an enum.
fn set_node(s: Symbol) -> Result<Id, Memory>
    ensures { IfOk result (λ id. IsSetNode id s) }
{
    if s.occurs.is_some() {
        return Err(Memory);
    }
    match s.base {
        Base::SetInt => Ok(s.term),
        _ => Err(Memory),
    }
}

#[tactic(auto, using(crate::proofs::LyingLaws::within_is))]
fn set_within(alloc: Global, run: &mut Run, u: &RangeSet) -> Result<Within, Memory>
    ensures goes { GoesOnBy 0 run.old run.new }
    ensures within { IfOk result (IsWithin run.old run.new u.now) }
{
    let some = !u.ranges().is_empty();
    let copy = u.copy(alloc)?;
    let Ok(s) = run.set(None, copy) else {
        return Err(Memory);
    };
    let set = set_node(s)?;
    Ok(Within { set, some })
}

// ---- symbols

fn set_lies(run: &mut Run, set: Id, x: Id) -> Result<Id, Memory>
    ensures goes { GoesOnBy 6 run.old run.new }
    ensures tells { IfOk result (Tells run.old run.new (λ r. holds (as_set (r.term x)) (as_set (r.term set)) is_subset)) }
{
    let id = made(run, NodeKind::Subset, x, set)?;
    Ok(id)
}

fn number_lies(run: &mut Run, set: Id, x: Id) -> Result<Id, Memory>
    ensures goes { GoesOnBy 6 run.old run.new }
    ensures tells { IfOk result (Tells run.old run.new (λ r. is_member (as_number (r.term x)) (as_set (r.term set)))) }
{
    let id = made(run, NodeKind::Member, x, set)?;
    Ok(id)
}

/// Whether the value of a base that a node stands for is there and lies in a set. Out of memory too
/// of a Boolean's node.
fn value_lies(run: &mut Run, set: Id, base: Base, x: Id) -> Result<Id, Memory>
    ensures goes { GoesOnBy 6 run.old run.new }
    ensures tells { IfOk result (Tells run.old run.new (λ r. value_lies base (as_set (r.term set)) (r.term x))) }
{
    match base {
        Base::Bool => number_there(run, x),
        Base::SetInt => set_lies(run, set, x),
        Base::SetEnum(_) => set_lies(run, set, x),
        _ => number_lies(run, set, x),
    }
}

#[tactic(auto, using(mz_symbol_rows::proofs::GoingOn::goes_most))]
fn plain_lies(run: &mut Run, set: Id, base: Base, x: Id) -> Result<Id, Memory>
    ensures goes { GoesOnBy 6 run.old run.new }
    ensures tells { IfOk result (Tells run.old run.new (λ r. plain_lies base (as_set (r.term set)) (r.term x))) }
{
    match base {
        Base::Bool => always(run, true),
        _ => value_lies(run, set, base, x),
    }
}

/// Whether an option is absent or lies in a set that has some element.
#[tactic(auto, using(mz_symbol_rows::proofs::GoingOn::goes_both, mz_symbol_rows::proofs::GoingOn::goes_most, crate::proofs::LyingLaws::some_tells))]
fn option_lies(run: &mut Run, set: Id, base: Base, o: Id, x: Id) -> Result<Id, Memory>
    ensures goes { GoesOnBy 18 run.old run.new }
    ensures tells { IfOk result (Tells run.old run.new (λ r. lies_by base (Some o) (as_set (r.term set)) true r.term x)) }
{
    let lies = value_lies(run, set, base, x)?;
    let none = negated(run, o)?;
    let id = joined(run, Join::Either, none, lies)?;
    Ok(id)
}

/// Whether an option is there and lies in a set that has no element.
#[tactic(auto, using(mz_symbol_rows::proofs::GoingOn::goes_both, mz_symbol_rows::proofs::GoingOn::goes_most, crate::proofs::LyingLaws::none_tells))]
fn option_lies_nowhere(run: &mut Run, set: Id, base: Base, o: Id, x: Id) -> Result<Id, Memory>
    ensures goes { GoesOnBy 18 run.old run.new }
    ensures tells { IfOk result (Tells run.old run.new (λ r. lies_by base (Some o) (as_set (r.term set)) false r.term x)) }
{
    let lies = value_lies(run, set, base, x)?;
    let id = joined(run, Join::Both, o, lies)?;
    Ok(id)
}

fn option_within(run: &mut Run, w: Within, base: Base, o: Id, x: Id) -> Result<Id, Memory>
    ensures goes { GoesOnBy 18 run.old run.new }
    ensures tells { IfOk result (Tells run.old run.new (λ r. lies_by base (Some o) (as_set (r.term w.set)) w.some r.term x)) }
{
    match w.some {
        true => option_lies(run, w.set, base, o, x),
        false => option_lies_nowhere(run, w.set, base, o, x),
    }
}

#[tactic(auto, using(mz_symbol_rows::proofs::GoingOn::goes_most))]
fn lies_by(run: &mut Run, w: Within, base: Base, occurs: Option<Id>, x: Id) -> Result<Id, Memory>
    ensures goes { GoesOnBy 18 run.old run.new }
    ensures tells { IfOk result (Tells run.old run.new (λ r. lies_by base occurs (as_set (r.term w.set)) w.some r.term x)) }
{
    match occurs {
        None => plain_lies(run, w.set, base, x),
        Some(o) => option_within(run, w, base, o, x),
    }
}

/// Whether what a symbol stands for is there and lies in a set.
fn symbol_lies(run: &mut Run, w: Within, s: Symbol) -> Result<Id, Memory>
    ensures goes { GoesOnBy 18 run.old run.new }
    ensures tells { IfOk result (Tells run.old run.new (symbol_lies w s)) }
{
    lies_by(run, w, s.base, s.occurs, s.term)
}

impl Relation<Symbol> for Within {
    ghost use Rattle.mz_eval_guards.specs.Lying.{symbol_lies};

    // the second one alone counts
    ghost related = { λ w x y r. symbol_lies w y r };

    ghost room = { 18 };

    fn relate(&self, run: &mut Run, x: &Symbol, y: &Symbol) -> Result<Id, Memory> {
        let _first = x.term;
        let id = symbol_lies(run, *self, *y)?;
        Ok(id)
    }
}

// ---- cells

/// A var cell that is no array and no Boolean that may be undefined.
#[tactic(auto, using(mz_symbol_rows::proofs::GoingOn::goes_both, mz_symbol_rows::proofs::GoingOn::goes_most))]
fn single_lies(alloc: Global, run: &mut Run, u: &RangeSet, k: &Known) -> Result<Guard, Memory>
    ensures goes { GoesOnBy 26 run.old run.new }
    ensures guards { IfOk result (IsGuard run.old run.new (λ r. open_sure r.mode (defined_in u.now (value_of (seen r k.now))))) }
{
    let Ok(s) = symbol_in(alloc, run, Base::Int, false, k) else {
        return Err(Memory);
    };
    let w = set_within(alloc, run, u)?;
    let id = symbol_lies(run, w, s)?;
    Ok(Guard::Open(id))
}

/// The nodes of a Boolean that may be undefined, and isn't recast.
pub(crate) fn truth_nodes(v: &VarValue) -> Option<(Id, Id)>
    ensures { IfSome result (λ p. (t : ℕ → Term) → var_content t v.now ≡ truth_by (is_true (t p.0)) (is_true (t p.1))) }
{
    if v.cast.is_some() {
        return None;
    }
    match v.origin {
        Origin::Truth(yes, defined) => Some((yes, defined)),
        _ => None,
    }
}

#[tactic(auto, using(crate::proofs::LyingLaws::truth_guards))]
fn truth_lies(run: &mut Run, u: &RangeSet, yes: Id, defined: Id) -> Result<Guard, Memory>
    ensures goes { GoesOnBy 6 run.old run.new }
    ensures guards { IfOk result (IsGuard run.old run.new (λ r. open_sure r.mode (defined_in u.now (truth_by (is_true (r.term yes)) (is_true (r.term defined)))))) }
{
    let _ranges = u.ranges();
    let id = joined(run, Join::Either, yes, defined)?;
    Ok(Guard::Open(id))
}

pub(crate) fn same_cell(v: &Rc<VarValue>) -> Result<Known, AllocError>
    ensures { IfOk result (λ k. (r : Reading) → seen r k ≡ seen r (known.Var v.now)) }
{
    Ok(Known::Var(v.clone()?))
}

#[tactic(auto, using(crate::proofs::LyingLaws::same_guards))]
fn plain_var_lies(
    alloc: Global,
    run: &mut Run,
    u: &RangeSet,
    v: &Rc<VarValue>,
) -> Result<Guard, Memory>
    ensures goes { GoesOnBy 26 run.old run.new }
    ensures guards { IfOk result (IsGuard run.old run.new (λ r. open_sure r.mode (defined_in u.now (value_of (seen r (known.Var v.now)))))) }
{
    let k = same_cell(v)?;
    let g = single_lies(alloc, run, u, &k)?;
    Ok(g)
}

/// A var cell that is no array.
#[tactic(auto, using(mz_symbol_rows::proofs::GoingOn::goes_most, crate::proofs::LyingLaws::truth_cell))]
fn var_lies(alloc: Global, run: &mut Run, u: &RangeSet, v: &Rc<VarValue>) -> Result<Guard, Memory>
    ensures goes { GoesOnBy 26 run.old run.new }
    ensures guards { IfOk result (IsGuard run.old run.new (λ r. open_sure r.mode (defined_in u.now (value_of (seen r (known.Var v.now)))))) }
{
    match truth_nodes(v) {
        Some(p) => truth_lies(run, u, p.0, p.1),
        None => plain_var_lies(alloc, run, u, v),
    }
}

fn item_count(k: &Known) -> u64
    ensures { result ≡ count_in k.now }
{
    match length_of(k) {
        None => 0,
        Some(n) => n,
    }
}

fn each_lies(run: &mut Run, w: Within, defined: Id, items: Vec<Symbol>) -> Result<Id, Memory>
    ensures goes { GoesOnBy (24 * length items.items) run.old run.new }
    ensures tells { IfOk result (Tells run.old run.new (λ r. joined_each Both (λ y. symbol_lies w y r) items.items (is_true (r.term defined)))) }
{
    let first = Symbol {
        base: Base::Bool,
        occurs: None,
        term: defined,
    };
    to_each(run, &w, Join::Both, &first, &items, defined)
}

/// A var array: each of its elements.
#[tactic(auto, using(crate::proofs::ArrayLaws::array_goes, crate::proofs::ArrayLaws::array_begins))]
fn array_lies(alloc: Global, run: &mut Run, u: &RangeSet, k: &Known) -> Result<Guard, Memory>
    ensures goes { GoesOnBy (44 * count_in k.now) run.old run.new }
    ensures guards { IfOk result (IsGuard run.old run.new (λ r. open_sure r.mode (defined_in u.now (value_of (seen r k.now))))) }
{
    let Ok(line) = line_in(alloc, run, Base::Int, k) else {
        return Err(Memory);
    };
    let found = line_items(alloc, run, line, item_count(k))?;
    let w = set_within(alloc, run, u)?;
    let id = each_lies(run, w, found.0, found.1)?;
    Ok(Guard::Open(id))
}

/// Whether a var cell's value is there and lies in a set: an absent option lies in each set that has
/// some element, of an array each element lies in it, and a set is a part of it.
///
/// What the nodes may cost the caller's work has to pay for. Out of memory too of a par cell; where
/// `symbol_in` or `line_in` is; and of an option of a truth value by its Boolean node.
#[tactic(auto, using(mz_symbol_rows::proofs::GoingOn::goes_most, crate::proofs::LyingLaws::open_cell))]
pub fn lies_in(alloc: Global, run: &mut Run, u: &RangeSet, k: &Known) -> Result<Guard, Memory>
    ensures goes { GoesOnBy (26 + 44 * count_in k.now) run.old run.new }
    ensures guards { IfOk result (IsGuard run.old run.new (λ r. record { par = false; is = defined_in u.now (value_of (seen r k.now)) })) }
{
    match k {
        Known::Undefined => Err(Memory),
        Known::One(_) => Err(Memory),
        Known::Array(_, _) => Err(Memory),
        Known::Var(v) => var_lies(alloc, run, u, v),
        Known::Row(_, _) => array_lies(alloc, run, u, k),
        Known::Unshaped(_) => never(run),
    }
}
