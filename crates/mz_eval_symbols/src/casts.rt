// Values and symbols as ones of another base.

ghost use Rattle.std.specs.Prelude.{◌≡◌, ◌*◌, ◌+◌, IfOk, Option, Some, length, slice_get, true, ℕ};
ghost use Rattle.std.specs.Option.{option_map};
ghost use Rattle.mz_value.specs.Contents.{content};
ghost use Rattle.mz_arena.specs.Values.{Term, to_int_term};
ghost use Rattle.mz_meaning.specs.Cells.{held};
ghost use Rattle.mz_meaning.specs.Runs.{give};
ghost use Rattle.mz_symbol.specs.Runs.{ReadsNodes};
ghost use Rattle.mz_symbol.specs.Readings.{Reading, Reads};
ghost use Rattle.mz_symbol.specs.Makes.{GoesOnBy, Means};
ghost use Rattle.mz_symbol_rows.specs.RowValues.{argument};
ghost use Rattle.mz_eval_cells.specs.Views.{cast_by};
ghost use Rattle.mz_eval_symbols.specs.Steps.{AreCasts, AreMade, IsCounted, IsCountedOption, IsRecast, OneCast, OneMore, argued, is_case, is_int, is_set_sort, item_cast, relabels};
ghost use Rattle.mz_eval_symbols.specs.StepsLacking.{IsFitted, IsSameItem};

use crate::lacking::relabeled;
use crate::nodes::is_count;
use mz_arena::{Arena, Id, Node, NodeKind};
use mz_base::{Memory, Stop};
use mz_core::Base;
use mz_eval_cells::recast;
use mz_symbol::{Run, Symbol};
use mz_value::Value;
use std::alloc::{AllocError, Global};

/// A value as one of a base, if one is told.
pub(crate) fn cast_value(cast: Option<Base>, v: Value) -> Value
    ensures { content result ≡ item_cast cast (content v) }
{
    match cast {
        None => v,
        Some(b) => recast(b, v),
    }
}

fn is_int(b: Base) -> bool
    ensures { result ≡ is_int b }
{
    match b {
        Base::Int => true,
        _ => false,
    }
}

fn is_case(b: Base) -> bool
    ensures { result ≡ is_case b }
{
    match b {
        Base::Enum(_) => true,
        _ => false,
    }
}

fn is_set_sort(b: Base) -> bool
    ensures { result ≡ is_set_sort b }
{
    match b {
        Base::SetInt => true,
        Base::SetEnum(_) => true,
        _ => false,
    }
}

/// Whether the same node stands for a value of the first base as one of the second.
fn relabels(a: Base, b: Base) -> bool
    ensures { result ≡ relabels a b }
{
    match a {
        Base::Int => is_case(b),
        Base::Enum(_) => is_int(b),
        Base::SetInt => is_set_sort(b),
        Base::SetEnum(_) => is_set_sort(b),
        _ => false,
    }
}

/// Whether a truth value that is no option is to be counted.
fn is_counted(s: Symbol, b: Base) -> bool
    ensures { result ≡ true → IsCounted s b }
{
    match s.base {
        Base::Bool => match b {
            Base::Int => s.occurs.is_none(),
            _ => false,
        },
        _ => false,
    }
}

fn whole_node(run: &mut Run, x: Id) -> Result<Id, Stop>
    ensures goes { GoesOnBy 4 run.old run.new }
    ensures means { Means (λ r. r.term) result run.old run.new (λ r. give (to_int_term (r.term x))) }
{
    let node = Node {
        kind: NodeKind::ToInt,
        a: x,
        b: 0,
        c: 0,
        number: 0,
    };
    run.node(&node)
}

/// Whether an option of a truth value is counted by its own node.
fn counts_itself(nodes: &Arena, s: Symbol, b: Base) -> bool
    ensures { result ≡ true → IsCountedOption nodes.now s b }
{
    match s.base {
        Base::Bool => match b {
            Base::Int => s.occurs.is_some() && is_count(nodes, s.term),
            _ => false,
        },
        _ => false,
    }
}

fn counted(run: &mut Run, b: Base, s: Symbol) -> Result<Symbol, Stop>
    ensures goes { GoesOnBy 4 run.old run.new }
    ensures cast { IfOk result (λ x. (r : Reading) → Reads r run.new → IsRecast r run.old run.new b s x) }
{
    if !is_counted(s, b) {
        return Err(Stop::Memory);
    }
    let term = whole_node(run, s.term)?;
    Ok(Symbol {
        base: Base::Int,
        occurs: None,
        term,
    })
}

/// A truth value as an integer.
fn truth_recast(run: &mut Run, b: Base, s: Symbol) -> Result<Symbol, Stop>
    ensures goes { GoesOnBy 4 run.old run.new }
    ensures cast { IfOk result (λ x. (r : Reading) → Reads r run.new → IsRecast r run.old run.new b s x) }
{
    if counts_itself(run.arena(), s, b) {
        return Ok(Symbol {
            base: Base::Int,
            occurs: s.occurs,
            term: s.term,
        });
    }
    counted(run, b, s)
}

/// A symbol whose nodes stand for no value of this base.
fn recast_other(alloc: Global, run: &mut Run, b: Base, s: Symbol) -> Result<Symbol, Stop>
    ensures goes { GoesOnBy 4 run.old run.new }
    ensures cast { IfOk result (λ x. (r : Reading) → Reads r run.new → IsRecast r run.old run.new b s x) }
{
    let alike = relabeled(alloc, run.arena(), b, s)?;
    match alike {
        Some(x) => Ok(x),
        None => truth_recast(run, b, s),
    }
}

/// A symbol as one of this base. Out of memory too where it is an option of a truth value that may
/// have a value and whose node isn't that of a truth value counted, and where its values aren't ones
/// of this base.
#[tactic(auto, using(crate::proofs::CastLaws::relabeled))]
fn recast_symbol(alloc: Global, run: &mut Run, b: Base, s: Symbol) -> Result<Symbol, Stop>
    ensures goes { GoesOnBy 4 run.old run.new }
    ensures cast { IfOk result (λ x. (r : Reading) → Reads r run.new → IsRecast r run.old run.new b s x) }
{
    if relabels(s.base, b) {
        return Ok(Symbol {
            base: b,
            occurs: s.occurs,
            term: s.term,
        });
    }
    recast_other(alloc, run, b, s)
}

fn recast_argument(alloc: Global, run: &mut Run, b: Base, s: Symbol) -> Result<Symbol, Stop>
    ensures goes { GoesOnBy 4 run.old run.new }
    ensures means { Means argument result run.old run.new (λ r. give (held r.mode (cast_by (Some b) (argued r.term s)))) }
{
    let Ok(x) = recast_symbol(alloc, run, b, s) else {
        return Err(Stop::Memory);
    };
    Ok(x)
}

// ---- symbols of another base than their node's

/// Whether a symbol of the first base is one of a node of the second.
pub(crate) fn is_base(a: Base, b: Base) -> bool {
    match a {
        Base::Bool => matches!(b, Base::Bool),
        Base::Int => matches!(b, Base::Int),
        Base::Enum(d) => match b {
            Base::Enum(e) => d == e,
            _ => false,
        },
        _ => true,
    }
}

/// A symbol as one of its node's base, where it is an option that surely has no value where it occurs.
fn fitted(alloc: Global, nodes: &Arena, base: Base, s: Symbol) -> Result<Symbol, AllocError>
    ensures { IfOk result (λ x. (t : ℕ → Term) → ReadsNodes t nodes.now → IsFitted t s x) }
{
    if is_base(s.base, base) {
        return Ok(s);
    }
    let alike = relabeled(alloc, nodes, base, s)?;
    match alike {
        None => Ok(s),
        Some(x) => Ok(x),
    }
}

/// A symbol, recast where a base is told, as an argument of a node of this base.
pub(crate) fn cast_symbol(
    alloc: Global,
    run: &mut Run,
    base: Base,
    cast: Option<Base>,
    s: Symbol,
) -> Result<Symbol, Stop>
    ensures goes { GoesOnBy 4 run.old run.new }
    ensures means { Means argument result run.old run.new (λ r. give (held r.mode (cast_by cast (argued r.term s)))) }
{
    match cast {
        None => {
            let x = fitted(alloc, run.arena(), base, s)?;
            Ok(x)
        }
        Some(b) => recast_argument(alloc, run, b, s),
    }
}

// ---- all elements

fn nth(items: &[Symbol], n: u64) -> Option<Symbol>
    ensures { result ≡ slice_get items.now n }
{
    match items.get(n as usize) {
        None => None,
        Some(s) => Some(*s),
    }
}

/// One symbol more: the element at this place, recast.
fn with_cast(
    alloc: Global,
    run: &mut Run,
    b: Base,
    items: &[Symbol],
    i: u64,
    all: Vec<Symbol>,
) -> Result<Vec<Symbol>, Stop>
    ensures goes { GoesOnBy 4 run.old run.new }
    ensures more { IfOk result (λ v. (r : Reading) → Reads r run.new → OneCast r run.old run.new b items.now i all.items v.items) }
    ensures count { IfOk result (λ v. length v.items ≡ length all.items + 1) }
{
    let Some(s) = nth(items, i) else {
        return Err(Stop::Memory);
    };
    let x = recast_symbol(alloc, run, b, s)?;
    let mut more = all;
    more.push(x)?;
    Ok(more)
}

/// The first elements, recast.
pub(crate) fn casts(
    alloc: Global,
    run: &mut Run,
    b: Base,
    items: &[Symbol],
    count: u64,
) -> Result<Vec<Symbol>, Stop>
    ensures goes { GoesOnBy (4 * count) run.old run.new }
    ensures made { IfOk result (λ v. (r : Reading) → Reads r run.new → AreCasts r run.old run.new b items.now count v.items) }
    ensures count { IfOk result (λ v. length v.items ≡ count) }
{
    let mut all = Vec::new(alloc);
    for i in 0..count {
        all = with_cast(alloc, run, b, items, i, all)?;
    }
    Ok(all)
}

// ---- elements of another base than their array's node

/// One symbol more: the element at this place, as one of the node's base.
fn with_fitted(
    alloc: Global,
    nodes: &Arena,
    base: Base,
    items: &[Symbol],
    i: u64,
    all: Vec<Symbol>,
) -> Result<Vec<Symbol>, Memory>
    ensures more { IfOk result (λ v. (t : ℕ → Term) → ReadsNodes t nodes.now → OneMore (IsSameItem t) items.now i all.items v.items) }
    ensures count { IfOk result (λ v. length v.items ≡ length all.items + 1) }
{
    let Some(s) = nth(items, i) else {
        return Err(Memory);
    };
    let x = fitted(alloc, nodes, base, s)?;
    let mut more = all;
    more.push(x)?;
    Ok(more)
}

/// The first elements, as ones of the node's base.
pub(crate) fn all_fitted(
    alloc: Global,
    nodes: &Arena,
    base: Base,
    items: &[Symbol],
    count: u64,
) -> Result<Vec<Symbol>, Memory>
    ensures made { IfOk result (λ v. (t : ℕ → Term) → ReadsNodes t nodes.now → AreMade (IsSameItem t) items.now count v.items) }
    ensures count { IfOk result (λ v. length v.items ≡ count) }
{
    let mut all = Vec::new(alloc);
    for i in 0..count {
        all = with_fitted(alloc, nodes, base, items, i, all)?;
    }
    Ok(all)
}

/// Whether the first of these elements is of a node's base, or no option.
pub(crate) fn is_fit(items: &[Symbol], base: Base) -> bool {
    match nth(items, 0) {
        None => true,
        Some(s) => s.occurs.is_none() || is_base(s.base, base),
    }
}
