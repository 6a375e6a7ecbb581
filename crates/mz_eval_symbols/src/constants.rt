// The symbols of par values, and of undefined ones.

ghost use Rattle.std.specs.Prelude.{◌≡◌, ◌+◌, IfOk, None, Option, Some, length, map, slice_get, MatchOption, true, ℕ};
ghost use Rattle.mz_value.specs.Contents.{content};
ghost use Rattle.mz_value.specs.Contents as values;
ghost use Rattle.mz_arena.specs.Values as terms;
ghost use Rattle.mz_arena.specs.Values.{Term};
ghost use Rattle.mz_meaning.specs.Cells.{held, is_bool};
ghost use Rattle.mz_meaning.specs.Runs.{give};
ghost use Rattle.mz_symbol.specs.Readings.{Reading, Reads, state_of, symbol_seen};
ghost use Rattle.mz_symbol.specs.Makes.{GoesOn, GoesOnBy, Means};
ghost use Rattle.mz_symbol_rows.specs.RowValues.{argument, is_single};
ghost use Rattle.mz_eval_symbols.specs.Bases.{symbol_base};
ghost use Rattle.mz_eval_symbols.specs.Steps.{AreConstants, IsConstant, OneConstant, argued, item_cast, set_base};

use crate::casts::cast_value;
use mz_arena::{Id, Node, NodeKind};
use mz_base::{Memory, Stop};
use mz_builtin_arguments::copied;
use mz_core::Base;
use mz_eval_cells::is_set_base;
use mz_symbol::{Run, Symbol};
use mz_symbol_rows::options::nothing;
use mz_value::{RangeSet, SetValue, Value};
use std::alloc::Global;

// ---- the bases of symbols

/// The base of the symbols of a node's values: what has no base of its own is of integers, or of sets
/// of them.
pub fn symbol_base(base: Base) -> Base
    ensures { result ≡ symbol_base base }
{
    match base {
        Base::Bottom => Base::Int,
        Base::SetBottom => Base::SetInt,
        _ => base,
    }
}

// ---- one value

fn set_constant(run: &mut Run, s: SetValue) -> Result<Symbol, Stop>
    ensures goes { GoesOn run.old run.new }
    ensures means { Means symbol_seen result run.old run.new (λ r. give (held r.mode (Some (values.set s.of s.ranges)))) }
{
    let SetValue { of, ranges } = s;
    run.set(of, ranges)
}

/// The symbol of a value, or the absent option of a base. Out of memory too of a text and of an array.
pub(crate) fn constant(run: &mut Run, base: Base, v: Value) -> Result<Symbol, Stop>
    ensures goes { GoesOn run.old run.new }
    ensures means { Means symbol_seen result run.old run.new (λ r. give (held r.mode (Some (content v)))) }
{
    match v {
        Value::Bool(b) => run.truth(b),
        Value::Int(n) => run.integer(n),
        Value::Enum(e, k) => run.case(e, k),
        Value::Set(s) => set_constant(run, s),
        Value::Absent => nothing(run, base),
        Value::Text(_text) => Err(Stop::Memory),
        Value::Array(_array) => Err(Stop::Memory),
    }
}

// ---- elements of arrays

fn number_node(run: &mut Run, n: i64) -> Result<Id, Stop>
    ensures goes { GoesOn run.old run.new }
    ensures means { Means (λ r. r.term) result run.old run.new (λ _. give (Some (terms.number n))) }
{
    let node = Node {
        kind: NodeKind::Int,
        a: 0,
        b: 0,
        c: 0,
        number: n,
    };
    run.node(&node)
}

fn truth_item(run: &mut Run, b: bool) -> Result<Symbol, Stop>
    ensures goes { GoesOn run.old run.new }
    ensures constant { IfOk result (λ s. (r : Reading) → Reads r run.new → IsConstant r run.old run.new (values.bool b) s) }
{
    let term = run.truth_node(b)?;
    Ok(Symbol {
        base: Base::Bool,
        occurs: None,
        term,
    })
}

fn bit_node(run: &mut Run, b: bool) -> Result<Id, Stop>
    ensures goes { GoesOn run.old run.new }
    ensures means { Means (λ r. r.term) result run.old run.new (λ _. give (terms.bit b)) }
{
    if b {
        return number_node(run, 1);
    }
    number_node(run, 0)
}

/// A truth value as an option that is there: its value is an integer node.
fn truth_there(run: &mut Run, b: bool) -> Result<Symbol, Stop>
    ensures goes { GoesOn run.old run.new }
    ensures constant { IfOk result (λ s. (r : Reading) → Reads r run.new → IsConstant r run.old run.new (values.bool b) s) }
{
    let term = bit_node(run, b)?;
    let yes = run.truth_node(true)?;
    Ok(Symbol {
        base: Base::Bool,
        occurs: Some(yes),
        term,
    })
}

fn truth_of(run: &mut Run, opt: bool, b: bool) -> Result<Symbol, Stop>
    ensures goes { GoesOn run.old run.new }
    ensures constant { IfOk result (λ s. (r : Reading) → Reads r run.new → IsConstant r run.old run.new (values.bool b) s) }
{
    if opt {
        truth_there(run, b)
    } else {
        truth_item(run, b)
    }
}

fn integer_item(run: &mut Run, n: i64) -> Result<Symbol, Stop>
    ensures goes { GoesOn run.old run.new }
    ensures constant { IfOk result (λ s. (r : Reading) → Reads r run.new → IsConstant r run.old run.new (values.int n) s) }
{
    let term = number_node(run, n)?;
    Ok(Symbol {
        base: Base::Int,
        occurs: None,
        term,
    })
}

fn case_item(run: &mut Run, e: u64, n: i64) -> Result<Symbol, Stop>
    ensures goes { GoesOn run.old run.new }
    ensures constant { IfOk result (λ s. (r : Reading) → Reads r run.new → IsConstant r run.old run.new (values.case e n) s) }
{
    let term = number_node(run, n)?;
    Ok(Symbol {
        base: Base::Enum(e),
        occurs: None,
        term,
    })
}

/// Whether a value of this base is a truth value, an integer or a case.
pub(crate) fn is_single(base: Base) -> bool
    ensures { result ≡ is_single base }
{
    match base {
        Base::Bool => true,
        Base::Int => true,
        Base::Enum(_) => true,
        _ => false,
    }
}

fn absent_item(run: &mut Run, base: Base) -> Result<Symbol, Stop>
    ensures goes { GoesOn run.old run.new }
    ensures constant { IfOk result (λ s. (r : Reading) → Reads r run.new → IsConstant r run.old run.new values.absent s) }
{
    if !is_single(base) {
        return Err(Stop::Memory);
    }
    let term = number_node(run, 0)?;
    let no = run.truth_node(false)?;
    Ok(Symbol {
        base,
        occurs: Some(no),
        term,
    })
}

fn set_base(of: Option<u64>) -> Base
    ensures { result ≡ set_base of }
{
    match of {
        None => Base::SetInt,
        Some(e) => Base::SetEnum(e),
    }
}

fn set_item(run: &mut Run, s: SetValue) -> Result<Symbol, Stop>
    ensures goes { GoesOn run.old run.new }
    ensures constant { IfOk result (λ x. (r : Reading) → Reads r run.new → IsConstant r run.old run.new (values.set s.of s.ranges) x) }
{
    let SetValue { of, ranges } = s;
    let term = run.set_term(ranges)?;
    Ok(Symbol {
        base: set_base(of),
        occurs: None,
        term,
    })
}

/// The symbol of an element, or the absent option of a base. A truth value is an option where one is
/// asked for. Out of memory too of a text and of an array.
fn item(run: &mut Run, base: Base, opt: bool, v: Value) -> Result<Symbol, Stop>
    ensures goes { GoesOn run.old run.new }
    ensures constant { IfOk result (λ s. (r : Reading) → Reads r run.new → IsConstant r run.old run.new (content v) s) }
{
    match v {
        Value::Bool(b) => truth_of(run, opt, b),
        Value::Int(n) => integer_item(run, n),
        Value::Enum(e, k) => case_item(run, e, k),
        Value::Set(s) => set_item(run, s),
        Value::Absent => absent_item(run, base),
        Value::Text(_text) => Err(Stop::Memory),
        Value::Array(_array) => Err(Stop::Memory),
    }
}

fn nth(items: &[Value], n: u64) -> Option<&Value>
    ensures { MatchOption result (slice_get items.now n ≡ None) (λ v. slice_get items.now n ≡ Some v.now) }
{
    items.get(n as usize)
}

/// One symbol more: that of the element at this place, recast where a base is told.
fn with_constant(
    alloc: Global,
    run: &mut Run,
    base: Base,
    cast: Option<Base>,
    opt: bool,
    items: &[Value],
    i: u64,
    all: Vec<Symbol>,
) -> Result<Vec<Symbol>, Stop>
    ensures goes { GoesOn run.old run.new }
    ensures more { IfOk result (λ v. (r : Reading) → Reads r run.new
        → OneConstant r run.old run.new (map (item_cast cast) (map content items.now)) i all.items v.items) }
    ensures count { IfOk result (λ v. length v.items ≡ length all.items + 1) }
{
    let Some(x) = nth(items, i) else {
        return Err(Stop::Memory);
    };
    let copy = copied(alloc, x)?;
    let v = cast_value(cast, copy);
    let s = item(run, base, opt, v)?;
    let mut more = all;
    more.push(s)?;
    Ok(more)
}

// Whether one is absent.
fn have_absent(items: &[Value]) -> bool {
    items.iter().any(|v| matches!(v, Value::Absent))
}

/// The symbols of the first elements, each recast where a base is told. Where one is absent all truth
/// values are options.
pub(crate) fn constants(
    alloc: Global,
    run: &mut Run,
    base: Base,
    cast: Option<Base>,
    items: &[Value],
    count: u64,
) -> Result<Vec<Symbol>, Stop>
    ensures goes { GoesOn run.old run.new }
    ensures made { IfOk result (λ v. (r : Reading) → Reads r run.new
        → AreConstants r run.old run.new (map (item_cast cast) (map content items.now)) count v.items) }
    ensures count { IfOk result (λ v. length v.items ≡ count) }
{
    let opt = have_absent(items);
    let mut all = Vec::new(alloc);
    for i in 0..count {
        all = with_constant(alloc, run, base, cast, opt, items, i, all)?;
    }
    Ok(all)
}

// ---- undefined values

fn empty_set(alloc: Global, run: &mut Run) -> Result<Id, Stop>
    ensures goes { GoesOn run.old run.new }
    ensures same { IfOk result (λ _. (r : Reading) → Reads r run.new → state_of r run.old ≡ state_of r run.new) }
{
    let none = RangeSet::range(alloc, 1, 0)?;
    let s = run.set(None, none)?;
    Ok(s.term)
}

fn zero(run: &mut Run) -> Result<Id, Stop>
    ensures goes { GoesOn run.old run.new }
    ensures same { IfOk result (λ _. (r : Reading) → Reads r run.new → state_of r run.old ≡ state_of r run.new) }
{
    let id = number_node(run, 0)?;
    Ok(id)
}

/// Some node that a value of a base may have.
pub(crate) fn any_node(alloc: Global, run: &mut Run, base: Base) -> Result<Id, Stop>
    ensures goes { GoesOn run.old run.new }
    ensures same { IfOk result (λ _. (r : Reading) → Reads r run.new → state_of r run.old ≡ state_of r run.new) }
{
    if is_set_base(base) {
        empty_set(alloc, run)
    } else {
        zero(run)
    }
}

/// A node that has no value, of the sort of another one.
fn undefined_node(run: &mut Run, like: Id) -> Result<Id, Stop>
    ensures goes { GoesOnBy 8 run.old run.new }
    ensures means { Means (λ r. r.term) result run.old run.new (λ _. give None) }
{
    let no = run.truth_node(false)?;
    let node = Node {
        kind: NodeKind::Guard,
        a: no,
        b: like,
        c: 0,
        number: 0,
    };
    let id = run.node(&node)?;
    Ok(id)
}

fn is_bool(base: Base) -> bool
    ensures { result ≡ is_bool base }
{
    match base {
        Base::Bool => true,
        _ => false,
    }
}

/// The symbol of a value that isn't there: an option of it occurs. Out of memory of a truth value
/// that is no option.
#[tactic(auto, using(crate::proofs::Undefined::option_undefined, crate::proofs::Undefined::plain_undefined))]
fn undefined_by(base: Base, opt: bool, yes: Id, term: Id) -> Result<Symbol, Memory>
    ensures { IfOk result (λ s. (t : ℕ → Term) → terms.bit true ≡ t yes → None ≡ t term → argued t s ≡ None) }
{
    if opt {
        return Ok(Symbol {
            base,
            occurs: Some(yes),
            term,
        });
    }
    if is_bool(base) {
        return Err(Memory);
    }
    Ok(Symbol {
        base,
        occurs: None,
        term,
    })
}

/// The symbol of an undefined value of this base, or of an undefined option.
#[tactic(auto, using(mz_symbol_rows::proofs::GoingOn::goes_both, mz_symbol_rows::proofs::GoingOn::goes_most))]
pub(crate) fn undefined(alloc: Global, run: &mut Run, base: Base, opt: bool) -> Result<Symbol, Stop>
    ensures goes { GoesOnBy 8 run.old run.new }
    ensures means { Means argument result run.old run.new (λ r. give (held r.mode None)) }
{
    let Ok(like) = any_node(alloc, run, base) else {
        return Err(Stop::Memory);
    };
    let term = undefined_node(run, like)?;
    let yes = run.truth_node(true)?;
    let s = undefined_by(base, opt, yes, term)?;
    Ok(s)
}
