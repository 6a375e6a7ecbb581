// The elements of var arrays at their places.

ghost use Rattle.std.specs.Prelude.{◌≡◌, IfOk, MatchOption, None, Some, map, slice_get, ℕ};
ghost use Rattle.std.specs.Option.{option_and_then};
ghost use Rattle.mz_value.specs.Contents as values;
ghost use Rattle.mz_value.specs.Contents.{content, text_bytes};
ghost use Rattle.mz_operations.specs.Bounds as bounds;
ghost use Rattle.mz_meaning.specs.Cells.{Var, held};
ghost use Rattle.mz_symbol.specs.Makes.{GoesOn};
ghost use Rattle.mz_symbol.specs.Readings.{Reading};
ghost use Rattle.mz_eval_cells.specs.Views.{item_content, known_bound, seen};
ghost use Rattle.mz_eval_symbols.specs.Steps.{elements_cast, item_cast};
ghost use Rattle.mz_eval_comprehensions.specs.Drawn.{IsSeen, row_item};
ghost use Rattle.mz_eval_comprehensions.specs.StepsDrawn.{symbol_cell};

use crate::drawn::guarding::guarded;
use mz_base::Memory;
use mz_builtin_arguments::copied;
use mz_core::{Base, TypeInst};
use mz_eval_cells::{
    Bound, Item, Known, Origin, Origins, VarItems, VarValue, recast, var_of, var_value,
};
use mz_eval_guards::Guard;
use mz_symbol::{Run, Symbol};
use mz_symbol_arrays::lines::defined;
use mz_value::{SetValue, TextValue, Value};
use std::alloc::{AllocError, Global};
use std::rc::Rc;

// ---- par values that have become var

fn set_item(alloc: Global, s: SetValue) -> Result<Item, AllocError>
    ensures { IfOk result (λ i. item_content i ≡ values.set s.of s.ranges) }
{
    let held = Rc::new(alloc, s)?;
    Ok(Item::Set(held))
}

fn text_item(alloc: Global, t: TextValue) -> Result<Item, AllocError>
    ensures { IfOk result (λ i. item_content i ≡ values.text (text_bytes t)) }
{
    let held = Rc::new(alloc, t)?;
    Ok(Item::Text(held))
}

/// A value that is no array.
fn item_of(alloc: Global, v: Value) -> Result<Item, AllocError>
    ensures { IfOk result (λ i. item_content i ≡ content v) }
{
    match v {
        Value::Bool(b) => Ok(Item::Bool(b)),
        Value::Int(n) => Ok(Item::Int(n)),
        Value::Enum(e, k) => Ok(Item::Enum(e, k)),
        Value::Set(s) => set_item(alloc, s),
        Value::Absent => Ok(Item::Absent),
        Value::Text(t) => text_item(alloc, t),
        Value::Array(_array) => Err(AllocError),
    }
}

fn cast_value(cast: Option<Base>, v: Value) -> Value
    ensures { content result ≡ item_cast cast (content v) }
{
    match cast {
        None => v,
        Some(b) => recast(b, v),
    }
}

fn nth(items: &[Value], n: usize) -> Option<&Value>
    ensures { MatchOption result (slice_get items.now n ≡ None) (λ v. slice_get items.now n ≡ Some v.now) }
{
    items.get(n)
}

fn value_place(
    alloc: Global,
    cast: Option<Base>,
    items: &[Value],
    n: usize,
    bound: Bound,
) -> Result<Known, AllocError>
    ensures { IfOk result (λ k. (r : Reading) → seen r k
        ≡ Var (bounds.one (known_bound bound)) (held r.mode (option_and_then (λ ys. slice_get ys n) (elements_cast cast (Some (map content items.now)))))) }
{
    let Some(x) = nth(items, n) else {
        return Err(AllocError);
    };
    let copy = copied(alloc, x)?;
    let v = cast_value(cast, copy);
    let i = item_of(alloc, v)?;
    let k = var_of(alloc, bound, Origin::Item(i))?;
    Ok(k)
}

// ---- elements of lines

fn symbol_cell(
    alloc: Global,
    bound: Bound,
    cast: Option<Base>,
    s: Symbol,
) -> Result<Known, AllocError>
    ensures { IfOk result (λ k. (r : Reading) → seen r k ≡ symbol_cell (known_bound bound) cast s r) }
{
    let value = VarValue {
        bound,
        origin: Origin::Symbol(s),
        cast,
    };
    let held = Rc::new(alloc, value)?;
    Ok(Known::Var(held))
}

/// The type of an element, of which a guard asks the base and whether it is an option alone.
fn element_type(alloc: Global, base: Base, opt: bool) -> TypeInst {
    TypeInst {
        var: true,
        opt,
        base,
        dims: Vec::new(alloc),
    }
}

fn line_place(
    alloc: Global,
    run: &mut Run,
    base: Base,
    opt: bool,
    cast: Option<Base>,
    line: u64,
    n: usize,
    bound: Bound,
) -> Result<Known, Memory>
    ensures goes { GoesOn run.old run.new }
    ensures cell { IfOk result (IsSeen run.old run.new (λ r.
        Var (bounds.one (known_bound bound)) (held r.mode (option_and_then (λ ys. slice_get ys n) (elements_cast cast (r.line line)))))) }
{
    let found = defined(run, line)?;
    let Some(s) = run.element(line, n as u64) else {
        return Err(Memory);
    };
    let k = symbol_cell(alloc, bound, cast, s)?;
    let t = element_type(alloc, base, opt);
    let x = guarded(alloc, run, &t, Guard::Open(found.0), k)?;
    Ok(x)
}

// ---- elements

/// The element of an array that is undefined.
fn no_place(alloc: Global, cast: Option<Base>, bound: Bound) -> Result<Known, AllocError>
    ensures { IfOk result (λ k. (n : ℕ) (r : Reading) → seen r k
        ≡ Var (bounds.one (known_bound bound)) (held r.mode (option_and_then (λ ys. slice_get ys n) (elements_cast cast None)))) }
{
    let k = var_value(alloc, bound)?;
    Ok(k)
}

/// The element of a var array at a place, from 0, whose type has this base, an option or not, with
/// these bounds.
pub fn place(
    alloc: Global,
    run: &mut Run,
    base: Base,
    opt: bool,
    xs: &VarItems,
    n: usize,
    bound: Bound,
) -> Result<Known, Memory>
    ensures goes { GoesOn run.old run.new }
    ensures cell { IfOk result (IsSeen run.old run.new (λ r. Var (bounds.one (known_bound bound)) (row_item r xs.now n))) }
{
    match &xs.origins {
        Origins::Nothing => {
            let k = no_place(alloc, xs.cast, bound)?;
            Ok(k)
        }
        Origins::Values(items) => {
            let k = value_place(alloc, xs.cast, items.as_slice(), n, bound)?;
            Ok(k)
        }
        Origins::Line(line) => line_place(alloc, run, base, opt, xs.cast, *line, n, bound),
    }
}
