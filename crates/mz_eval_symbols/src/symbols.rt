// Cells as symbols.

ghost use Rattle.std.specs.Prelude.{◌≡◌, IfOk, MatchOption, Option, Some, ℕ};
ghost use Rattle.mz_value.specs.Contents.{content};
ghost use Rattle.mz_arena.specs.Values.{Term};
ghost use Rattle.mz_meaning.specs.Cells.{held};
ghost use Rattle.mz_meaning.specs.Runs.{give};
ghost use Rattle.mz_symbol.specs.Makes.{GoesOn, GoesOnBy, Means};
ghost use Rattle.mz_symbol.specs.Readings.{symbol_seen};
ghost use Rattle.mz_symbol_rows.specs.RowValues.{argument};
ghost use Rattle.mz_eval_cells.specs.Views.{cast_by, item_content, origin_value, var_content};
ghost use Rattle.mz_eval_symbols.specs.Steps.{argued};
ghost use Rattle.mz_eval_symbols.specs.Taken.{cell_value};

use crate::casts::{cast_symbol, cast_value, is_base};
use crate::constants::{constant, symbol_base, undefined};
use mz_arena::Id;
use mz_base::{Memory, Stop};
use mz_core::Base;
use mz_eval_cells::{Item, Known, Origin, VarValue, share_item};
use mz_symbol::{Run, Symbol};
use mz_symbol_rows::options::optional;
use mz_value::Value;
use std::alloc::{AllocError, Global};

// ---- options

fn occurrence(s: Symbol) -> Result<Id, Memory>
    ensures { IfOk result (λ o. s.occurs ≡ Some o) }
{
    match s.occurs {
        Some(o) => Ok(o),
        None => Err(Memory),
    }
}

fn made_option(run: &mut Run, s: Symbol) -> Result<Symbol, Stop>
    ensures goes { GoesOnBy 4 run.old run.new }
    ensures means { Means argument result run.old run.new (λ r. give (argument r s)) }
{
    let x = optional(run, s)?;
    let o = occurrence(x)?;
    Ok(Symbol {
        base: x.base,
        occurs: Some(o),
        term: x.term,
    })
}

/// The same argument, as an option where one is asked for. Out of memory too of an option of a set.
pub fn as_asked(run: &mut Run, opt: bool, s: Symbol) -> Result<Symbol, Stop>
    ensures goes { GoesOnBy 4 run.old run.new }
    ensures means { Means argument result run.old run.new (λ r. give (argument r s)) }
{
    if !opt {
        return Ok(s);
    }
    match s.occurs {
        Some(_) => Ok(s),
        None => made_option(run, s),
    }
}

// ---- par values

fn item_value(alloc: Global, i: &Item) -> Result<Value, AllocError>
    ensures { IfOk result (λ v. content v ≡ item_content i.now) }
{
    let same = share_item(i)?;
    same.into_value(alloc)
}

/// The constant of a value, recast where a base is told.
fn value_constant(
    alloc: Global,
    run: &mut Run,
    base: Base,
    cast: Option<Base>,
    i: &Item,
) -> Result<Symbol, Stop>
    ensures goes { GoesOn run.old run.new }
    ensures means { Means symbol_seen result run.old run.new (λ r. give (held r.mode (cast_by cast (Some (item_content i.now))))) }
{
    let v = item_value(alloc, i)?;
    let w = cast_value(cast, v);
    let s = constant(run, base, w)?;
    Ok(s)
}

/// The same, by a shorter way for an integer that isn't recast.
fn item_constant(
    alloc: Global,
    run: &mut Run,
    base: Base,
    cast: Option<Base>,
    i: &Item,
) -> Result<Symbol, Stop>
    ensures goes { GoesOn run.old run.new }
    ensures means { Means symbol_seen result run.old run.new (λ r. give (held r.mode (cast_by cast (Some (item_content i.now))))) }
{
    match cast {
        Some(_) => value_constant(alloc, run, base, cast, i),
        None => match i {
            Item::Int(n) => run.integer(*n),
            _ => value_constant(alloc, run, base, None, i),
        },
    }
}

#[tactic(auto, using(mz_symbol_rows::proofs::GoingOn::goes_both, mz_symbol_rows::proofs::GoingOn::goes_most))]
fn item_symbol(
    alloc: Global,
    run: &mut Run,
    base: Base,
    opt: bool,
    cast: Option<Base>,
    i: &Item,
) -> Result<Symbol, Stop>
    ensures goes { GoesOnBy 4 run.old run.new }
    ensures means { Means argument result run.old run.new (λ r. give (held r.mode (cast_by cast (Some (item_content i.now))))) }
{
    let s = item_constant(alloc, run, base, cast, i)?;
    let x = as_asked(run, opt, s)?;
    Ok(x)
}

fn one_symbol(alloc: Global, run: &mut Run, base: Base, opt: bool, i: &Item) -> Result<Symbol, Stop>
    ensures goes { GoesOnBy 4 run.old run.new }
    ensures means { Means argument result run.old run.new (λ r. give (held r.mode (Some (item_content i.now)))) }
{
    let s = item_symbol(alloc, run, base, opt, None, i)?;
    Ok(s)
}

// ---- var values

fn undefined_cast(
    alloc: Global,
    run: &mut Run,
    base: Base,
    opt: bool,
    cast: Option<Base>,
) -> Result<Symbol, Stop>
    ensures goes { GoesOnBy 8 run.old run.new }
    ensures means { Means argument result run.old run.new (λ r. give (held r.mode (cast_by cast None))) }
{
    match cast {
        None => undefined(alloc, run, base, opt),
        Some(_) => undefined(alloc, run, base, opt),
    }
}

#[tactic(auto, using(mz_symbol_rows::proofs::GoingOn::goes_both))]
fn symbol_cast(
    alloc: Global,
    run: &mut Run,
    base: Base,
    opt: bool,
    cast: Option<Base>,
    s: Symbol,
) -> Result<Symbol, Stop>
    ensures goes { GoesOnBy 8 run.old run.new }
    ensures means { Means argument result run.old run.new (λ r. give (held r.mode (cast_by cast (argued r.term s)))) }
{
    let x = cast_symbol(alloc, run, base, cast, s)?;
    as_asked(run, opt, x)
}

#[tactic(auto, using(mz_symbol_rows::proofs::GoingOn::goes_most))]
fn origin_symbol(
    alloc: Global,
    run: &mut Run,
    base: Base,
    opt: bool,
    cast: Option<Base>,
    o: &Origin,
) -> Result<Symbol, Stop>
    ensures goes { GoesOnBy 8 run.old run.new }
    ensures means { Means argument result run.old run.new (λ r. give (held r.mode (cast_by cast (origin_value r.term o.now)))) }
{
    match o {
        Origin::Nothing => undefined_cast(alloc, run, base, opt, cast),
        Origin::Item(i) => item_symbol(alloc, run, base, opt, cast, i),
        Origin::Symbol(s) => symbol_cast(alloc, run, base, opt, cast, *s),
        Origin::Truth(_, _) => Err(Stop::Memory),
    }
}

/// The symbol of a var value, where it is one of its node's base as it stands, and an option where one
/// is asked for.
fn own_symbol(base: Base, opt: bool, v: &VarValue) -> Option<Symbol>
    ensures { MatchOption result (Unit {0}) (λ s. (t : ℕ → Term) → var_content t v.now ≡ argued t s) }
{
    match v.cast {
        Some(_) => None,
        None => match &v.origin {
            Origin::Symbol(s) => fit_symbol(base, opt, *s),
            _ => None,
        },
    }
}

fn fit_symbol(base: Base, opt: bool, s: Symbol) -> Option<Symbol>
    ensures { MatchOption result (Unit {0}) (λ x. x ≡ s) }
{
    if is_base(s.base, base) && (!opt || s.occurs.is_some()) {
        Some(s)
    } else {
        None
    }
}

fn other_symbol(
    alloc: Global,
    run: &mut Run,
    base: Base,
    opt: bool,
    v: &VarValue,
) -> Result<Symbol, Stop>
    ensures goes { GoesOnBy 8 run.old run.new }
    ensures means { Means argument result run.old run.new (λ r. give (held r.mode (held r.mode (var_content r.term v.now)))) }
{
    let s = origin_symbol(alloc, run, base, opt, v.cast, &v.origin)?;
    Ok(s)
}

#[tactic(auto, using(mz_symbol_rows::proofs::GoingOn::goes_most))]
fn var_symbol(
    alloc: Global,
    run: &mut Run,
    base: Base,
    opt: bool,
    v: &VarValue,
) -> Result<Symbol, Stop>
    ensures goes { GoesOnBy 8 run.old run.new }
    ensures means { Means argument result run.old run.new (λ r. give (held r.mode (held r.mode (var_content r.term v.now)))) }
{
    match own_symbol(base, opt, v) {
        None => other_symbol(alloc, run, base, opt, v),
        Some(s) => Ok(s),
    }
}

/// The symbol of a cell that is no array, as an argument of a row: of a node whose type has this base
/// and is an option where `opt` says so. Of an option it is one, also where the cell holds a value
/// that is there. Of a node without a base of its own it is one of integers, or of sets of them, and
/// becomes one of another base where it surely has no value when it occurs.
///
/// A par value is a constant, and a var value is what its symbol is, or that one recast. What its
/// nodes may cost the caller's work has to pay for. Out of memory too of an array and of a text; of a
/// Boolean that may be undefined; of an option of a set; of an option of a truth value that is recast
/// to an integer, may have a value, and whose node isn't a truth value that is counted or a choice of
/// such; and where a value isn't of the kind that its type says.
#[tactic(auto, using(mz_symbol_rows::proofs::GoingOn::goes_most))]
pub fn symbol_in(
    alloc: Global,
    run: &mut Run,
    base: Base,
    opt: bool,
    k: &Known,
) -> Result<Symbol, Stop>
    ensures goes { GoesOnBy 8 run.old run.new }
    ensures means { Means argument result run.old run.new (λ r. give (cell_value r k.now)) }
{
    let own = symbol_base(base);
    match k {
        Known::Undefined => undefined(alloc, run, own, opt),
        Known::One(i) => one_symbol(alloc, run, own, opt, i),
        Known::Array(_, _) => Err(Stop::Memory),
        Known::Var(v) => var_symbol(alloc, run, own, opt, v),
        Known::Row(_, _) => Err(Stop::Memory),
        Known::Unshaped(_) => Err(Stop::Memory),
    }
}
