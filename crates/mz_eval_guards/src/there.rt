// Whether cells have values.

ghost use Rattle.std.specs.Prelude.{◌≡◌, IfOk, Some, false, is_some};
ghost use Rattle.mz_arena.specs.Values.{as_set, is_true};
ghost use Rattle.mz_meaning.specs.Cells as cells;
ghost use Rattle.mz_meaning.specs.Cells.{is_there};
ghost use Rattle.mz_symbol.specs.Makes.{GoesOnBy};
ghost use Rattle.glob_nodes.specs.Says.{Tells, num};
ghost use Rattle.mz_eval_cells.specs.declared.types.Origin.TheVariants as origin;
ghost use Rattle.mz_eval_cells.specs.Views.{origin_value, origins_value, seen, var_content};
ghost use Rattle.mz_eval_guards.specs.Guards.{IsGuard, open_sure};
ghost use Rattle.mz_eval_guards.specs.There.{plain_there, there_by, value_there};

use crate::joining::never;
use crate::types::Guard;
use glob_nodes::{Compare, Join, compared, joined, made, negated, truth};
use mz_arena::{Id, NodeKind};
use mz_base::Memory;
use mz_core::Base;
use mz_eval_cells::{Known, Origin, Origins, VarValue};
use mz_eval_symbols::defined;
use mz_symbol::{Run, Symbol};

// ---- symbols

fn set_there(run: &mut Run, x: Id) -> Result<Id, Memory>
    ensures goes { GoesOnBy 6 run.old run.new }
    ensures tells { IfOk result (Tells run.old run.new (λ r. is_some (as_set (r.term x)))) }
{
    let id = made(run, NodeKind::SetEq, x, x)?;
    Ok(id)
}

#[tactic(auto, using(crate::proofs::ThereLaws::number_tells))]
pub(crate) fn number_there(run: &mut Run, x: Id) -> Result<Id, Memory>
    ensures goes { GoesOnBy 6 run.old run.new }
    ensures tells { IfOk result (Tells run.old run.new (λ r. is_some (num r x))) }
{
    let id = compared(run, Compare::Equal, x, x)?;
    Ok(id)
}

/// Whether the value of a base that a node stands for is there. Out of memory too of a Boolean's node.
fn value_there(run: &mut Run, base: Base, x: Id) -> Result<Id, Memory>
    ensures goes { GoesOnBy 6 run.old run.new }
    ensures tells { IfOk result (Tells run.old run.new (λ r. value_there base (r.term x))) }
{
    match base {
        Base::SetInt => set_there(run, x),
        Base::SetEnum(_) => set_there(run, x),
        _ => number_there(run, x),
    }
}

/// A truth value that is there.
#[tactic(auto, using(crate::proofs::Joined::tells_of))]
pub(crate) fn always(run: &mut Run, is: bool) -> Result<Id, Memory>
    ensures goes { GoesOnBy 0 run.old run.new }
    ensures tells { IfOk result (Tells run.old run.new (λ _. is)) }
{
    let id = truth(run, is)?;
    Ok(id)
}

#[tactic(auto, using(mz_symbol_rows::proofs::GoingOn::goes_most))]
fn plain_there(run: &mut Run, base: Base, x: Id) -> Result<Id, Memory>
    ensures goes { GoesOnBy 6 run.old run.new }
    ensures tells { IfOk result (Tells run.old run.new (λ r. plain_there base (r.term x))) }
{
    match base {
        Base::Bool => always(run, true),
        _ => value_there(run, base, x),
    }
}

#[tactic(auto, using(mz_symbol_rows::proofs::GoingOn::goes_both, mz_symbol_rows::proofs::GoingOn::goes_most, crate::proofs::ThereLaws::option_tells))]
fn option_there(run: &mut Run, base: Base, o: Id, x: Id) -> Result<Id, Memory>
    ensures goes { GoesOnBy 18 run.old run.new }
    ensures tells { IfOk result (Tells run.old run.new (λ r. there_by base (Some o) r.term x)) }
{
    let there = value_there(run, base, x)?;
    let none = negated(run, o)?;
    let id = joined(run, Join::Either, none, there)?;
    Ok(id)
}

/// Whether what a symbol stands for is there. A Boolean that is no option is, and what is absent is.
#[tactic(auto, using(mz_symbol_rows::proofs::GoingOn::goes_most))]
fn symbol_there(run: &mut Run, base: Base, occurs: Option<Id>, x: Id) -> Result<Id, Memory>
    ensures goes { GoesOnBy 18 run.old run.new }
    ensures tells { IfOk result (Tells run.old run.new (λ r. there_by base occurs r.term x)) }
{
    match occurs {
        None => plain_there(run, base, x),
        Some(o) => option_there(run, base, o, x),
    }
}

// ---- what tells the values of var cells

fn symbol_valued(run: &mut Run, s: Symbol) -> Result<Id, Memory>
    ensures goes { GoesOnBy 18 run.old run.new }
    ensures tells { IfOk result (Tells run.old run.new (λ r. is_there (origin_value r.term (origin.Symbol s)))) }
{
    let id = symbol_there(run, s.base, s.occurs, s.term)?;
    Ok(id)
}

#[tactic(auto, using(mz_symbol_rows::proofs::GoingOn::goes_most, crate::proofs::ThereLaws::truth_tells))]
fn truth_valued(run: &mut Run, yes: Id, defined: Id) -> Result<Id, Memory>
    ensures goes { GoesOnBy 18 run.old run.new }
    ensures tells { IfOk result (Tells run.old run.new (λ r. is_there (origin_value r.term (origin.Truth yes defined)))) }
{
    let id = joined(run, Join::Either, yes, defined)?;
    Ok(id)
}

#[tactic(auto, using(mz_symbol_rows::proofs::GoingOn::goes_most))]
fn origin_valued(run: &mut Run, o: &Origin) -> Result<Id, Memory>
    ensures goes { GoesOnBy 18 run.old run.new }
    ensures tells { IfOk result (Tells run.old run.new (λ r. is_there (origin_value r.term o.now))) }
{
    match o {
        Origin::Nothing => always(run, false),
        Origin::Item(_) => always(run, true),
        Origin::Symbol(s) => symbol_valued(run, *s),
        Origin::Truth(yes, defined) => truth_valued(run, *yes, *defined),
    }
}

#[tactic(auto, using(crate::proofs::ThereLaws::line_tells, crate::proofs::Joined::goes_none))]
fn line_valued(run: &mut Run, line: u64) -> Result<Id, Memory>
    ensures goes { GoesOnBy 0 run.old run.new }
    ensures tells { IfOk result (Tells run.old run.new (λ r. is_there (r.line line))) }
{
    let found = defined(run, line)?;
    Ok(found.0)
}

fn origins_valued(run: &mut Run, o: &Origins) -> Result<Id, Memory>
    ensures goes { GoesOnBy 0 run.old run.new }
    ensures tells { IfOk result (Tells run.old run.new (λ r. is_there (origins_value r.line o.now))) }
{
    match o {
        Origins::Nothing => always(run, false),
        Origins::Values(_) => always(run, true),
        Origins::Line(line) => line_valued(run, *line),
    }
}

// ---- cells

fn var_there(run: &mut Run, v: &VarValue) -> Result<Guard, Memory>
    ensures goes { GoesOnBy 18 run.old run.new }
    ensures guards { IfOk result (IsGuard run.old run.new (λ r. open_sure r.mode (is_there (var_content r.term v.now)))) }
{
    let id = origin_valued(run, &v.origin)?;
    Ok(Guard::Open(id))
}

#[tactic(auto, using(crate::proofs::ThereLaws::row_guards, mz_symbol_rows::proofs::GoingOn::goes_most))]
fn row_there(run: &mut Run, o: &Origins) -> Result<Guard, Memory>
    ensures goes { GoesOnBy 18 run.old run.new }
    ensures guards { IfOk result (IsGuard run.old run.new (λ r. open_sure r.mode (is_there (origins_value r.line o.now)))) }
{
    let id = origins_valued(run, o)?;
    Ok(Guard::Open(id))
}

/// Whether a cell has a value: par where the cell is.
///
/// What the nodes may cost the caller's work has to pay for. Out of memory too of a symbol whose value
/// can't be asked, as an option of a truth value by its Boolean node.
#[tactic(auto, using(mz_symbol_rows::proofs::GoingOn::goes_most, crate::proofs::ThereLaws::var_cell, crate::proofs::ThereLaws::row_cell))]
pub fn there_in(run: &mut Run, k: &Known) -> Result<Guard, Memory>
    ensures goes { GoesOnBy 18 run.old run.new }
    ensures guards { IfOk result (IsGuard run.old run.new (λ r. cells.there (seen r k.now))) }
{
    match k {
        Known::Undefined => Ok(Guard::Par(false)),
        Known::One(_) => Ok(Guard::Par(true)),
        Known::Array(_, _) => Ok(Guard::Par(true)),
        Known::Var(v) => var_there(run, v),
        Known::Row(_, xs) => row_there(run, &xs.origins),
        Known::Unshaped(_) => never(run),
    }
}
