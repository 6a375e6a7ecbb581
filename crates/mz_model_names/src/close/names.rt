// What is made of names, one after the other.

ghost use Rattle.std.specs.Prelude.{◌≡◌, ◌++◌, ◌∷◌, [], IfOk, map};
ghost use Rattle.mz_arena.specs.Instances.{par_value};
ghost use Rattle.mz_model_meaning.specs.Modeled.{cell_par};
ghost use Rattle.mz_symbol.specs.Readings.{Reading};
ghost use Rattle.mz_eval_cells.specs.Views.{seen};
ghost use Rattle.mz_model_names.specs.Named.{held_name};
ghost use Rattle.mz_model_names.specs.Closed.{AreTakenOf, IsNextTaken, OneMoreTaken};

use crate::close::types::Taken;
use crate::close::variables::{many_var, one_var};
use crate::{HeldName, Kind, Label};
use mz_arena::{Id, ModelVar, ParValue};
use mz_base::Memory;
use mz_eval_cells::Known;
use std::alloc::Global;

fn nothing_taken(alloc: Global) -> Taken
    ensures { AreTakenOf [] result }
{
    Taken {
        vars: Vec::new(alloc),
        roots: Vec::new(alloc),
        pars: Vec::new(alloc),
    }
}

pub(crate) fn with_roots(all: Vec<Id>, more: &[Id]) -> Result<Vec<Id>, Memory>
    ensures { IfOk result (λ v. v.items ≡ all.items ++ more.now) }
{
    let mut both = all;
    both.extend_from_slice(more)?;
    Ok(both)
}

/// The value of a par name more, where it is there.
#[tactic(auto, using(crate::proofs::NameLaws::no_par, crate::proofs::NameLaws::one_par))]
fn with_par(
    alloc: Global,
    all: Vec<ParValue>,
    slot: u64,
    cell: Known,
) -> Result<Vec<ParValue>, Memory>
    ensures { IfOk result (λ v. (r : Reading) → map par_value v.items ≡ map par_value all.items ++ cell_par slot (seen r cell)) }
{
    match cell.into_value(alloc)? {
        None => Ok(all),
        Some(value) => {
            let mut more = all;
            more.push(ParValue { slot, value })?;
            Ok(more)
        }
    }
}

fn with_var(all: Vec<ModelVar>, m: ModelVar) -> Result<Vec<ModelVar>, Memory>
    ensures { IfOk result (λ v. v.items ≡ all.items ++ m ∷ []) }
{
    let mut more = all;
    more.push(m)?;
    Ok(more)
}

/// What is made of one name, but for its roots.
fn with_kind(
    alloc: Global,
    label: Label,
    kind: Kind,
    cell: Known,
    vars: Vec<ModelVar>,
    pars: Vec<ParValue>,
) -> Result<(Vec<ModelVar>, Vec<ParValue>), Memory>
    ensures { IfOk result (IsNextTaken label kind cell vars pars) }
{
    match kind {
        Kind::Par => {
            let more = with_par(alloc, pars, label.slot, cell)?;
            Ok((vars, more))
        }
        Kind::One(f) => {
            let m = one_var(alloc, label, f)?;
            let more = with_var(vars, m)?;
            Ok((more, pars))
        }
        Kind::Many(index, places) => {
            let m = many_var(alloc, label, index, places)?;
            let more = with_var(vars, m)?;
            Ok((more, pars))
        }
    }
}

/// One name more.
fn with_name(alloc: Global, t: Taken, h: HeldName) -> Result<Taken, Memory>
    ensures { IfOk result (OneMoreTaken (held_name h) t) }
{
    let HeldName {
        label,
        kind,
        cell,
        value: _value,
        roots,
    } = h;
    let Taken {
        vars,
        roots: so_far,
        pars,
    } = t;
    let all = with_roots(so_far, &roots)?;
    let p = with_kind(alloc, label, kind, cell, vars, pars)?;
    Ok(Taken {
        vars: p.0,
        roots: all,
        pars: p.1,
    })
}

/// What is made of names, in order. Places and values are moved; a value that another cell holds too
/// is copied.
///
/// Out of memory too where a name's places don't fit its label. No walk comes to that.
pub(crate) fn taken(alloc: Global, names: Vec<HeldName>) -> Result<Taken, Memory>
    ensures { IfOk result (AreTakenOf (map held_name names.items)) }
{
    let mut all = nothing_taken(alloc);
    for h in names {
        all = with_name(alloc, all, h)?;
    }
    Ok(all)
}
