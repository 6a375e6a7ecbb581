// The variables of an instance, made of the places of names.

ghost use Rattle.std.specs.Prelude.{◌≡◌, false, IfOk, is_some, map, true};
ghost use Rattle.mz_arena.specs.Instances.{model_var};
ghost use Rattle.mz_instance.specs.Parts.{is_subset_sort, sort_of};
ghost use Rattle.mz_symbol.specs.Symbols.{domain_of};
ghost use Rattle.mz_model_state.specs.Hands.{OnePlace, ManyPlaces};
ghost use Rattle.mz_model_state.specs.Vars.{AreOver};
ghost use Rattle.mz_model_names.specs.Closed.{IsVarFor};
ghost use Rattle.mz_model_names.specs.StepsVars.{each_over, is_over, same_truth};

use crate::Label;
use crate::close::index::is_index;
use mz_arena::ModelVar;
use mz_base::Memory;
use mz_core::Base;
use mz_model_state::{var_over, vars_are_made};
use mz_symbol::Free;
use std::alloc::Global;

fn same_truth(a: bool, b: bool) -> bool
    ensures { result ≡ same_truth a b }
{
    match a {
        true => b,
        false => !b,
    }
}

fn is_over(base: Base, opt: bool, f: &Free) -> bool
    ensures { result ≡ is_over base opt f.now }
{
    f.symbol.base == base && same_truth(f.symbol.occurs.is_some(), opt)
}

fn each_over(base: Base, opt: bool, places: &[Free]) -> bool
    ensures { result ≡ each_over base opt places.now }
{
    places.iter().all(|f| is_over(base, opt, f))
}

/// Whether places are of a base, and options where this is told.
#[tactic(auto, using(crate::proofs::VarLaws::all_over))]
fn are_over(base: Base, opt: bool, places: &[Free]) -> bool
    ensures { result ≡ true → AreOver base opt (map domain_of places.now) }
{
    each_over(base, opt, places)
}

/// Whether a variable may be an option: not of a set.
fn allows(base: Base, opt: bool) -> bool
    ensures { result ≡ true → opt ≡ true → is_subset_sort (sort_of base) ≡ false }
{
    match base {
        Base::SetInt => !opt,
        Base::SetEnum(_) => !opt,
        _ => true,
    }
}

/// The variable over one place; out of memory too where the place isn't of the label's base.
#[tactic(auto, using(crate::proofs::VarLaws::one_for))]
pub(crate) fn one_var(alloc: Global, label: Label, f: Free) -> Result<ModelVar, Memory>
    ensures { IfOk result (λ m. IsVarFor (OnePlace f) (model_var m)) }
{
    vars_are_made();
    if !allows(label.base, label.opt) {
        return Err(Memory);
    }
    let mut places = Vec::new(alloc);
    places.push(f)?;
    if !are_over(label.base, label.opt, &places) {
        return Err(Memory);
    }
    let m = var_over(alloc, label.name, label.base, label.opt, None, places)?;
    Ok(m)
}

/// The variable over the places of an array; out of memory too where a place isn't of the label's
/// base, and where the index ranges aren't those of the places.
#[tactic(auto, using(crate::proofs::VarLaws::many_for))]
pub(crate) fn many_var(
    alloc: Global,
    label: Label,
    index: Vec<(i64, i64)>,
    places: Vec<Free>,
) -> Result<ModelVar, Memory>
    ensures { IfOk result (λ m. IsVarFor (ManyPlaces index.items places.items) (model_var m)) }
{
    vars_are_made();
    if !allows(label.base, label.opt) {
        return Err(Memory);
    }
    if !are_over(label.base, label.opt, &places) {
        return Err(Memory);
    }
    if !is_index(&index, &places) {
        return Err(Memory);
    }
    let m = var_over(
        alloc,
        label.name,
        label.base,
        label.opt,
        Some(index),
        places,
    )?;
    Ok(m)
}
