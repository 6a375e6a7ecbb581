// The top-level names of a program, with the values of its par names.

ghost use Rattle.std.specs.Prelude.{◌≡◌, ◌<◌, List, IfOk, MatchOption, None, Some, false, length, map, slice_get, true};
ghost use Rattle.mz_core.specs.Program.{plain_program};
ghost use Rattle.mz_core.specs.TreeViews.{decl};
ghost use Rattle.mz_core.specs.Types.{plain_type};
ghost use Rattle.mz_arena.specs.Instances.{ParValue as PlainPar, par_value};
ghost use Rattle.mz_meaning.specs.Walk.{ordered};
ghost use Rattle.mz_print.specs.Names.{top_names};
ghost use Rattle.mz_print_model.specs.Names.{names_with};
ghost use Rattle.mz_print_model.specs.StepsNames.{IsNextAt, IsNextName};

use mz_arena::ParValue;
use mz_base::Memory;
use mz_core::{CoreDecl, Program, TypeInst};
use mz_eval_cells::copied_cell;
use mz_print::TopName;
use std::alloc::Global;

#[tactic(auto, unfolding(mz_core::specs::Types::plain_type))]
fn is_var(t: &TypeInst) -> bool
    ensures { result ≡ (plain_type t.now).var }
{
    t.var
}

fn is_var_name(d: &CoreDecl) -> bool
    ensures { result ≡ (decl d.now).ty.ty.var }
{
    is_var(&d.ty.ty)
}

fn slot_of(d: &CoreDecl) -> u64
    ensures { result ≡ (decl d.now).slot }
{
    d.slot
}

/// Adds the name of a decision variable, and gives the same place.
fn add_var(d: &CoreDecl, at: usize, names: &mut Vec<TopName>) -> Result<usize, Memory>
    requires { (decl d.now).ty.ty.var ≡ true }
    ensures { IfOk result (λ next. (vs : List PlainPar) → IsNextName (decl d.now) vs at (top_names names.old.items) next (top_names names.new.items)) }
{
    names.push(TopName {
        slot: slot_of(d),
        fixed: None,
    })?;
    Ok(at)
}

/// Adds the name of a par declaration with the value at this place, and gives the next place.
fn add_par(
    alloc: Global,
    d: &CoreDecl,
    pars: &[ParValue],
    at: usize,
    names: &mut Vec<TopName>,
) -> Result<usize, Memory>
    requires var { (decl d.now).ty.ty.var ≡ false }
    requires there { at < length pars.now }
    ensures { IfOk result (λ next. IsNextName (decl d.now) (map par_value pars.now) at (top_names names.old.items) next (top_names names.new.items)) }
{
    let cell = copied_cell(alloc, &pars[at].value)?;
    names.push(TopName {
        slot: slot_of(d),
        fixed: Some(cell),
    })?;
    Ok(at + 1)
}

/// Adds the name of a declaration, and gives the place of the next value. Out of memory too where it is par and has no value,
/// which no walk comes to.
fn add_decl(
    alloc: Global,
    d: &CoreDecl,
    pars: &[ParValue],
    at: usize,
    names: &mut Vec<TopName>,
) -> Result<usize, Memory>
    ensures { IfOk result (λ next. IsNextName (decl d.now) (map par_value pars.now) at (top_names names.old.items) next (top_names names.new.items)) }
{
    if is_var_name(d) {
        return add_var(d, at, names);
    }
    if at < pars.len() {
        return add_par(alloc, d, pars, at, names);
    }
    Err(Memory)
}

fn decl_in(decls: &[CoreDecl], k: u64) -> Option<&CoreDecl>
    ensures { MatchOption result (slice_get decls.now k ≡ None) (λ d. slice_get decls.now k ≡ Some d.now) }
{
    decls.get(k as usize)
}

/// The same of the declaration with this number, if there is one.
#[tactic(auto, using(crate::proofs::Named::no_number, crate::proofs::Named::this_number))]
fn add_number(
    alloc: Global,
    decls: &[CoreDecl],
    k: u64,
    pars: &[ParValue],
    at: usize,
    names: &mut Vec<TopName>,
) -> Result<usize, Memory>
    ensures { IfOk result (λ next. IsNextAt (map decl decls.now) (map par_value pars.now) k at (top_names names.old.items) next (top_names names.new.items)) }
{
    match decl_in(decls, k) {
        None => Ok(at),
        Some(d) => add_decl(alloc, d, pars, at, names),
    }
}

/// The names of the declarations with these numbers.
#[tactic(auto, using(crate::proofs::Named::names_start, crate::proofs::Named::names_step))]
fn names_in(
    alloc: Global,
    decls: &[CoreDecl],
    all: &[u64],
    pars: &[ParValue],
) -> Result<Vec<TopName>, Memory>
    ensures { IfOk result (λ names. names_with (ordered (map decl decls.now) all.now) (map par_value pars.now) ≡ Some (top_names names.items)) }
{
    let mut names = Vec::new(alloc);
    let mut at = 0;
    for k in all {
        at = add_number(alloc, decls, *k, pars, at, &mut names)?;
    }
    if at == pars.len() {
        Ok(names)
    } else {
        Err(Memory)
    }
}

/// The names of all declarations, in the order of evaluation, with these values of the par names among them. Out of memory too
/// where there aren't as many values, which no walk comes to.
#[tactic(auto, unfolding(mz_core::specs::Program::plain_program))]
pub(crate) fn top_names(
    alloc: Global,
    program: &Program,
    pars: &[ParValue],
) -> Result<Vec<TopName>, Memory>
    ensures { IfOk result (λ names. names_with (ordered (plain_program program.now).decls (plain_program program.now).order) (map par_value pars.now) ≡ Some (top_names names.items)) }
{
    names_in(alloc, &program.decls, &program.order, pars)
}
