// The form of a declaration: its index sets, its set and its value, evaluated in order.

ghost use Rattle.std.specs.Prelude.{[], None, Some, map};
ghost use Rattle.std.specs.Option.{option_map};
ghost use Rattle.mz_core.specs.TreeViews.{tree, decl};
ghost use Rattle.mz_meaning.specs.Contexts.{Positive};
ghost use Rattle.mz_meaning.specs.Evaluation.{eval};
ghost use Rattle.mz_meaning.specs.Runs.{loop};
ghost use Rattle.mz_meaning.specs.Walk as walk;
ghost use Rattle.mz_meaning.specs.Walk.{levels};
ghost use Rattle.mz_symbol.specs.Makes.{GoesOn, Means};
ghost use Rattle.mz_model_names.specs.Formed.{wanted, wants_of, form_seen};
ghost use Rattle.mz_eval_scopes.specs.Seen.{world_seen};
ghost use Rattle.mz_model_state.specs.Forms as forms;

use crate::evaluation::expanded;
use mz_base::Stop;
use mz_core::{Core, CoreDecl};
use mz_eval::{counted, declared_weight, place_of};
use mz_eval_cells::undefined;
use mz_eval_scopes::World;
use mz_model_names::{Form, Want, defined_index, defined_set, fitted, free_form, valued_form};
use mz_symbol::Run;
use std::alloc::Global;

fn index_want(alloc: Global, world: &World, e: &Option<Core>, run: &mut Run) -> Result<Want, Stop>
    ensures goes { GoesOn run.old run.new }
    ensures means { Means (λ _. wanted) result run.old run.new
        (λ r. walk.set_want (eval (world_seen r world.now) levels) Positive walk.defined_index (option_map tree e.now) (world_seen r world.now).top) }
{
    match e {
        None => Ok(Want::Anything),
        Some(x) => {
            let c = expanded(alloc, world, x, run)?;
            defined_index(alloc, place_of(x), &c)
        }
    }
}

fn index_wants(
    alloc: Global,
    world: &World,
    all: &[Option<Core>],
    run: &mut Run,
) -> Result<Vec<Want>, Stop>
    ensures goes { GoesOn run.old run.new }
    ensures means { Means (λ _ v. wants_of v.items) result run.old run.new
        (λ r. loop (walk.one_index (eval (world_seen r world.now) levels) Positive (world_seen r world.now).top) [] (map (option_map tree) all.now)) }
{
    let mut wants = Vec::new(alloc);
    for e in all {
        let w = index_want(alloc, world, e, run)?;
        wants.push(w)?;
    }
    Ok(wants)
}

fn set_want(alloc: Global, world: &World, e: &Option<Core>, run: &mut Run) -> Result<Want, Stop>
    ensures goes { GoesOn run.old run.new }
    ensures means { Means (λ _. wanted) result run.old run.new
        (λ r. walk.set_want (eval (world_seen r world.now) levels) Positive walk.defined_set (option_map tree e.now) (world_seen r world.now).top) }
{
    match e {
        None => Ok(Want::Anything),
        Some(x) => {
            let c = expanded(alloc, world, x, run)?;
            defined_set(alloc, place_of(x), &c)
        }
    }
}

fn free(
    alloc: Global,
    world: &World,
    d: &CoreDecl,
    ws: &[Want],
    w: &Want,
    run: &mut Run,
) -> Result<Form, Stop>
    ensures goes { GoesOn run.old run.new }
    ensures means { Means (form_seen (decl d.now).ty.ty) result run.old run.new
        (λ r. forms.value_form (world_seen r world.now) (eval (world_seen r world.now) levels) Positive (decl d.now)
        (wants_of ws.now) (wanted w.now) (world_seen r world.now).top None) }
{
    let none = undefined();
    counted(alloc, world, d.span, ws, &none, run)?;
    let f = free_form(alloc, &world.int_range, &d.ty.ty, ws, w)?;
    Ok(f)
}

fn valued(
    alloc: Global,
    world: &World,
    d: &CoreDecl,
    ws: &[Want],
    w: &Want,
    e: &Core,
    run: &mut Run,
) -> Result<Form, Stop>
    ensures goes { GoesOn run.old run.new }
    ensures means { Means (form_seen (decl d.now).ty.ty) result run.old run.new
        (λ r. forms.value_form (world_seen r world.now) (eval (world_seen r world.now) levels) Positive (decl d.now)
        (wants_of ws.now) (wanted w.now) (world_seen r world.now).top (Some (tree e.now))) }
{
    let c = expanded(alloc, world, e, run)?;
    counted(alloc, world, d.span, ws, &c, run)?;
    let f = fitted(alloc, place_of(e), ws, c)?;
    valued_form(alloc, place_of(e), &d.ty.ty, ws, w, f)
}

fn by_value(
    alloc: Global,
    world: &World,
    d: &CoreDecl,
    ws: &[Want],
    w: &Want,
    run: &mut Run,
) -> Result<Form, Stop>
    ensures goes { GoesOn run.old run.new }
    ensures means { Means (form_seen (decl d.now).ty.ty) result run.old run.new
        (λ r. forms.value_form (world_seen r world.now) (eval (world_seen r world.now) levels) Positive (decl d.now)
        (wants_of ws.now) (wanted w.now) (world_seen r world.now).top (decl d.now).value) }
{
    match &d.value {
        None => free(alloc, world, d, ws, w, run),
        Some(e) => valued(alloc, world, d, ws, w, e, run),
    }
}

/// The form of a declaration: its weight, its index sets, its set and its value, in order. What the
/// weight pays for is saved, for the nodes of the name.
pub(crate) fn form_of(
    alloc: Global,
    world: &World,
    d: &CoreDecl,
    run: &mut Run,
) -> Result<Form, Stop>
    ensures goes { GoesOn run.old run.new }
    ensures means { Means (form_seen (decl d.now).ty.ty) result run.old run.new
        (λ r. forms.form_in (world_seen r world.now) (eval (world_seen r world.now) levels) Positive (decl d.now) (world_seen r world.now).top) }
{
    declared_weight(run)?;
    let ws = index_wants(alloc, world, &d.ty.index, run)?;
    let w = set_want(alloc, world, &d.ty.set, run)?;
    by_value(alloc, world, d, &ws, &w, run)
}
