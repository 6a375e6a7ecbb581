// The declarations, in the order of evaluation: each gives the next name in hand.

ghost use Rattle.std.specs.Prelude.{◌≡◌, ◌++◌, ◌∷◌, [], IfOk, false, length};
ghost use Rattle.mz_core.specs.TreeViews.{decl};
ghost use Rattle.mz_eval_scopes.specs.Seen.{world_seen};
ghost use Rattle.mz_symbol.specs.Readings.{Reading};
ghost use Rattle.mz_model_state.specs.Loops.{world_after};
ghost use Rattle.mz_model_names.specs.Named.{IsNameOver, held_name};
ghost use Rattle.mz_model.specs.Walks.{AreReadable, DeclarationEnds, FormEnds, IsAdded, NumberEnds, limits_of, names_of, program_of};
ghost use Rattle.mz_model.specs.Loops.{NumbersEnd};

use crate::forms::form_of;
use crate::types::{Names, Task};
use mz_base::{Memory, Stop};
use mz_core::CoreDecl;
use mz_eval_cells::share;
use mz_eval_scopes::World;
use mz_model_names::{Form, HeldName, Kind, held};
use mz_model_state::{names_are_added, walks_are_closed, walks_go_on};
use mz_symbol::{Free, Run};
use std::alloc::Global;

/// The world in which these names are declared.
pub(crate) fn world_in<'a>(task: &'a Task<'a>, names: &'a Names) -> World<'a>
    requires { AreReadable names.now }
    ensures { (r : Reading) → world_seen r result ≡ world_after (limits_of task.now) (program_of task.now) r (names_of names.now) }
{
    World {
        program: task.program,
        env: &names.env,
        budget: task.budget,
        int_range: task.int_range,
    }
}

/// The form of the next declaration.
fn next_form(
    alloc: Global,
    task: &Task,
    names: &Names,
    d: &CoreDecl,
    run: &mut Run,
) -> Result<Form, Stop>
    requires { AreReadable names.now }
    ensures { FormEnds task.now run.old run.new (names_of names.now) (decl d.now) result }
{
    let world = world_in(&*task, &*names);
    form_of(alloc, &world, d, run)
}

/// How many parts a place has.
fn parts_of(f: &Free) -> u64 {
    match f.symbol.occurs {
        None => 1,
        Some(_) => 2,
    }
}

/// How many parts these names have with one more. Out of memory too where they are 2^64 or more.
fn with_parts(number: u64, h: &HeldName) -> Result<u64, Memory> {
    match &h.kind {
        Kind::Par => Ok(number),
        Kind::One(f) => number.checked_add(parts_of(f)).ok_or(Memory),
        Kind::Many(_, fs) => match fs.first() {
            None => Ok(number),
            Some(f) => {
                let all = (fs.len() as u64).checked_mul(parts_of(f)).ok_or(Memory)?;
                number.checked_add(all).ok_or(Memory)
            }
        },
    }
}

/// One more name in hand, whose slot is the next.
fn with_name(names: &mut Names, h: HeldName) -> Result<(), Memory>
    requires readable { AreReadable names.old }
    requires next { h.label.slot ≡ length names.old.list.items }
    ensures names { IfOk result (λ _. names_of names.new ≡ names_of names.old ++ held_name h ∷ []) }
    ensures readable { IfOk result (λ _. AreReadable names.new) }
{
    let cell = share(&h.cell)?;
    let parts = with_parts(names.parts, &h)?;
    names.env.set_cell(h.label.slot, cell)?;
    names.list.push(h)?;
    names.parts = parts;
    Ok(())
}

/// The name of a declaration of this form, where the names so far have this number of parts.
fn named(
    alloc: Global,
    number: u64,
    d: &CoreDecl,
    form: Form,
    run: &mut Run,
) -> Result<HeldName, Memory>
    ensures slot { IfOk result (λ h. h.label.slot ≡ (decl d.now).slot) }
    ensures name { IfOk result (λ h. IsNameOver (decl d.now).ty.ty form run.old run.new (held_name h)) }
{
    let h = held(alloc, run, number, d.slot, d.name, &d.ty.ty, form)?;
    Ok(h)
}

/// The name of a declaration of this form, whose slot is the next.
fn add_name(
    alloc: Global,
    names: &mut Names,
    d: &CoreDecl,
    form: Form,
    run: &mut Run,
) -> Result<(), Memory>
    requires readable { AreReadable names.old }
    requires next { (decl d.now).slot ≡ length names.old.list.items }
    ensures added { IfOk result (λ _. IsAdded run.old run.new (names_of names.old) (names_of names.new) (decl d.now) form) }
    ensures readable { IfOk result (λ _. AreReadable names.new) }
{
    let h = named(alloc, names.parts, d, form, run)?;
    with_name(names, h)?;
    Ok(())
}

/// Whether the slot of a declaration isn't the next.
fn is_other(names: &Names, d: &CoreDecl) -> bool
    ensures { result ≡ false → (decl d.now).slot ≡ length names.now.list.items }
{
    d.slot != names.list.len() as u64
}

/// One more declaration: its sets and its value are evaluated, and its name is made.
///
/// Refused where the evaluation is; out of memory too where its slot isn't the next.
fn declare_next(
    alloc: Global,
    task: &Task,
    names: &mut Names,
    d: &CoreDecl,
    run: &mut Run,
) -> Result<(), Stop>
    requires { AreReadable names.old }
    ensures ends { DeclarationEnds task.now run.old run.new (names_of names.old) (names_of names.new) (decl d.now) result }
    ensures readable { IfOk result (λ _. AreReadable names.new) }
{
    names_are_added();
    walks_go_on();
    walks_are_closed();
    if is_other(&*names, d) {
        return Err(Stop::Memory);
    }
    let form = next_form(alloc, task, names, d, run)?;
    let Ok(()) = add_name(alloc, names, d, form, run) else {
        return Err(Stop::Memory);
    };
    Ok(())
}

/// The declaration with this number, where there is one.
fn declare_at(
    alloc: Global,
    task: &Task,
    names: &mut Names,
    k: u64,
    run: &mut Run,
) -> Result<(), Stop>
    requires { AreReadable names.old }
    ensures ends { NumberEnds task.now run.old run.new (names_of names.old) (names_of names.new) k result }
    ensures readable { IfOk result (λ _. AreReadable names.new) }
{
    match task.program.decls.get(k as usize) {
        None => Ok(()),
        Some(d) => declare_next(alloc, task, names, d, run),
    }
}

/// The declarations with these numbers, in this order.
#[tactic(auto, using(crate::proofs::Declared::to_come, crate::proofs::Declared::none_yet))]
pub(crate) fn declare_each(
    alloc: Global,
    task: &Task,
    names: &mut Names,
    all: &[u64],
    run: &mut Run,
) -> Result<(), Stop>
    requires { AreReadable names.old }
    ensures ends { NumbersEnd task.now run.old run.new (names_of names.old) (names_of names.new) all.now result }
    ensures readable { IfOk result (λ _. AreReadable names.new) }
{
    for k in all {
        declare_at(alloc, task, names, *k, run)?;
    }
    Ok(())
}
