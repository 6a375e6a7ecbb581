// How many roots a written conjunction has. Nothing is promised of it: the number only tells how the
// node of a constraint is taken apart.

use crate::evaluation::expanded;
use mz_base::Memory;
use mz_core::{Core, CoreForm, CoreStep};
use mz_eval_cells::{Item, Known, bounds_in, share, var_cell};
use mz_eval_scopes::{Env, Scope, World, seek};
use mz_operations::{Connective, Row, ScalarRow, row_of};
use mz_symbol::Run;
use std::alloc::{AllocError, Global};

fn is_conjunction(number: u32) -> bool {
    match row_of(number) {
        Some(Row::Scalar(ScalarRow::Logic(Connective::And))) => true,
        _ => false,
    }
}

/// Whether the operators of a chain, which are of one level, are conjunctions.
fn are_conjunctions(all: &[CoreStep]) -> bool {
    match all {
        [] => false,
        [s, ..] => is_conjunction(s.row),
    }
}

/// Whether a cell is false or undefined whatever values there are.
fn is_unmet(k: &Known) -> bool {
    match k {
        Known::Undefined => true,
        Known::One(Item::Bool(b)) => !*b,
        _ => false,
    }
}

/// A name's cell without what tells a variable's value.
fn untold(alloc: Global, k: &Known) -> Result<Known, AllocError> {
    match k {
        Known::Var(_) | Known::Row(_, _) => var_cell(alloc, bounds_in(alloc, k)?),
        _ => share(k),
    }
}

/// The cells of so many names without what tells their values, so that an evaluation over them makes
/// none of their nodes.
fn untold_names(alloc: Global, world: &World, count: u64) -> Result<Env, Memory> {
    let mut env = Env::new(alloc);
    let top = Scope::Top;
    for slot in 0..count {
        if let Some(k) = seek(world, &top, slot) {
            env.set_cell(slot, untold(alloc, k)?)?;
        }
    }
    Ok(env)
}

/// 1 for an expression that is par and isn't true. It is evaluated by itself, and its work isn't counted.
fn one_unmet(alloc: Global, world: &World, e: &Core) -> u64 {
    let mut apart = Run::new(alloc);
    match expanded(alloc, world, e, &mut apart) {
        Ok(k) => is_unmet(&k) as u64,
        Err(_) => 0,
    }
}

/// How many of the operands of a conjunction, and of the conjunctions among these, are par and not true.
#[cycle(unmet)]
fn unmet_count(alloc: Global, world: &World, e: &Core) -> u64 {
    match &e.form {
        CoreForm::Coerce(_, part) => unmet_count(alloc, world, part),
        CoreForm::Chain(first, all) => {
            if !are_conjunctions(all.as_slice()) {
                return one_unmet(alloc, world, e);
            }
            let before = unmet_count(alloc, world, first);
            unmet_among(alloc, world, all.as_slice()).saturating_add(before)
        }
        _ => one_unmet(alloc, world, e),
    }
}

#[cycle(unmet)]
fn unmet_among(alloc: Global, world: &World, all: &[CoreStep]) -> u64 {
    let mut count = 0_u64;
    for s in all {
        let more = unmet_count(alloc, world, &s.operand);
        count = count.saturating_add(more);
    }
    count
}

/// How many operands a conjunction has, with those of the conjunctions that are its first operand.
fn written_count(e: &Core) -> u64 {
    match &e.form {
        CoreForm::Coerce(_, part) => written_count(part),
        CoreForm::Chain(first, all) => {
            if are_conjunctions(all.as_slice()) {
                written_count(first).saturating_add(all.len() as u64)
            } else {
                1
            }
        }
        _ => 1,
    }
}

/// The same of one that is par and false: one for each operand that is false. The operands are
/// evaluated over the names' untold cells, which are made once and kept.
fn false_count(alloc: Global, world: &World, names: u64, e: &Core, kept: &mut Option<Env>) -> u64 {
    if kept.is_none() {
        let Ok(env) = untold_names(alloc, world, names) else {
            return 1;
        };
        *kept = Some(env);
    }
    let Some(env) = &*kept else {
        return 1;
    };
    let apart = World {
        program: world.program,
        env,
        budget: world.budget,
        int_range: world.int_range,
    };
    unmet_count(alloc, &apart, e)
}

/// How many roots a constraint with this cell has, where there are so many names: of a conjunction that
/// is par and false one for each operand that is false, and of another one for each operand. A
/// conjunction in parentheses that isn't the first operand is one of them where it is var.
pub(crate) fn operand_count(
    alloc: Global,
    world: &World,
    names: u64,
    e: &Core,
    cell: &Known,
    kept: &mut Option<Env>,
) -> u64 {
    let written = written_count(e);
    if written > 1 && is_unmet(cell) {
        false_count(alloc, world, names, e, kept)
    } else {
        written
    }
}
