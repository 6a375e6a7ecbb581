// The parts of variables in code, with the ids of their nodes.

ghost use Rattle.std.specs.Prelude.{◌≡◌, ◌++◌, IfOk, OnOk, map};
ghost use Rattle.std.specs.List.{flat_map};
ghost use Rattle.mz_arena.specs.Instances.{model_var, var_cell};
ghost use Rattle.mz_instance.specs.Parts.{Part, base_of, cell_ids, ids, occurrence, parts, parts_of, sort_of, value_part, var_ids, var_parts};
ghost use Rattle.cases_instances.specs.Seen.{part, sort_in};

use mz_arena::{Id, ModelVar, VarCell};
use mz_base::Memory;
use mz_value::{RangeSet, ShapeBase};
use std::alloc::Global;

/// What a part is.
#[derive(Clone, Copy)]
pub(crate) enum PartSort {
    /// An integer, or a case of an enum.
    Whole,
    /// A truth value.
    Truth,
    /// A set.
    Subset,
}

/// A part of a variable.
#[derive(Drop)]
pub(crate) struct VarPart {
    /// What it is.
    pub(crate) sort: PartSort,
    /// The numbers that it may be, or that its set may have.
    pub(crate) set: RangeSet,
}

// What the values of a base are.
fn sort_of(base: &ShapeBase) -> PartSort
    ensures { sort_in result ≡ sort_of (base_of base.now) }
{
    match base {
        ShapeBase::Bool => PartSort::Truth,
        ShapeBase::Int => PartSort::Whole,
        ShapeBase::Enum(_) => PartSort::Whole,
        ShapeBase::SetInt => PartSort::Subset,
        ShapeBase::SetEnum(_) => PartSort::Subset,
    }
}

// Whether an option is there.
fn occurrence(alloc: Global) -> Result<VarPart, Memory>
    ensures { IfOk result (λ p. part p ≡ occurrence) }
{
    Ok(VarPart {
        sort: PartSort::Truth,
        set: RangeSet::range(alloc, 0, 1)?,
    })
}

fn value_part(alloc: Global, m: &ModelVar, c: &VarCell) -> Result<VarPart, Memory>
    ensures { IfOk result (λ p. part p ≡ value_part (model_var m.now) (var_cell c.now)) }
{
    Ok(VarPart {
        sort: sort_of(&m.base),
        set: c.domain.copy(alloc)?,
    })
}

// Adds the parts of a cell.
fn add_cell(alloc: Global, m: &ModelVar, c: &VarCell, all: &mut Vec<VarPart>) -> Result<(), Memory>
    ensures { OnOk result (map part all.new.items ≡ map part all.old.items ++ parts_of m.now.opt (value_part (model_var m.now) (var_cell c.now))) }
{
    if m.opt {
        all.push(given!(occurrence(alloc)))?;
    }
    all.push(given!(value_part(alloc, m, c)))?;
    Ok(())
}

// Adds the parts of a variable.
fn add_var(alloc: Global, m: &ModelVar, all: &mut Vec<VarPart>) -> Result<(), Memory>
    ensures { OnOk result (map part all.new.items ≡ map part all.old.items ++ var_parts (model_var m.now)) }
{
    'cells: for c in &m.cells {
        given!(add_cell(alloc, m, c, all));
    }
    Ok(())
}

/// All parts of these variables, in order.
pub(crate) fn parts(alloc: Global, vars: &[ModelVar]) -> Result<Vec<VarPart>, Memory>
    ensures { IfOk result (λ all. map part all.items ≡ parts (map model_var vars.now)) }
{
    let mut all = Vec::new(alloc);
    'vars: for m in vars {
        given!(add_var(alloc, m, &mut all));
    }
    Ok(all)
}

// Adds the ids of a cell.
fn add_cell_ids(c: &VarCell, all: &mut Vec<Id>) -> Result<(), Memory>
    ensures { OnOk result (all.new.items ≡ all.old.items ++ cell_ids (var_cell c.now)) }
{
    match c.occurs {
        Some(o) => {
            all.push(o)?;
            all.push(c.term)?;
            Ok(())
        }
        None => {
            all.push(c.term)?;
            Ok(())
        }
    }
}

// Adds the ids of a variable.
fn add_var_ids(m: &ModelVar, all: &mut Vec<Id>) -> Result<(), Memory>
    ensures { OnOk result (all.new.items ≡ all.old.items ++ var_ids (model_var m.now)) }
{
    'cells: for c in &m.cells {
        given!(add_cell_ids(c, all));
    }
    Ok(())
}

/// The ids of the nodes of these variables' parts, in the same order.
pub(crate) fn ids(alloc: Global, vars: &[ModelVar]) -> Result<Vec<Id>, Memory>
    ensures { IfOk result (λ all. all.items ≡ ids (map model_var vars.now)) }
{
    let mut all = Vec::new(alloc);
    'vars: for m in vars {
        given!(add_var_ids(m, &mut all));
    }
    Ok(all)
}
