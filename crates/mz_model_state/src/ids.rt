// The ids of the nodes of parts, in order.

ghost use Rattle.std.specs.Prelude.{◌≡◌, ◌++◌, map, IfOk};
ghost use Rattle.mz_arena.specs.Instances.{model_var, var_cell};
ghost use Rattle.mz_instance.specs.Parts.{cell_ids, ids};
ghost use Rattle.mz_symbol.specs.Symbols.{free_ids, symbol_ids};
ghost use Rattle.mz_model_state.specs.StepsIds.{cells_ids, if_there};

use mz_arena::{Id, ModelVar, VarCell};
use mz_base::Memory;
use mz_symbol::{Free, Symbol};
use std::alloc::Global;

fn push_occurrence(all: &mut Vec<Id>, occurs: Option<Id>) -> Result<(), Memory>
    ensures { IfOk result (λ _. all.new.items ≡ all.old.items ++ if_there occurs) }
{
    match occurs {
        None => Ok(()),
        Some(o) => {
            all.push(o)?;
            Ok(())
        }
    }
}

#[tactic(auto, using(crate::proofs::Pushed::symbol_pushed))]
fn push_symbol(all: &mut Vec<Id>, s: Symbol) -> Result<(), Memory>
    ensures { IfOk result (λ _. all.new.items ≡ all.old.items ++ symbol_ids s) }
{
    push_occurrence(all, s.occurs)?;
    all.push(s.term)?;
    Ok(())
}

#[tactic(auto, using(crate::proofs::Pushed::cell_pushed))]
fn push_cell(all: &mut Vec<Id>, c: &VarCell) -> Result<(), Memory>
    ensures { IfOk result (λ _. all.new.items ≡ all.old.items ++ cell_ids (var_cell c.now)) }
{
    push_occurrence(all, c.occurs)?;
    all.push(c.term)?;
    Ok(())
}

/// The ids of the choices' nodes.
pub(crate) fn choice_ids(alloc: Global, choices: &[Free]) -> Result<Vec<Id>, Memory>
    ensures { IfOk result (λ v. v.items ≡ free_ids choices.now) }
{
    let mut all = Vec::new(alloc);
    for f in choices {
        push_symbol(&mut all, f.symbol)?;
    }
    Ok(all)
}

fn push_var(all: &mut Vec<Id>, cells: &[VarCell]) -> Result<(), Memory>
    ensures { IfOk result (λ _. all.new.items ≡ all.old.items ++ cells_ids (map var_cell cells.now)) }
{
    for c in cells {
        push_cell(all, c)?;
    }
    Ok(())
}

/// The ids of the variables' nodes.
pub(crate) fn part_ids(alloc: Global, vars: &[ModelVar]) -> Result<Vec<Id>, Memory>
    ensures { IfOk result (λ v. v.items ≡ ids (map model_var vars.now)) }
{
    let mut all = Vec::new(alloc);
    for m in vars {
        push_var(&mut all, &m.cells)?;
    }
    Ok(all)
}
