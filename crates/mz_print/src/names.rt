// A model's top-level names.

ghost use Rattle.std.specs.Prelude.{◌≡◌, ◌++◌, IfOk, OnOk, map};
ghost use Rattle.mz_print.specs.Output.{variable_slot, variable_slots};
ghost use Rattle.mz_print.specs.Lines.{place_of};
ghost use Rattle.mz_print.specs.Names.{place_in, top_name, top_names};

use crate::place_of;
use mz_base::Memory;
use mz_eval_cells::Known;
use std::alloc::Global;

/// A top-level name by its slot: with the cell that the walk gave it, which is par, or `None` of a decision variable.
#[derive(Drop)]
pub struct TopName {
    pub slot: u64,
    pub fixed: Option<Known>,
}

fn push_slot(name: &TopName, slots: &mut Vec<u64>) -> Result<(), Memory>
    ensures { OnOk result (slots.new.items ≡ slots.old.items ++ variable_slot (top_name name.now)) }
{
    if name.fixed.is_none() {
        slots.push(name.slot)?;
    }
    Ok(())
}

/// The slots of the decision variables.
pub(crate) fn variable_slots(alloc: Global, names: &[TopName]) -> Result<Vec<u64>, Memory>
    ensures { IfOk result (λ slots. slots.items ≡ variable_slots (top_names names.now)) }
{
    let mut slots = Vec::new(alloc);
    for name in names {
        push_slot(name, &mut slots)?;
    }
    Ok(slots)
}

/// The place of each name among these slots.
pub(crate) fn places(
    alloc: Global,
    slots: &[u64],
    names: &[TopName],
) -> Result<Vec<Option<usize>>, Memory>
    ensures { IfOk result (λ places. places.items ≡ map (place_in slots.now) (top_names names.now)) }
{
    let mut places = Vec::new(alloc);
    for name in names {
        places.push(place_of(name.slot, slots))?;
    }
    Ok(places)
}
