// What lines put into the open block, taken out again.

ghost use Rattle.std.specs.Prelude.{◌≡◌, IsTrue, is_some, Some, None};
ghost use Rattle.soln_reader.specs.Blocks.{Block};
ghost use Rattle.soln_reader.specs.StepsUndo.{cleared_in, cleared, undone, Undo, Restores, cleared_block};
ghost use Rattle.soln_reader.specs.Views.{given, givens, block_of};

use crate::block::Given;
use fz_items::{Part, Slot};

impl Given {
    /// Takes out what stands under a name.
    #[tactic(auto, unfolding(crate::specs::StepsUndo::cleared_in))]
    fn clear(&mut self, part: Part)
        ensures { given self.new ≡ cleared_in part (given self.old) }
    {
        match part {
            Part::Occurs => self.occurs = None,
            Part::Value => self.value = None,
        }
    }
}

/// Takes out what stands under a slot's name.
#[tactic(auto, unfolding(crate::specs::StepsUndo::cleared))]
fn clear_at(gs: &mut [Given], slot: Slot)
    ensures { givens gs.new ≡ cleared slot (givens gs.old) }
{
    if slot.shape < gs.len() {
        gs[slot.shape].clear(slot.part);
    }
}

/// Takes out what stands under the slots' names.
fn clear_all(gs: &mut [Given], slots: &mut Vec<Slot>)
    ensures { givens gs.new ≡ undone slots.old.items (givens gs.old) }
{
    'slots: loop {
        match slots.pop() {
            Some(slot) => clear_at(gs, slot),
            None => return,
        }
    }
}

/// Takes out what stands under a slot's name, where a block is open.
fn clear(block: &mut Option<Vec<Given>>, slot: Slot)
    ensures { block_of block.new ≡ cleared_block slot (block_of block.old) }
{
    if let Some(gs) = block {
        clear_at(gs, slot);
    }
}

/// Makes the block what it was before lines filled these slots.
pub(crate) fn restore(block: &mut Option<Vec<Given>>, was_open: bool, slots: &mut Vec<Slot>)
    ensures { (before : Block) → was_open ≡ is_some before → Restores slots.old.items before (block_of block.old) → block_of block.new ≡ before }
{
    if !was_open {
        *block = None;
        return;
    }
    if let Some(gs) = block {
        clear_all(gs, slots);
    }
}

/// Notes the slot that a line filled. Where memory runs out, that slot is cleared again.
pub(crate) fn note(
    block: &mut Option<Vec<Given>>,
    slots: &mut Vec<Slot>,
    filled: Option<Slot>,
) -> bool
    ensures restores { (before mid : Block) → Restores slots.old.items before mid → Undo filled mid (block_of block.old) → Restores slots.new.items before (block_of block.new) }
    ensures same { IsTrue result → block_of block.new ≡ block_of block.old }
{
    match filled {
        None => true,
        Some(slot) => match slots.push(slot) {
            Ok(()) => true,
            Err(_) => {
                clear(block, slot);
                false
            }
        },
    }
}
