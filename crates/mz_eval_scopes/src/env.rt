// The cells of top-level names.

ghost use Rattle.std.specs.Prelude.{◌≡◌, ℕ, OnOk, OnErr, MatchOption, ◌<◌, ◌+◌, length};
ghost use Rattle.std.specs.Option.{option_map};
ghost use Rattle.mz_value.specs.Contents.{content};
ghost use Rattle.mz_meaning.specs.Cells as cells;
ghost use Rattle.mz_meaning.specs.Cells.{Par, bind};
ghost use Rattle.mz_symbol.specs.Readings.{Reading};
ghost use Rattle.mz_eval_cells.specs.Views.{cell_of, seen};
ghost use Rattle.mz_eval_scopes.specs.Views.{View, env_cells, env_cells_by};

use crate::types::Env;
use mz_base::Memory;
use mz_eval_cells::{Known, known_of, undefined};
use mz_value::Value;
use std::alloc::Global;

impl Env {
    /// No slot is set.
    pub fn new(alloc: Global) -> Env
        ensures { (k : ℕ) → env_cells result k ≡ cells.undefined }
    {
        Env {
            alloc,
            cells: Vec::new(alloc),
        }
    }

    /// Gives a slot this value, or leaves it undefined; what was set before is gone. The value is
    /// moved and not copied. Takes memory for each slot up to this one. Out of memory it leaves all
    /// slots as they were.
    pub fn set(&mut self, slot: u64, value: Option<Value>) -> Result<(), Memory>
        ensures set { OnOk result ((k : ℕ) → env_cells self.new k ≡ bind slot (Par (option_map content value)) (env_cells self.old) k) }
        ensures kept { OnErr result ((k : ℕ) → env_cells self.new k ≡ env_cells self.old k) }
    {
        let cell = known_of(self.alloc, value)?;
        self.set_cell(slot, cell)
    }

    /// Gives a slot this cell, par or var; all else as `set` does.
    pub fn set_cell(&mut self, slot: u64, cell: Known) -> Result<(), Memory>
        ensures set { OnOk result ((k : ℕ) → env_cells self.new k ≡ bind slot (cell_of cell) (env_cells self.old) k) }
        ensures seen { OnOk result ((r : Reading) (k : ℕ) → env_cells_by (seen r) self.new k ≡ bind slot (seen r cell) (env_cells_by (seen r) self.old) k) }
        ensures kept { OnErr result ((k : ℕ) → env_cells self.new k ≡ env_cells self.old k) }
    {
        self.grow(slot)?;
        self.put(slot, cell);
        Ok(())
    }

    // has a place for the slot
    fn grow(&mut self, slot: u64) -> Result<(), Memory>
        ensures same { (k : ℕ) → env_cells self.new k ≡ env_cells self.old k }
        ensures seen { (r : Reading) (k : ℕ) → env_cells_by (seen r) self.new k ≡ env_cells_by (seen r) self.old k }
        ensures place { OnOk result (slot < length self.new.cells.items) }
    {
        'places: while self.cells.len() as u64 <= slot {
            self.push()?;
        }
        Ok(())
    }

    // one slot more that is not set
    #[tactic(auto, using(crate::proofs::Slots::pushed_undefined, crate::proofs::Slots::pushed_seen))]
    fn push(&mut self) -> Result<(), Memory>
        ensures same { (k : ℕ) → env_cells self.new k ≡ env_cells self.old k }
        ensures seen { (r : Reading) (k : ℕ) → env_cells_by (seen r) self.new k ≡ env_cells_by (seen r) self.old k }
        ensures longer { OnOk result (length self.new.cells.items ≡ length self.old.cells.items + 1) }
    {
        self.cells.push(undefined())?;
        Ok(())
    }

    #[tactic(auto, using(crate::proofs::Slots::put_at, crate::proofs::Slots::put_seen))]
    fn put(&mut self, slot: u64, cell: Known)
        requires { slot < length self.old.cells.items }
        ensures set { (k : ℕ) → env_cells self.new k ≡ bind slot (cell_of cell) (env_cells self.old) k }
        ensures seen { (r : Reading) (k : ℕ) → env_cells_by (seen r) self.new k ≡ bind slot (seen r cell) (env_cells_by (seen r) self.old) k }
    {
        self.cells[slot as usize] = cell;
    }

    /// The cell of a slot; `None` where it was never set nor a later one.
    pub(crate) fn cell(&self, slot: u64) -> Option<&Known>
        ensures { MatchOption result
            ((see : View) → env_cells_by see self.now slot ≡ cells.undefined)
            (λ k. (see : View) → env_cells_by see self.now slot ≡ see k.now) }
    {
        self.cells.get(slot as usize)
    }
}
