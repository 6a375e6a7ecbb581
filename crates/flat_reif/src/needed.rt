// The ids that are to be flattened.

ghost use Rattle.std.specs.Prelude.{◌≡◌, ℕ, ◌<◌, [], OnErr, OnOk, length};
ghost use Rattle.flat_reif.specs.Needs.{HasAlso, is_needed};

use mz_arena::Id;
use mz_base::Memory;
use std::alloc::Global;
use std::marker::Model;

/// A set of ids. It takes a byte for each id up to its greatest.
#[derive(Drop)]
pub struct Needed {
    marks: Vec<bool>,
}

impl Model for Needed {
    ghost use Rattle.std.specs.Prelude.{List, Bool};

    ghost Value = { List Bool };

    ghost view = { λ n. n.marks.items };
}

impl Needed {
    /// The empty set.
    pub fn new(alloc: Global) -> Needed
        ensures { result ≡ [] }
    {
        Needed {
            marks: Vec::new(alloc),
        }
    }

    /// Whether the id is in the set.
    pub fn has(&self, id: Id) -> bool
        ensures { result ≡ is_needed self.now id }
    {
        match self.marks.get(id as usize) {
            Some(b) => *b,
            None => false,
        }
    }

    /// Adds an id.
    pub fn add(&mut self, id: Id) -> Result<(), Memory>
        ensures added { OnOk result (HasAlso self.old self.new id) }
        ensures err { OnErr result ((k : ℕ) → is_needed self.new k ≡ is_needed self.old k) }
    {
        grow(&mut self.marks, id)?;
        mark(&mut self.marks, id);
        Ok(())
    }
}

// A mark for this id and all before it, none of them set anew.
fn grow(marks: &mut Vec<bool>, id: Id) -> Result<(), Memory>
    ensures same { (k : ℕ) → is_needed marks.new.items k ≡ is_needed marks.old.items k }
    ensures long { OnOk result (id < length marks.new.items) }
{
    'longer: while marks.len() as u64 <= id {
        marks.push(false)?;
    }
    Ok(())
}

// Sets the mark of an id.
fn mark(marks: &mut Vec<bool>, id: Id)
    requires { id < length marks.old.items }
    ensures { HasAlso marks.old.items marks.new.items id }
{
    marks[id as usize] = true;
}
