// Numbers that are grouped by names.

ghost use Rattle.std.specs.Prelude.{◌≡◌, ℕ, ◌∷◌, [], ◌++◌, nat_eq, if◌then◌else◌, IfOk, OnOk};
ghost use Rattle.mz_check_meaning.specs.Models.{entries_of};
ghost use Rattle.mz_check_context.specs.Tables.{numbers_found};

use indexmap::IndexMap;
use mz_base::{Memory, Name};
use std::alloc::Global;

/// For each name the numbers that it has, in the order in which they were added.
#[derive(Drop)]
pub struct Groups {
    numbers: IndexMap<Name, Vec<u64>>,
    alloc: Global,
}

impl Groups {
    /// No number.
    pub fn new(alloc: Global) -> Groups
        ensures { (n : ℕ) → numbers_found result n ≡ [] }
    {
        Groups {
            numbers: IndexMap::new(alloc),
            alloc,
        }
    }

    /// Adds a number to those of a name.
    pub fn add(&mut self, name: Name, number: u64) -> Result<(), Memory>
        ensures { OnOk result ((n : ℕ) → numbers_found self.new n ≡ numbers_found self.old n ++ (if nat_eq name n then number ∷ [] else [])) }
    {
        let mut numbers = match self.numbers.swap_remove(&name) {
            Some(numbers) => numbers,
            None => Vec::new(self.alloc),
        };
        numbers.push(number)?;
        self.numbers.insert(name, numbers)?;
        Ok(())
    }

    /// The numbers of each name in this list.
    pub fn of(alloc: Global, entries: &[(Name, u64)]) -> Result<Groups, Memory>
        ensures { IfOk result (λ g. (n : ℕ) → numbers_found g n ≡ entries_of n entries.now) }
    {
        let mut groups = Groups::new(alloc);
        for e in entries {
            groups.add(e.0, e.1)?;
        }
        Ok(groups)
    }

    /// The numbers of a name, none where it has none.
    pub fn numbers(&self, name: Name) -> &[u64]
        ensures { result.now ≡ numbers_found self.now name }
    {
        match self.numbers.get(&name) {
            Some(numbers) => numbers.as_slice(),
            None => &[],
        }
    }
}
