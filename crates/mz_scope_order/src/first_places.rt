// The first place of each name in a list.

ghost use Rattle.std.specs.Prelude.{◌≡◌, ℕ, Some, None, nat_eq, if◌then◌else◌, IfOk, OnOk};
ghost use Rattle.mz_scope_order.specs.StepsTables.{place_found, place_from, or_next};

use indexmap::IndexMap;
use mz_base::{Memory, Name};
use std::alloc::Global;

/// For each name of a list its first place there, from 0.
pub(crate) struct Places {
    places: IndexMap<Name, usize>,
}

impl Drop for Places {
    fn drop(self) {
        let Places { places: _places } = self;
    }
}

impl Places {
    fn new(alloc: Global) -> Places
        ensures { (n : ℕ) → place_found result n ≡ None }
    {
        Places {
            places: IndexMap::new(alloc),
        }
    }

    /// Adds the place of a name that has none yet.
    fn add(&mut self, name: Name, place: usize) -> Result<(), Memory>
        ensures { OnOk result ((n : ℕ) → place_found self.new n ≡ or_next (place_found self.old n) (if nat_eq n name then Some place else None)) }
    {
        if self.places.contains_key(&name) {
            return Ok(());
        }
        self.places.insert(name, place)?;
        Ok(())
    }

    /// The first places of these names.
    pub fn of(alloc: Global, names: &[Name]) -> Result<Places, Memory>
        ensures { IfOk result (λ places. (n : ℕ) → place_found places n ≡ place_from 0 n names.now) }
    {
        let mut places = Places::new(alloc);
        for k in 0..names.len() {
            places.add(names[k], k)?;
        }
        Ok(places)
    }

    /// The first place of a name.
    pub fn place(&self, name: Name) -> Option<usize>
        ensures { result ≡ place_found self.now name }
    {
        match self.places.get(&name) {
            Some(place) => Some(*place),
            None => None,
        }
    }
}
