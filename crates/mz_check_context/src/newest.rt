// The newest local of each name.

ghost use Rattle.std.specs.Prelude.{◌≡◌, ℕ, None, nat_eq, if◌then◌else◌, OnOk, OnErr};
ghost use Rattle.mz_check_context.specs.Locals.{newest_of};

use indexmap::IndexMap;
use mz_base::{Memory, Name};
use std::alloc::Global;

/// For each name the place of the newest local that has it; none where there is none.
#[derive(Drop)]
pub(crate) struct Newest {
    places: IndexMap<Name, Option<usize>>,
}

impl Newest {
    pub fn new(alloc: Global) -> Newest
        ensures { (n : ℕ) → newest_of result n ≡ None }
    {
        Newest {
            places: IndexMap::new(alloc),
        }
    }

    pub fn place(&self, name: Name) -> Option<usize>
        ensures { result ≡ newest_of self.now name }
    {
        match self.places.get(&name) {
            Some(place) => *place,
            None => None,
        }
    }

    /// From now on a name has this place. After `Memory` all places are as they were.
    #[tactic(auto, using(crate::proofs::Hiding::place_after))]
    pub fn put(&mut self, name: Name, place: Option<usize>) -> Result<(), Memory>
        ensures ok { OnOk result ((n : ℕ) → newest_of self.new n ≡ (if nat_eq name n then place else newest_of self.old n)) }
        ensures err { OnErr result ((n : ℕ) → newest_of self.new n ≡ newest_of self.old n) }
    {
        self.places.insert(name, place)?;
        Ok(())
    }
}
