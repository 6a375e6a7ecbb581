// What the names of the shared space stand for.

ghost use Rattle.std.specs.Prelude.{◌≡◌, None, ◌∷◌, [], ◌++◌, map, IfOk, OnOk};
ghost use Rattle.mz_scope_order.specs.Scoped.{AreDistinct};
ghost use Rattle.mz_check_meaning.specs.Models.{entry_of};

use indexmap::IndexMap;
use mz_base::{Memory, Name};
use mz_check_meaning::Meaning;
use std::alloc::Global;
use std::marker::Model;

/// What names stand for, each name once, in the order in which they were given.
#[derive(Drop)]
pub struct Meanings {
    table: IndexMap<Name, Meaning>,
}

impl Model for Meanings {
    ghost use Rattle.std.specs.Prelude.{List, ℕ};
    ghost use Rattle.mz_check_meaning.specs.declared.meaning.Meaning.{Meaning};

    ghost Value = { List (ℕ × Meaning) };

    ghost view = { λ m. m.table.entries };
}

impl Meanings {
    fn new(alloc: Global) -> Meanings
        ensures { result ≡ [] }
    {
        Meanings {
            table: IndexMap::new(alloc),
        }
    }

    /// Adds what a new name stands for.
    #[tactic(auto, using(crate::proofs::Entries::entry_added))]
    fn add(&mut self, name: Name, meaning: Meaning) -> Result<(), Memory>
        requires { entry_of name self.old ≡ None }
        ensures { OnOk result (self.new ≡ self.old ++ (name, meaning) ∷ []) }
    {
        self.table.insert(name, meaning)?;
        Ok(())
    }

    /// What these names stand for.
    #[tactic(auto, using(crate::proofs::Entries::next_is_new))]
    pub fn of(alloc: Global, entries: &[(Name, Meaning)]) -> Result<Meanings, Memory>
        requires { AreDistinct (map (λ e. e.0) entries.now) }
        ensures { IfOk result (λ m. m ≡ entries.now) }
    {
        let mut meanings = Meanings::new(alloc);
        for e in entries {
            meanings.add(e.0, e.1)?;
        }
        Ok(meanings)
    }

    /// What a name stands for, None where nothing of the shared space has it.
    #[tactic(auto, using(crate::proofs::Entries::entry_found))]
    pub fn meaning(&self, name: Name) -> Option<Meaning>
        ensures { result ≡ entry_of name self.now }
    {
        match self.table.get(&name) {
            Some(meaning) => Some(*meaning),
            None => None,
        }
    }
}
