// Sets of names.

ghost use Rattle.std.specs.Prelude.{◌≡◌, ℕ, ◌<◌, ◌^◌, [], length, take, IfOk, OnOk, IfSome};
ghost use Rattle.mz_scope_names.specs.Sets.{holds, with_name, place_of};

use indexmap::IndexSet;
use mz_base::{Memory, Name};
use std::alloc::Global;
use std::marker::Model;

/// Names, each once, in the order in which they were added.
pub struct NameSet {
    names: IndexSet<Name>,
}

impl Drop for NameSet {
    fn drop(self) {
        let NameSet { names: _names } = self;
    }
}

impl Model for NameSet {
    ghost use Rattle.std.specs.Prelude.{List, ℕ};

    ghost Value = { List ℕ };

    ghost view = { λ t. t.names.keys };
}

impl NameSet {
    /// The empty set.
    pub fn new(alloc: Global) -> NameSet
        ensures { result ≡ [] }
    {
        NameSet {
            names: IndexSet::new(alloc),
        }
    }

    /// The set of these names.
    pub fn of(alloc: Global, names: &[Name]) -> Result<NameSet, Memory>
        ensures { IfOk result (λ set. (n : ℕ) → holds n set ≡ holds n names.now) }
    {
        let mut set = NameSet::new(alloc);
        for name in names {
            set.add(*name)?;
        }
        Ok(set)
    }

    /// Whether the name is in the set.
    pub fn has(&self, name: Name) -> bool
        ensures { result ≡ holds name self.now }
    {
        self.names.contains(&name)
    }

    /// Adds a name at the end, where it isn't there yet.
    pub fn add(&mut self, name: Name) -> Result<(), Memory>
        ensures { OnOk result (self.new ≡ with_name self.old name) }
    {
        self.names.insert_full(name)?;
        Ok(())
    }
    /// How many names there are.
    pub fn len(&self) -> usize
        ensures is { result ≡ length self.now }
        ensures small { result < 2 ^ 63 }
    {
        self.names.len()
    }

    /// The place of a name, from 0.
    pub fn place(&self, name: Name) -> Option<usize>
        ensures is { result ≡ place_of name self.now }
        ensures within { IfSome result (λ k. k < length self.now) }
        ensures small { IfSome result (λ k. k < 2 ^ 63) }
    {
        let _count = self.names.len();
        self.names.get_index_of(&name)
    }

    /// Keeps only the first `count` names.
    pub fn truncate(&mut self, count: usize)
        ensures { self.new ≡ take count self.old }
    {
        self.names.truncate(count);
    }
}
