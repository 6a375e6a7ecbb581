// The functions of a model by their names.

ghost use Rattle.std.specs.Prelude.{◌≡◌, IfOk};
ghost use Rattle.mz_scope_names.specs.Sets.{holds};
ghost use Rattle.mz_check_meaning.specs.Models.{entries_of};

use crate::groups::Groups;
use mz_base::{Memory, Name};
use mz_scope_names::NameSet;
use std::alloc::Global;
use std::marker::Model;

/// The functions with parameters, each by its name and its number, in the order in which they were given. A name may have many.
#[derive(Drop)]
pub struct Overloads {
    functions: Vec<(Name, u64)>,
    by_name: Groups,
}

impl Model for Overloads {
    ghost use Rattle.std.specs.Prelude.{◌≡◌, List, ℕ};
    ghost use Rattle.mz_check_context.specs.Tables.{AreGrouped};

    ghost Value = { List (ℕ × ℕ) };

    ghost view = { λ o. o.functions.items };

    ghost invariant = { λ o. AreGrouped o.by_name o.functions.items };
}

impl Overloads {
    /// These functions.
    pub fn of(alloc: Global, functions: Vec<(Name, u64)>) -> Result<Overloads, Memory>
        ensures { IfOk result (λ o. o ≡ functions.items) }
    {
        let by_name = Groups::of(alloc, functions.as_slice())?;
        Ok(Overloads { functions, by_name })
    }

    /// The numbers of the functions of a name.
    pub fn numbers(&self, name: Name) -> &[u64]
        ensures { result.now ≡ entries_of name self.now }
    {
        self.by_name.numbers(name)
    }

    /// All functions.
    pub fn functions(&self) -> &[(Name, u64)]
        ensures { result.now ≡ self.now }
    {
        self.functions.as_slice()
    }
}

/// The names of all functions, one for each function.
#[derive(Drop)]
pub struct FunctionNames {
    names: Vec<Name>,
    set: NameSet,
}

impl Model for FunctionNames {
    ghost use Rattle.std.specs.Prelude.{◌≡◌, List, ℕ};
    ghost use Rattle.mz_scope_names.specs.Sets.{holds};

    ghost Value = { List ℕ };

    ghost view = { λ f. f.names.items };

    ghost invariant = { λ f. (n : ℕ) → holds n f.set ≡ holds n f.names.items };
}

impl FunctionNames {
    /// These names.
    pub fn of(alloc: Global, names: Vec<Name>) -> Result<FunctionNames, Memory>
        ensures { IfOk result (λ f. f ≡ names.items) }
    {
        let set = NameSet::of(alloc, names.as_slice())?;
        Ok(FunctionNames { names, set })
    }

    /// Whether a function has this name.
    pub fn has(&self, name: Name) -> bool
        ensures { result ≡ holds name self.now }
    {
        self.set.has(name)
    }
}
