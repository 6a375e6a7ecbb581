// The names that uses are looked up in.

ghost use Rattle.std.specs.Prelude.{◌≡◌, ◌+◌, ◌<◌, [], length, true, false, map, IfOk, IfSome};
ghost use Rattle.mz_scope_names.specs.Sketches.{sketch};
ghost use Rattle.mz_scope_order.specs.Dependencies.{meant_by};
ghost use Rattle.mz_scope_order.specs.StepsPlaces.{names_in, callee, mentioned, or_zero};
ghost use Rattle.mz_scope_order.specs.StepsGraphs.{numbers_by};

use crate::places::names_in;
use mz_base::Memory;
use mz_scope_names::{NameSet, NameUse, Sketch};
use std::alloc::Global;

/// The names that uses are looked up in.
pub(crate) struct Tables {
    /// Of functions without parameters.
    pub bare: NameSet,
    /// Of functions with parameters.
    pub applied: NameSet,
    /// Of declarations.
    pub decls: NameSet,
}

impl Drop for Tables {
    fn drop(self) {
        let Tables {
            bare: _bare,
            applied: _applied,
            decls: _decls,
        } = self;
    }
}

/// The use that means this declaration or function.
fn own_use(o: &Sketch) -> NameUse
    ensures { result ≡ meant_by (sketch o.now) }
{
    if o.applied {
        NameUse::Call(o.name)
    } else {
        NameUse::Mention(o.name)
    }
}

impl Tables {
    /// The names of these declarations and functions.
    pub fn of(alloc: Global, decls: &[Sketch], functions: &[Sketch]) -> Result<Tables, Memory>
        ensures bare { IfOk result (λ t. t.bare ≡ names_in false [] (map sketch functions.now)) }
        ensures applied { IfOk result (λ t. t.applied ≡ names_in true [] (map sketch functions.now)) }
        ensures decls { IfOk result (λ t. t.decls ≡ names_in false [] (map sketch decls.now)) }
    {
        let bare = names_in(alloc, functions, false)?;
        let applied = names_in(alloc, functions, true)?;
        let decls = names_in(alloc, decls, false)?;
        Ok(Tables {
            bare,
            applied,
            decls,
        })
    }

    /// How many names functions have, in both spaces.
    pub fn count(&self) -> usize
        ensures { result ≡ length self.now.bare + length self.now.applied }
    {
        self.bare.len() + self.applied.len()
    }

    /// The number of the name of a function that a use means.
    pub fn callee(&self, u: NameUse) -> Option<usize>
        ensures is { result ≡ callee self.now.bare self.now.applied u }
        ensures within { IfSome result (λ k. k < length self.now.bare + length self.now.applied) }
    {
        match u {
            NameUse::Mention(n) => self.bare.place(n),
            NameUse::Call(n) => match self.applied.place(n) {
                Some(k) => Some(self.bare.len() + k),
                None => None,
            },
        }
    }

    /// The number of the declaration that a use mentions.
    pub fn mentioned(&self, u: NameUse) -> Option<usize>
        ensures is { result ≡ mentioned self.now.decls u }
        ensures within { IfSome result (λ k. k < length self.now.decls) }
    {
        match u {
            NameUse::Mention(n) => self.decls.place(n),
            NameUse::Call(_) => None,
        }
    }

    /// The number of a function's own name.
    fn number(&self, o: &Sketch) -> usize
        ensures { result ≡ or_zero (callee self.now.bare self.now.applied (meant_by (sketch o.now))) }
    {
        match self.callee(own_use(o)) {
            Some(k) => k,
            None => 0,
        }
    }

    /// For each function the number of its name.
    pub fn numbers(&self, alloc: Global, functions: &[Sketch]) -> Result<Vec<usize>, Memory>
        ensures { IfOk result (λ v. v.items ≡ numbers_by self.now.bare self.now.applied (map sketch functions.now)) }
    {
        let mut numbers = Vec::new(alloc);
        for f in functions {
            numbers.push(self.number(f))?;
        }
        Ok(numbers)
    }
}
