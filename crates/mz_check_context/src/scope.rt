// The local names in scope.

ghost use Rattle.std.specs.Prelude.{◌≡◌, ◌<◌, ◌^◌, [], length, OnOk, OnErr};
ghost use Rattle.std.specs.Option.{option_map};
ghost use Rattle.mz_core.specs.Types.{plain_type};
ghost use Rattle.mz_check_meaning.specs.Models.{Env, bind, local_in, is_bound_since};
ghost use Rattle.mz_check_context.specs.Extending.{unbound, Extends};
ghost use Rattle.mz_check_context.specs.Locals.{local};

use crate::newest::Newest;
use mz_base::{Memory, Name};
use mz_core::TypeInst;
use std::alloc::Global;
use std::marker::Model;

/// A local name with its slot and its type.
#[derive(Drop)]
pub struct LocalName {
    pub name: Name,
    pub slot: u64,
    pub ty: TypeInst,
    // the place of the one of the same name that it hides
    hidden: Option<usize>,
}

/// The local names in scope, and whether the values of declarations are known, as in output items.
///
/// The next free slot is the number of declarations and local names before it. Each call takes a constant time, `leave` for each
/// name that goes out of scope.
#[derive(Drop)]
pub struct Scope {
    // the oldest first
    locals: Vec<LocalName>,
    newest: Newest,
    declared: u64,
    output: bool,
}

impl Model for Scope {
    ghost use Rattle.std.specs.Prelude.{◌≡◌, ◌+◌, ◌<◌, ◌^◌, length};
    ghost use Rattle.mz_check_meaning.specs.Models.{Env};
    ghost use Rattle.mz_check_context.specs.Locals.{newest_first, AreNewest};

    ghost Value = { Env };

    ghost view = { λ s. record { locals = newest_first s.locals.items; next = s.declared + length s.locals.items; output = s.output } };

    ghost invariant = { λ s. (s.declared < 2 ^ 63) × AreNewest s.newest s.locals.items };
}

impl Scope {
    /// No local name, after this many declarations.
    pub fn new(alloc: Global, declared: u64, output: bool) -> Scope
        requires { declared < 2 ^ 63 }
        ensures { result ≡ record { locals = []; next = declared; output = output } }
    {
        Scope {
            locals: Vec::new(alloc),
            newest: Newest::new(alloc),
            declared,
            output,
        }
    }

    /// How many local names are in scope: what `leave` goes back to.
    pub fn mark(&self) -> usize
        ensures { result ≡ length self.now.locals }
    {
        self.locals.len()
    }

    /// The next free slot.
    pub fn next(&self) -> u64
        ensures { result ≡ self.now.next }
    {
        self.declared + self.locals.len() as u64
    }

    /// Whether the values of declarations are known.
    pub fn output(&self) -> bool
        ensures { result ≡ self.now.output }
    {
        self.output
    }

    /// The local name that is meant by a name, None where there is none.
    pub fn local_in(&self, name: Name) -> Option<&LocalName>
        ensures { option_map (λ l. local l.now) result ≡ local_in name self.now.locals }
    {
        match self.newest.place(name) {
            Some(place) => self.locals.get(place),
            None => None,
        }
    }

    /// Whether a name was bound since this slot was the next.
    pub fn is_bound_since(&self, start: u64, name: Name) -> bool
        ensures { result ≡ is_bound_since start name self.now }
    {
        match self.local_in(name) {
            Some(l) => l.slot >= start,
            None => false,
        }
    }

    /// Binds a name to the next free slot. After `Memory` the scope is as it was.
    pub fn bind(&mut self, name: Name, ty: TypeInst) -> Result<(), Memory>
        ensures ok { OnOk result (self.new ≡ bind name (plain_type ty) self.old) }
        ensures err { OnErr result (self.new ≡ self.old) }
    {
        let place = self.locals.len();
        let slot = self.declared + place as u64;
        let hidden = self.newest.place(name);
        self.locals.push(LocalName {
            name,
            slot,
            ty,
            hidden,
        })?;
        match self.newest.put(name, Some(place)) {
            Ok(()) => Ok(()),
            Err(e) => {
                let _local = self.locals.pop();
                Err(e)
            }
        }
    }

    /// The newest local name goes out of scope.
    fn unbind(&mut self) -> Result<(), Memory>
        ensures { OnOk result (self.new ≡ unbound self.old) }
    {
        let (name, hidden) = match self.locals.last() {
            Some(l) => (l.name, l.hidden),
            None => return Ok(()),
        };
        self.newest.put(name, hidden)?;
        let _local = self.locals.pop();
        Ok(())
    }

    /// Goes back to what was in scope when there were this many local names. After `Memory` some of the others are still in scope.
    #[tactic(auto, using(crate::proofs::Returning::extends_back, crate::proofs::Returning::extends_end))]
    pub fn leave(&mut self, mark: usize) -> Result<(), Memory>
        ensures { OnOk result ((env : Env) → Extends env self.old → mark ≡ length env.locals → self.new ≡ env) }
    {
        while self.mark() > mark {
            self.unbind()?;
        }
        Ok(())
    }
}
