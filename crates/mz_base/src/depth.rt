// Nesting, against its limit.

ghost use Rattle.std.specs.Prelude.{◌≡◌, ◌+◌, ◌<◌, ◌≤◌, ◌↔◌, IsTrue, if◌then◌else◌};

use std::marker::Model;

/// How many calls or brackets are open, against a limit.
#[derive(Clone, Copy, Debug)]
pub struct Depth {
    limit: u32,
    nesting: u32,
}

impl Model for Depth {
    ghost use Rattle.std.specs.Prelude.{◌≤◌};
    ghost use Rattle.mz_base.specs.Counts.{Nesting};

    ghost Value = { Nesting };

    ghost view = { λ d. record { limit = d.limit; nesting = d.nesting } };

    ghost invariant = { λ d. d.nesting ≤ d.limit };

    ghost inverse = { λ d. record { limit = d.limit; nesting = d.nesting } };
}

impl Depth {
    /// Nothing is open.
    pub fn new(limit: u32) -> Depth
        ensures limit { result.limit ≡ limit }
        ensures nesting { result.nesting ≡ 0 }
    {
        Depth { limit, nesting: 0 }
    }

    /// Opens one more, and says whether the limit allows it. Where it doesn't, nothing changes.
    pub fn enter(&mut self) -> bool
        ensures allowed { IsTrue result ↔ (self.old.nesting < self.old.limit) }
        ensures nesting { self.new.nesting ≡ (if result then self.old.nesting + 1 else self.old.nesting) }
        ensures limit { self.new.limit ≡ self.old.limit }
        ensures most { self.new.nesting ≤ self.new.limit }
    {
        if self.nesting < self.limit {
            self.nesting += 1;
            true
        } else {
            false
        }
    }

    /// Closes what was opened last.
    pub fn leave(&mut self)
        requires { 0 < self.old.nesting }
        ensures nesting { self.new.nesting + 1 ≡ self.old.nesting }
        ensures limit { self.new.limit ≡ self.old.limit }
    {
        self.nesting -= 1;
    }
}
