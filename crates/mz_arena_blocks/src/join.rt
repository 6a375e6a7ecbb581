// What elements have together.

use std::alloc::{AllocError, Global};

/// What several elements have together is of their own kind: of intervals their hull, of sets their
/// union.
pub trait Join: Drop {
    ghost use Rattle.std.specs.Prelude.{◌≡◌, IfOk};

    // What an element is, what is asked of one, and what two have together.
    ghost Seen: { Type 0 };

    ghost seen: { Self → Seen };

    ghost fits: { Seen → Type 0 };

    ghost joined: { Seen → Seen → Seen };

    /// What this element and another have together.
    fn join(&self, alloc: Global, other: &Self) -> Result<Self, AllocError>
        requires first { fits (seen self.now) }
        requires second { fits (seen other.now) }
        ensures { IfOk result (λ r. seen r ≡ joined (seen self.now) (seen other.now)) };

    /// This element once more.
    fn copied(&self, alloc: Global) -> Result<Self, AllocError>
        ensures { IfOk result (λ r. seen r ≡ seen self.now) };

    ghost fit: { (a b : Seen) → fits a → fits b → fits (joined a b) };

    ghost associative: { (a b c : Seen) → fits a → fits b → fits c → joined (joined a b) c ≡ joined a (joined b c) };
}
