// Presences.

use mz_arena::Id;

/// Whether an element of a comprehension occurs.
#[derive(Clone, Copy)]
pub enum Presence {
    /// It surely does.
    Always,
    /// It does where this Boolean node is true.
    Where(Id),
}
