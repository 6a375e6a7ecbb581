// Guards.

use mz_arena::Id;

/// Whether all that is declared holds.
#[derive(Clone, Copy)]
pub enum Guard {
    /// Par cells alone tell it.
    Par(bool),
    /// It holds where this Boolean node is true.
    Open(Id),
}
