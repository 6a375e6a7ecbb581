// Why something isn't read.

use std::alloc::{AllocError, AllocFailed};

/// What isn't read: a line that doesn't fit, or one for which memory ran out.
#[derive(Clone, Copy, Debug)]
pub enum Miss {
    /// The bytes have no such form, or the value lies outside its domain.
    Unfit,
    /// Out of memory.
    Memory,
}

impl From<AllocError> for Miss {
    ghost use Rattle.std.specs.Prelude.{◌≡◌};
    ghost use Rattle.fz_items.specs.declared.miss.Miss.TheVariants.{Memory};

    ghost from_gives = { λ _ e. e ≡ Memory };

    fn from(_: AllocError) -> Miss {
        Miss::Memory
    }
}

impl<T: Drop> From<AllocFailed<T>> for Miss {
    ghost use Rattle.std.specs.Prelude.{◌≡◌};
    ghost use Rattle.fz_items.specs.declared.miss.Miss.TheVariants.{Memory};

    ghost from_gives = { λ _ e. e ≡ Memory };

    fn from(_: AllocFailed<T>) -> Miss {
        Miss::Memory
    }
}
