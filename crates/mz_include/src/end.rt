// Why the files of a model aren't all read.

use mz_base::{Fault, Memory, Name};
use std::alloc::AllocFailed;

/// What ends the reading of a model's files early.
#[derive(Clone, Copy, Debug, PartialEq, Eq)]
pub enum GatherEnd {
    /// A file is refused: the fault, and the name of the file of its place.
    Refused(Fault, Name),
    /// A file can't be read.
    ReadFault,
    /// Memory ran out.
    Memory,
}

impl From<Memory> for GatherEnd {
    ghost use Rattle.std.specs.Prelude.{◌≡◌};
    ghost use Rattle.mz_include.specs.declared.end.GatherEnd.TheVariants.{Memory};

    ghost from_gives = { λ _ e. e ≡ Memory };

    fn from(_: Memory) -> GatherEnd {
        GatherEnd::Memory
    }
}

impl<T: Drop> From<AllocFailed<T>> for GatherEnd {
    ghost use Rattle.std.specs.Prelude.{◌≡◌};
    ghost use Rattle.mz_include.specs.declared.end.GatherEnd.TheVariants.{Memory};

    ghost from_gives = { λ _ e. e ≡ Memory };

    fn from(_: AllocFailed<T>) -> GatherEnd {
        GatherEnd::Memory
    }
}
