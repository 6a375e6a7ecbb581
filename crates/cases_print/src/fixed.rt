// A printer of the same text for each block.

use mz_base::{Fault, Kind, Memory, Span, Stop};
use mz_print_stream::Printer;
use mz_value::Assign;
use std::alloc::Global;

/// Prints the same text for each block, but refuses the block with this number.
#[derive(Drop)]
pub struct Fixed {
    pub text: Vec<u8>,
    pub refused: u64,
}

impl Fixed {
    /// A printer of this text; 0 refuses no block.
    pub fn new(alloc: Global, text: &str, refused: u64) -> Result<Fixed, Memory> {
        let text = Vec::from_slice(alloc, text.as_bytes())?;
        Ok(Fixed { text, refused })
    }
}

impl Printer for Fixed {
    ghost use Rattle.std.specs.Prelude.{nat_eq, if◌then◌else◌};
    ghost use Rattle.mz_base.specs.declared.kind.Kind.TheVariants.{OutputUndefined};
    ghost use Rattle.mz_base.specs.Faults.{fault_at, start_of};
    ghost use Rattle.mz_print_stream.specs.Printing.{says, refuses};

    ghost takes = { λ _ _. Unit {0} };

    ghost texts = { λ s _ n. if nat_eq n s.refused then refuses (fault_at OutputUndefined (start_of 0)) else says s.text.items };

    fn text(&self, alloc: Global, _assign: &Assign, block: u64) -> Result<Vec<u8>, Stop> {
        if block == self.refused {
            return Err(Stop::Refused(Fault::at(Kind::OutputUndefined, Span::start(0))));
        }
        Ok(Vec::from_slice(alloc, &self.text)?)
    }
}
