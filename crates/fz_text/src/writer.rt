// How a FlatZinc program is written to a sink.

ghost use Rattle.fz_program.specs.Flat.{WellFormed, program};
ghost use Rattle.fz_text.specs.Spelling.{spelling};
ghost use Rattle.fz_text.specs.Writing.{Writes, WriteCounts};

use crate::text;
use fz_program::FzProgram;
use mz_io::{Sent, Sink};
use std::alloc::Global;

/// What writing a program answers.
#[derive(Clone, Copy, Debug, PartialEq, Eq)]
pub enum Wrote {
    /// The whole text went out.
    All,
    /// A prefix of the text may have gone out, and no more can.
    Failed,
    /// Memory ran out; no byte went out.
    Memory,
}

/// Writes the program's one spelling with one put: a line for each variable, each array, each
/// constraint and the solve item, in the order of the program, as the FlatZinc chapter of the MiniZinc Handbook has them.
/// `well_formed` of `fz_program` tests what is required.
///
/// After `Failed` the sink holds what it held and a prefix of the text, after `Memory` what it held.
pub fn write<S: Sink>(alloc: Global, p: &FzProgram, out: &mut S) -> Wrote
    requires { WellFormed (program p.now) }
    ensures told { Writes (S.held out.old) (S.held out.new) (spelling (program p.now)) result }
    ensures counted { WriteCounts (S.counts out.old) (S.counts out.new) result }
{
    match text(alloc, p) {
        Ok(bytes) => match out.put(bytes.as_slice()) {
            Sent::All => Wrote::All,
            Sent::Failed => Wrote::Failed,
            Sent::Memory => Wrote::Memory,
        },
        Err(_) => Wrote::Memory,
    }
}
