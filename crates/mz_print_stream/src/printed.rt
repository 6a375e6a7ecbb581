// How the printing of a stream ends.

use mz_base::Fault;

/// How the printing of a stream ends.
#[derive(Clone, Copy, Debug, PartialEq, Eq)]
pub enum Printed {
    /// The stream was read to its end, and all of it is written.
    Done,
    /// A line is bad, a text is refused, or the stream is too long; all that stands before is written.
    Refused(Fault),
    /// The source failed; all that was taken before is written.
    ReadFault,
    /// The sink failed.
    WriteFault,
    /// Out of memory.
    Memory,
}
