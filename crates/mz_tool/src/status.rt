// What a run answers.

use mz_base::Fault;

/// What a run answers: 0 to 5 is the program's exit status, in this order.
#[derive(Clone, Copy, Debug, PartialEq, Eq)]
pub enum Status {
    /// All went well.
    Done,
    /// The input is refused.
    Refused(Fault),
    /// The words are no command.
    Usage,
    /// A file can't be read.
    ReadFault,
    /// The output can't be written.
    WriteFault,
    /// Memory ran out.
    Memory,
}
