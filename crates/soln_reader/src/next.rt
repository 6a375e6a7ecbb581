// What a reader answers.

use mz_base::Fault;
use mz_value::Assign;

/// What a solver says of its search, in a line of its own.
#[derive(Clone, Copy, Debug, PartialEq, Eq)]
pub enum Mark {
    /// `==========`: all solutions were given, or the last one is the best.
    Complete,
    /// `=====UNSATISFIABLE=====`
    Unsatisfiable,
    /// `=====UNKNOWN=====`
    Unknown,
    /// `=====UNBOUNDED=====`
    Unbounded,
    /// `=====UNSATorUNBOUNDED=====`
    UnsatOrUnbounded,
    /// `=====ERROR=====`
    Error,
}

/// What stands next in a solver's stream.
#[derive(Debug, Drop)]
pub enum Next {
    /// A whole block: a value for each shape.
    Block(Assign),
    /// A mark.
    Mark(Mark),
    /// The bytes so far have no further block, mark or bad line; more have to come.
    Need,
    /// The stream is read to its end, and no block is open.
    End,
    /// The first line that isn't part of a solution, of kind `BadSolution`.
    Bad(Fault),
    /// Out of memory.
    Memory,
}
