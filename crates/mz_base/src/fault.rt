// Where in the input something stands, and what is refused there.

ghost use Rattle.std.specs.Prelude.{◌≡◌};
ghost use Rattle.mz_base.specs.Faults.{start_of, fault_at};

use crate::kind::Kind;

/// A place in a file, or in the solver's stream.
///
/// `file` is the file's turn, from 0, in the order in which files are read; `u64::MAX` is the
/// solver's stream. `line` counts from 1, `col` counts bytes from 1, and `byte` counts bytes
/// from 0 over the whole file.
#[derive(Clone, Copy, Debug, PartialEq, Eq)]
pub struct Span {
    pub file: u64,
    pub line: u32,
    pub col: u32,
    pub byte: u64,
}

/// A refusal: its kind, its place, and the number that goes with some kinds, else 0.
#[derive(Clone, Copy, Debug, PartialEq, Eq)]
pub struct Fault {
    pub kind: Kind,
    pub span: Span,
    pub number: i128,
}

impl Span {
    /// Where a file begins: line 1, column 1, byte 0.
    pub fn start(file: u64) -> Span
        ensures { result ≡ start_of file }
    {
        Span {
            file,
            line: 1,
            col: 1,
            byte: 0,
        }
    }
}

impl Fault {
    /// A refusal whose kind has no number.
    pub fn at(kind: Kind, span: Span) -> Fault
        ensures { result ≡ fault_at kind span }
    {
        Fault {
            kind,
            span,
            number: 0,
        }
    }
}
