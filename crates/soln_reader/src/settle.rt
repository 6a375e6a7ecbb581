// What a reader answers where a walk over lines ends.

ghost use Rattle.std.specs.Prelude.{◌≡◌, None, Some};
ghost use Rattle.soln_reader.specs.Reader.{bad_line};
ghost use Rattle.soln_reader.specs.StepsSettle.{RunsOut, Settles, IsSeen};
ghost use Rattle.soln_reader.specs.Views.{block_of};

use crate::block::Given;
use crate::next::Next;
use crate::walk::Stop;
use mz_base::{Fault, Kind, Span};

/// The number of the solver's stream, where a place has a file's number.
const STREAM: u64 = u64::MAX;

/// A bad line's fault.
pub(crate) fn bad_line(line: u32) -> Fault
    ensures { result ≡ bad_line line }
{
    Fault {
        kind: Kind::BadSolution,
        span: Span {
            file: STREAM,
            line,
            col: 1,
            byte: 0,
        },
        number: i128::from(line),
    }
}

impl Stop {
    /// How many of the bytes that are left are known to have no newline.
    pub(crate) fn seen(&self, left: usize) -> usize
        ensures { IsSeen self.now left result }
    {
        match self {
            Stop::NoLine => left,
            Stop::Solved(_) => 0,
            Stop::Marked(_) => 0,
            Stop::Bad => 0,
            Stop::Memory => 0,
        }
    }
}

/// The answer Bad, after which no block is open.
fn fail(lines: u32, block: &mut Option<Vec<Given>>, bad: &mut Option<u32>) -> Next
    ensures answer { result ≡ Next.Bad (bad_line lines) }
    ensures block { block_of block.new ≡ None }
    ensures bad { bad.new ≡ Some lines }
{
    *block = None;
    *bad = Some(lines);
    Next::Bad(bad_line(lines))
}

/// The answer where no whole line is left.
fn run_out(ended: bool, lines: u32, block: &mut Option<Vec<Given>>, bad: &mut Option<u32>) -> Next
    requires { bad.old ≡ None }
    ensures { RunsOut ended (block_of block.old) lines result (block_of block.new) bad.new }
{
    if !ended {
        return Next::Need;
    }
    match block {
        None => Next::End,
        Some(_) => fail(lines, block, bad),
    }
}

/// The answer, before which this many lines stand.
pub(crate) fn settle(
    stop: Stop,
    ended: bool,
    lines: u32,
    block: &mut Option<Vec<Given>>,
    bad: &mut Option<u32>,
) -> Next
    requires { bad.old ≡ None }
    ensures { Settles ended stop lines (block_of block.old) result (block_of block.new) bad.new }
{
    match stop {
        Stop::Solved(a) => {
            *block = None;
            Next::Block(a)
        }
        Stop::Marked(m) => {
            *block = None;
            Next::Mark(m)
        }
        Stop::Bad => fail(lines, block, bad),
        Stop::NoLine => run_out(ended, lines, block, bad),
        Stop::Memory => Next::Memory,
    }
}
