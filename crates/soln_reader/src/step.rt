// One line of the bytes that are held.

ghost use Rattle.std.specs.Prelude.{◌≡◌, ◌<◌, ◌≤◌, ◌+◌, ◌&&◌, length, Bool, nat_lt};
ghost use Rattle.fz_items.specs.Forms.{forms, outputs_from};
ghost use Rattle.soln_reader.specs.Stream.{Outcome, line_len};
ghost use Rattle.soln_reader.specs.Blocks.{Block};
ghost use Rattle.fz_items.specs.Tables.{Finds};
ghost use Rattle.soln_reader.specs.StepsLines.{SaysThere, IsStep, Steps};
ghost use Rattle.soln_reader.specs.Views.{block_of};

use crate::block::Given;
use crate::line::{LINE_LIMIT, Said, chopped, line_len, says};
use crate::next::Mark;
use fz_items::{Miss, Slot, Table};
use mz_value::{Assign, Shape};
use std::alloc::Global;

/// What the first line does, with its bytes, the newline among them.
#[derive(Drop)]
pub(crate) enum Step {
    /// It passes, and filled this slot, or none.
    Passed(Option<Slot>, usize),
    Solved(Assign, usize),
    Marked(Mark, usize),
    Bad(usize),
    /// No whole line stands there.
    NoLine,
    Memory,
}

/// What the first line of `n` bytes does, by what it says.
fn step_of(said: Result<Said, Miss>, n: usize) -> Step
    ensures { (old new : Block) (o : Outcome) → SaysThere old new said o → IsStep old new o n result }
{
    match said {
        Ok(Said::Leaves(filled)) => Step::Passed(filled, n),
        Ok(Said::Block(a)) => Step::Solved(a, n),
        Ok(Said::Mark(m)) => Step::Marked(m, n),
        Err(Miss::Unfit) => Step::Bad(n),
        Err(Miss::Memory) => Step::Memory,
    }
}

/// What the first line does, where a newline stands after its `n` bytes.
fn whole_line(
    alloc: Global,
    shapes: &[Shape],
    table: &Table,
    bytes: &[u8],
    n: usize,
    block: &mut Option<Vec<Given>>,
) -> Step
    requires table { Finds table.now (outputs_from 0 (forms shapes.now)) }
    requires line { n ≡ line_len bytes.now }
    requires newline { n < length bytes.now }
    ensures { (ended : Bool) → Steps (forms shapes.now) ended (block_of block.old) (block_of block.new) bytes.now result }
{
    if LINE_LIMIT < n {
        return Step::Bad(n + 1);
    }
    let said = says(alloc, shapes, table, block, chopped(&bytes[..n]));
    step_of(said, n + 1)
}

/// Whether bytes are a last line.
fn is_last(ended: bool, n: usize) -> bool
    ensures { result ≡ (ended && nat_lt 0 n) }
{
    ended && 0 < n
}

/// What the first line does, where no newline stands.
fn partial_line(
    alloc: Global,
    shapes: &[Shape],
    table: &Table,
    ended: bool,
    bytes: &[u8],
    block: &mut Option<Vec<Given>>,
) -> Step
    requires table { Finds table.now (outputs_from 0 (forms shapes.now)) }
    requires line { length bytes.now ≡ line_len bytes.now }
    ensures { Steps (forms shapes.now) ended (block_of block.old) (block_of block.new) bytes.now result }
{
    let n = bytes.len();
    if LINE_LIMIT < n {
        return Step::Bad(n);
    }
    if is_last(ended, n) {
        let said = says(alloc, shapes, table, block, bytes);
        return step_of(said, n);
    }
    Step::NoLine
}

/// What the first line does. The first `seen` bytes are known to have no newline.
pub(crate) fn first_step(
    alloc: Global,
    shapes: &[Shape],
    table: &Table,
    ended: bool,
    bytes: &[u8],
    seen: usize,
    block: &mut Option<Vec<Given>>,
) -> Step
    requires table { Finds table.now (outputs_from 0 (forms shapes.now)) }
    requires seen { seen ≤ line_len bytes.now }
    ensures { Steps (forms shapes.now) ended (block_of block.old) (block_of block.new) bytes.now result }
{
    let n = line_len_from(bytes, seen);
    if n < bytes.len() {
        whole_line(alloc, shapes, table, bytes, n, block)
    } else {
        partial_line(alloc, shapes, table, ended, bytes, block)
    }
}

/// How many bytes stand before the first newline, where the first `seen` bytes have none.
fn line_len_from(bytes: &[u8], seen: usize) -> usize
    requires seen { seen ≤ line_len bytes.now }
    requires room { seen ≤ length bytes.now }
    ensures value { result ≡ line_len bytes.now }
    ensures within { result ≤ length bytes.now }
{
    seen + line_len(&bytes[seen..])
}
