// What a line says.

ghost use Rattle.std.specs.Prelude.{◌≡◌, ◌<◌, ◌≤◌, Some, None, length};
ghost use Rattle.std.specs.Str.{bytes_eq};
ghost use Rattle.fz_items.specs.Forms.{forms, outputs_from};
ghost use Rattle.soln_reader.specs.Stream.{line_len, chopped, mark_of, is_skipped, ends_block, at_block_end, at_item, at_mark, outcome};
ghost use Rattle.soln_reader.specs.Blocks.{solution, given_in};
ghost use Rattle.fz_items.specs.Items.{item_of};
ghost use Rattle.fz_items.specs.Tables.{Finds};
ghost use Rattle.soln_reader.specs.StepsLines.{SaysThere};
ghost use Rattle.soln_reader.specs.Views.{block_of};

use crate::block::{Given, put, solution_of};
use crate::next::Mark;
use fz_items::{Miss, Slot, Table, is_empty, read_item};
use mz_value::{Assign, Shape};
use std::alloc::Global;

/// The most bytes of a line, its newline aside: 16 MiB.
pub const LINE_LIMIT: usize = 16_777_216;

/// What a line does.
#[derive(Drop)]
pub(crate) enum Said {
    /// It leaves a block, in which it filled this slot, or none.
    Leaves(Option<Slot>),
    Block(Assign),
    Mark(Mark),
}

/// How many bytes stand before the first newline, or before the end.
pub(crate) fn line_len(bytes: &[u8]) -> usize
    ensures value { result ≡ line_len bytes.now }
    ensures within { result ≤ length bytes.now }
{
    bytes.iter().take_while(|b| **b != b'\n').count()
}

/// A line without a carriage return at its end.
pub(crate) fn chopped(line: &[u8]) -> &[u8]
    ensures { result.now ≡ chopped line.now }
{
    let n = line.len();
    if 0 < n && line[n - 1] == b'\r' {
        &line[..n - 1]
    } else {
        line
    }
}

fn is_text(line: &[u8], text: &[u8]) -> bool
    ensures { result ≡ bytes_eq line.now text.now }
{
    line == text
}

/// Whether a line says nothing.
#[tactic(auto, unfolding(crate::specs::Stream::is_skipped))]
fn is_skipped(line: &[u8]) -> bool
    ensures { result ≡ is_skipped line.now }
{
    match line {
        [b'%', ..] => true,
        _ => is_empty(line),
    }
}

#[tactic(auto, unfolding(crate::specs::Stream::ends_block))]
fn ends_block(line: &[u8]) -> bool
    ensures { result ≡ ends_block line.now }
{
    is_text(line, b"----------")
}

/// The mark that a line is.
#[tactic(auto, unfolding(crate::specs::Stream::mark_of))]
fn mark_of(line: &[u8]) -> Option<Mark>
    ensures { result ≡ mark_of line.now }
{
    if is_text(line, b"==========") {
        return Some(Mark::Complete);
    }
    if is_text(line, b"=====UNSATISFIABLE=====") {
        return Some(Mark::Unsatisfiable);
    }
    if is_text(line, b"=====UNKNOWN=====") {
        return Some(Mark::Unknown);
    }
    if is_text(line, b"=====UNBOUNDED=====") {
        return Some(Mark::Unbounded);
    }
    if is_text(line, b"=====UNSATorUNBOUNDED=====") {
        return Some(Mark::UnsatOrUnbounded);
    }
    if is_text(line, b"=====ERROR=====") {
        return Some(Mark::Error);
    }
    None
}

/// What the end of a block does.
fn at_block_end(alloc: Global, shapes: &[Shape], block: &Option<Vec<Given>>) -> Result<Said, Miss>
    ensures { SaysThere (block_of block.now) (block_of block.now) result (at_block_end (solution (forms shapes.now) (given_in (forms shapes.now) (block_of block.now)))) }
{
    match solution_of(alloc, shapes, block) {
        Ok(values) => Ok(Said::Block(Assign { values })),
        Err(miss) => Err(miss),
    }
}

/// What a line that is no mark does.
fn at_item(
    alloc: Global,
    shapes: &[Shape],
    table: &Table,
    block: &mut Option<Vec<Given>>,
    line: &[u8],
) -> Result<Said, Miss>
    requires { Finds table.now (outputs_from 0 (forms shapes.now)) }
    ensures { SaysThere (block_of block.old) (block_of block.new) result (at_item (given_in (forms shapes.now) (block_of block.old)) (item_of (forms shapes.now) line.now)) }
{
    match read_item(alloc, shapes, table, line) {
        Ok((slot, e)) => match put(alloc, shapes, slot, e, block) {
            Ok(()) => Ok(Said::Leaves(Some(slot))),
            Err(miss) => Err(miss),
        },
        Err(miss) => Err(miss),
    }
}

/// What a mark does.
fn at_mark(block: &Option<Vec<Given>>, mark: Mark) -> Result<Said, Miss>
    ensures { SaysThere (block_of block.now) (block_of block.now) result (at_mark (block_of block.now) mark) }
{
    match block {
        None => Ok(Said::Mark(mark)),
        Some(_) => Err(Miss::Unfit),
    }
}

/// What a line does where a block stands, by its bytes without the newline.
#[tactic(auto, unfolding(crate::specs::Stream::outcome))]
pub(crate) fn says(
    alloc: Global,
    shapes: &[Shape],
    table: &Table,
    block: &mut Option<Vec<Given>>,
    line: &[u8],
) -> Result<Said, Miss>
    requires { Finds table.now (outputs_from 0 (forms shapes.now)) }
    ensures { SaysThere (block_of block.old) (block_of block.new) result (outcome (forms shapes.now) (block_of block.old) line.now) }
{
    if is_skipped(line) {
        return Ok(Said::Leaves(None));
    }
    if ends_block(line) {
        return at_block_end(alloc, shapes, block);
    }
    match mark_of(line) {
        Some(mark) => at_mark(block, mark),
        None => at_item(alloc, shapes, table, block, line),
    }
}
