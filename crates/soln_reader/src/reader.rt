// The reader of a solver's stream.

ghost use Rattle.std.specs.Prelude.{◌≡◌, ◌<◌, ◌≤◌, ◌+◌, ◌++◌, ◌^◌, length, drop, vec_len, OnOk, OnErr};
ghost use Rattle.soln_reader.specs.StepsReader.{FitsShapes};

use crate::block::Given;
use crate::next::Next;
use crate::settle::{bad_line, settle};
use crate::walk::walk_lines;
use fz_items::{Table, table_of};
use mz_base::Memory;
use mz_value::Shape;
use std::alloc::Global;
use std::marker::Model;

/// Reads what a solver writes, in whatever pieces it comes, into solutions and marks.
///
/// Contracts see it as what it holds: the bytes that were fed and not yet answered, how many lines stand before them,
/// what the items of the open block gave, and the bad line that it answered, if it did.
#[derive(Drop)]
pub struct SolnReader {
    alloc: Global,
    shapes: Vec<Shape>,
    /// The output names, from the first call of `next` on.
    table: Option<Table>,
    /// The bytes, of which the first `start` are answered.
    bytes: Vec<u8>,
    start: usize,
    /// How many of the bytes after those are known to have no newline.
    seen: usize,
    lines: u32,
    block: Option<Vec<Given>>,
    bad: Option<u32>,
}

impl Model for SolnReader {
    ghost use Rattle.std.specs.Prelude.{drop};
    ghost use Rattle.soln_reader.specs.Holding.{Holding};
    ghost use Rattle.soln_reader.specs.StepsReader.{IsSound};

    ghost Value = { Holding };

    ghost view = { λ r. record { shapes = r.shapes.items; bytes = drop r.start r.bytes.items; lines = r.lines; given = r.block; bad = r.bad } };

    ghost invariant = { λ r. IsSound r.shapes.items r.table r.bytes.items r.start r.seen r.lines };
}

/// Lets go of the bytes before `start`, where they are half of all or more.
fn compact(alloc: Global, bytes: &mut Vec<u8>, start: &mut usize) -> Result<(), Memory>
    requires { start.old ≤ vec_len bytes.old }
    ensures same { drop start.new bytes.new.items ≡ drop start.old bytes.old.items }
    ensures within { start.new ≤ vec_len bytes.new }
{
    let left = bytes.len() - *start;
    if *start == 0 || *start < left {
        return Ok(());
    }
    let rest = Vec::from_slice(alloc, &bytes[*start..])?;
    *bytes = rest;
    *start = 0;
    Ok(())
}

/// Puts bytes last, after what is left from `start` on.
fn append(alloc: Global, bytes: &mut Vec<u8>, start: &mut usize, piece: &[u8]) -> Result<(), Memory>
    requires { start.old ≤ vec_len bytes.old }
    ensures ok { OnOk result (drop start.new bytes.new.items ≡ drop start.old bytes.old.items ++ piece.now) }
    ensures err { OnErr result (drop start.new bytes.new.items ≡ drop start.old bytes.old.items) }
    ensures within { start.new ≤ vec_len bytes.new }
{
    compact(alloc, bytes, start)?;
    bytes.extend_from_slice(piece)?;
    Ok(())
}

/// Makes the table of output names, where it isn't there yet and memory allows.
fn prepare(alloc: Global, shapes: &[Shape], table: &mut Option<Table>)
    requires { FitsShapes shapes.now table.old }
    ensures { FitsShapes shapes.now table.new }
{
    if table.is_none() {
        if let Ok(made) = table_of(alloc, shapes) {
            *table = Some(made);
        }
    }
}

impl SolnReader {
    ghost use Rattle.soln_reader.specs.Holding.{nothing_held};
    ghost use Rattle.soln_reader.specs.Reader.{Answers};
    ghost use Rattle.soln_reader.specs.Views.{state};

    /// A reader of blocks of these shapes, to which nothing was fed.
    ///
    /// A shape has one domain for each element, in the items' order; a truth value counts as 0 or 1 there. Where two
    /// output names are equal, the first one's shape counts.
    pub fn new(alloc: Global, shapes: Vec<Shape>) -> SolnReader
        ensures { result ≡ nothing_held shapes.items }
    {
        SolnReader {
            alloc,
            shapes,
            table: None,
            bytes: Vec::new(alloc),
            start: 0,
            seen: 0,
            lines: 0,
            block: None,
            bad: None,
        }
    }

    /// Appends the next piece of the stream. After `Memory` the reader is unchanged.
    pub fn feed(&mut self, piece: &[u8]) -> Result<(), Memory>
        requires { self.old.lines + length self.old.bytes + length piece.now < 2 ^ 32 }
        ensures ok { OnOk result (self.new ≡ record self.old { bytes = self.old.bytes ++ piece.now }) }
        ensures err { OnErr result (self.new ≡ self.old) }
    {
        append(self.alloc, &mut self.bytes, &mut self.start, piece)
    }

    /// What stands next in the stream; `ended` says that no more bytes come.
    ///
    /// The lines up to there are taken out. After `Bad` each call answers the same. After `Memory` the reader is
    /// unchanged.
    pub fn next(&mut self, ended: bool) -> Next
        ensures answers { Answers ended (state self.old) result (state self.new) }
        // A line has a byte or more, so that a caller can count what may be fed.
        ensures few { self.new.lines + length self.new.bytes ≤ self.old.lines + length self.old.bytes }
    {
        if let Some(n) = self.bad {
            return Next::Bad(bad_line(n));
        }
        prepare(self.alloc, &self.shapes, &mut self.table);
        let Some(table) = &self.table else {
            return Next::Memory;
        };
        let found = walk_lines(
            self.alloc,
            &self.shapes,
            table,
            ended,
            &self.bytes[self.start..],
            self.seen,
            self.lines,
            &mut self.block,
        );
        self.start += found.taken;
        self.lines = found.lines;
        let left = self.bytes.len() - self.start;
        self.seen = found.stop.seen(left);
        settle(
            found.stop,
            ended,
            self.lines,
            &mut self.block,
            &mut self.bad,
        )
    }
}
