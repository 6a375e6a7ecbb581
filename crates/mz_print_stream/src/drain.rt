// What the bytes of a reader give, written.

ghost use Rattle.std.specs.Prelude.{◌+◌, ◌<◌, ◌^◌, OnOk, false, length};
ghost use Rattle.soln_reader.specs.Reader.{fed};
ghost use Rattle.soln_reader.specs.Views.{state};
ghost use Rattle.mz_print_stream.specs.StepsDrain.{CountsSent, Drains, IsFew, IsReady};

use crate::printed::Printed;
use crate::printer::Printer;
use crate::send::{send_block, send_mark};
use mz_io::Sink;
use soln_reader::{Next, SolnReader};
use std::alloc::Global;

/// Writes each block and mark that a reader's bytes give, where so many blocks stand before them.
pub fn drain<P: Printer, S: Sink>(
    alloc: Global,
    reader: &mut SolnReader,
    ended: bool,
    printer: &P,
    blocks: &mut u64,
    out: &mut S,
) -> Result<(), Printed>
    requires few_blocks { blocks.old + length reader.old.bytes < 2 ^ 63 }
    requires ready { IsReady (P.takes printer.now) (state reader.old) }
    ensures drains { Drains (P.texts printer.now) ended (state reader.old) blocks.old (S.held out.old) (state reader.new) blocks.new (S.held out.new) result }
    ensures few { IsFew (state reader.old) blocks.old (state reader.new) blocks.new }
    ensures counted { CountsSent (S.counts out.old) (S.counts out.new) result }
    ensures ready { OnOk result (IsReady (P.takes printer.now) (state reader.new)) }
{
    'events: loop {
        match reader.next(ended) {
            Next::Block(assign) => {
                *blocks += 1;
                if let Err(end) = send_block(alloc, printer, &assign, *blocks, out) {
                    return Err(end);
                }
            }
            Next::Mark(mark) => {
                if let Err(end) = send_mark(out, mark) {
                    return Err(end);
                }
            }
            Next::Need => return Ok(()),
            Next::End => return Ok(()),
            Next::Bad(fault) => return Err(Printed::Refused(fault)),
            Next::Memory => return Err(Printed::Memory),
        }
    }
}

/// Feeds a piece to a reader, and writes each block and mark that its bytes then give.
pub fn print_piece<P: Printer, S: Sink>(
    alloc: Global,
    reader: &mut SolnReader,
    piece: &[u8],
    printer: &P,
    blocks: &mut u64,
    out: &mut S,
) -> Result<(), Printed>
    requires fits { reader.old.lines + length reader.old.bytes + length piece.now < 2 ^ 32 }
    requires few_blocks { blocks.old + length reader.old.bytes + length piece.now < 2 ^ 63 }
    requires ready { IsReady (P.takes printer.now) (state reader.old) }
    ensures drains { Drains (P.texts printer.now) false (fed (state reader.old) piece.now) blocks.old (S.held out.old) (state reader.new) blocks.new (S.held out.new) result }
    ensures few { IsFew (fed (state reader.old) piece.now) blocks.old (state reader.new) blocks.new }
    ensures counted { CountsSent (S.counts out.old) (S.counts out.new) result }
    ensures ready { OnOk result (IsReady (P.takes printer.now) (state reader.new)) }
{
    if reader.feed(piece).is_err() {
        return Err(Printed::Memory);
    }
    drain(alloc, reader, false, printer, blocks, out)
}
