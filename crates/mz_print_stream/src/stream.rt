// A stream, printed piece by piece.

ghost use Rattle.std.specs.Prelude.{◌≡◌, ◌<◌, ◌^◌};
ghost use Rattle.fz_items.specs.Forms.{forms};
ghost use Rattle.mz_print_stream.specs.Printing.{too_long};
ghost use Rattle.mz_print_stream.specs.Promises.{CountsIn, CountsOut, Promises};

use crate::drain::{drain, print_piece};
use crate::printed::Printed;
use crate::printer::Printer;
use mz_base::{Fault, Kind, Span};
use mz_io::{Sink, Source, Took};
use mz_value::Shape;
use soln_reader::SolnReader;
use std::alloc::Global;

/// The most bytes that are taken at once.
pub const PIECE: usize = 65_536;

// A stream of more bytes than its limit.
fn too_long() -> Fault
    ensures { result ≡ too_long }
{
    Fault {
        kind: Kind::TooLong,
        span: Span {
            file: u64::MAX,
            line: 1,
            col: 1,
            byte: 0,
        },
        number: 0,
    }
}

/// Prints a solver's stream of at most `limit` bytes: for each block the printer's text, a newline where the text isn't
/// empty and lacks one, and the line `----------`; and each mark on a line.
///
/// All that the bytes taken give is written before more bytes are taken, and the memory held doesn't grow with the number
/// of blocks. Refused are the first bad line, a text that the printer refuses, and a stream that has more bytes than the
/// limit, whichever comes first. The printer makes texts of these shapes' values.
pub fn print_stream<P: Printer, I: Source, S: Sink>(
    alloc: Global,
    shapes: Vec<Shape>,
    limit: u64,
    printer: &P,
    input: &mut I,
    out: &mut S,
) -> Printed
    requires limit { limit < 2 ^ 32 }
    requires shapes { P.takes printer.now (forms shapes.items) }
    ensures printed { Promises (P.texts printer.now) (forms shapes.items) limit (I.left input.old) (I.left input.new) (S.held out.old) (S.held out.new) result }
    ensures counted { CountsIn (I.faults input.old) (I.faults input.new) result }
    ensures counted_out { CountsOut (S.counts out.old) (S.counts out.new) result }
{
    let Ok(mut buffer) = vec![in alloc; 0u8; PIECE] else {
        return Printed::Memory;
    };
    let mut reader = SolnReader::new(alloc, shapes);
    let mut blocks = 0;
    let mut room = limit;
    'pieces: loop {
        let n = match input.take(buffer.as_mut_slice()) {
            Took::Some(n) => n,
            Took::End => {
                return match drain(alloc, &mut reader, true, printer, &mut blocks, out) {
                    Ok(()) => Printed::Done,
                    Err(end) => end,
                };
            }
            Took::Failed => return Printed::ReadFault,
        };
        let within = (n as u64).min(room) as usize;
        let piece = &buffer.as_slice()[..within];
        if let Err(end) = print_piece(alloc, &mut reader, piece, printer, &mut blocks, out) {
            return end;
        }
        room -= within as u64;
        if within < n {
            return Printed::Refused(too_long());
        }
    }
}
