// The line that a run writes to its notes.

ghost use Rattle.std.specs.Prelude.{◌++◌, codes};
ghost use Rattle.std.specs.List.{flat_map};
ghost use Rattle.mz_tool.specs.Status.{IsLineNoted, Notes, refusal_line, now};

use crate::status::Status;
use itoa::Buffer;
use mz_base::Fault;
use mz_io::{Sent, Sink};

/// Puts pieces one after the other, up to the first that doesn't go out.
fn put_pieces<E: Sink>(notes: &mut E, pieces: &[&[u8]])
    ensures { Notes (E.held notes.old) (E.held notes.new) (E.counts notes.old) (E.counts notes.new) (flat_map now pieces.now) }
{
    for piece in pieces {
        match notes.put(piece) {
            Sent::All => {}
            Sent::Failed => return,
            Sent::Memory => return,
        }
    }
}

/// Puts the line of a refusal whose parts are printed; `gap` stands before the number.
fn put_line<'a, E: Sink>(
    notes: &mut E,
    file: &'a [u8],
    line: &'a [u8],
    col: &'a [u8],
    kind: &'a [u8],
    gap: &'a [u8],
    number: &'a [u8],
)
    ensures { Notes (E.held notes.old) (E.held notes.new) (E.counts notes.old) (E.counts notes.new)
        (file.now ++ codes ":" ++ line.now ++ codes ":" ++ col.now ++ codes ": " ++ kind.now ++ (gap.now ++ number.now) ++ codes "\n") }
{
    put_pieces(
        notes,
        &[file, b":", line, b":", col, b": ", kind, gap, number, b"\n"],
    )
}

/// Puts the line of a refusal.
fn put_refusal<E: Sink>(notes: &mut E, file: &str, fault: Fault)
    ensures { Notes (E.held notes.old) (E.held notes.new) (E.counts notes.old) (E.counts notes.new) (refusal_line file.now fault) }
{
    let mut line = Buffer::new();
    let mut col = Buffer::new();
    let mut number = Buffer::new();
    let line = line.format(fault.span.line).as_bytes();
    let col = col.format(fault.span.col).as_bytes();
    let kind = fault.kind.name().as_bytes();
    if fault.kind.shows_number() {
        let number = number.format(fault.number).as_bytes();
        put_line(notes, file.as_bytes(), line, col, kind, b" ", number);
    } else {
        put_line(notes, file.as_bytes(), line, col, kind, b"", b"");
    }
}

/// Puts the line of an answer, which names this file; none after Done.
pub fn note<E: Sink>(notes: &mut E, file: &str, status: Status)
    ensures { IsLineNoted (E.held notes.old) (E.held notes.new) (E.counts notes.old) (E.counts notes.new) file.now status }
{
    match status {
        Status::Done => {}
        Status::Refused(fault) => put_refusal(notes, file, fault),
        Status::Usage => put_pieces(
            notes,
            &[
                b"usage: mzc compile|check|print MODEL [DATA ...] [--budget N] [--int-range N] | mzc make N\n",
            ],
        ),
        Status::ReadFault => put_pieces(notes, &[b"mzc: read fault\n"]),
        Status::WriteFault => put_pieces(notes, &[b"mzc: write fault\n"]),
        Status::Memory => put_pieces(notes, &[b"mzc: out of memory\n"]),
    }
}
