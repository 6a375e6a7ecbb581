// What goes out for one block or one mark, in one piece.

ghost use Rattle.std.specs.Prelude.{◌≡◌, IfOk, map};
ghost use Rattle.mz_value.specs.Contents.{content};
ghost use Rattle.mz_print_stream.specs.Printing.{AreTaken, block_lines, lacks_newline, mark_line, with_newline};
ghost use Rattle.mz_print_stream.specs.StepsDrain.{CountsSent, Sends, SendsBlock};

use crate::printed::Printed;
use crate::printer::Printer;
use mz_base::{Memory, Stop};
use mz_io::{Sent, Sink};
use mz_value::Assign;
use soln_reader::Mark;
use std::alloc::Global;

fn send<S: Sink>(out: &mut S, bytes: &[u8]) -> Result<(), Printed>
    ensures sends { Sends bytes.now (S.held out.old) (S.held out.new) result }
    ensures counted { CountsSent (S.counts out.old) (S.counts out.new) result }
{
    match out.put(bytes) {
        Sent::All => Ok(()),
        Sent::Failed => Err(Printed::WriteFault),
        Sent::Memory => Err(Printed::Memory),
    }
}

fn lacks_newline(text: &[u8]) -> bool
    ensures { result ≡ lacks_newline text.now }
{
    !text.is_empty() && text[text.len() - 1] != b'\n'
}

fn with_newline(text: Vec<u8>) -> Result<Vec<u8>, Memory>
    ensures { IfOk result (λ lines. lines.items ≡ with_newline text.items) }
{
    let mut lines = text;
    if lacks_newline(lines.as_slice()) {
        lines.push(b'\n')?;
    }
    Ok(lines)
}

fn block_lines(text: Vec<u8>) -> Result<Vec<u8>, Memory>
    ensures { IfOk result (λ lines. lines.items ≡ block_lines text.items) }
{
    let mut lines = with_newline(text)?;
    lines.extend_from_slice(b"----------\n")?;
    Ok(lines)
}

fn mark_line(mark: Mark) -> &'static [u8]
    ensures { result.now ≡ mark_line mark }
{
    match mark {
        Mark::Complete => b"==========\n",
        Mark::Unsatisfiable => b"=====UNSATISFIABLE=====\n",
        Mark::Unknown => b"=====UNKNOWN=====\n",
        Mark::Unbounded => b"=====UNBOUNDED=====\n",
        Mark::UnsatOrUnbounded => b"=====UNSATorUNBOUNDED=====\n",
        Mark::Error => b"=====ERROR=====\n",
    }
}

/// Writes a mark.
pub fn send_mark<S: Sink>(out: &mut S, mark: Mark) -> Result<(), Printed>
    ensures sends { Sends (mark_line mark) (S.held out.old) (S.held out.new) result }
    ensures counted { CountsSent (S.counts out.old) (S.counts out.new) result }
{
    send(out, mark_line(mark))
}

/// Writes the block with this number, from 1, of which a printer makes the text.
pub fn send_block<P: Printer, S: Sink>(
    alloc: Global,
    printer: &P,
    assign: &Assign,
    block: u64,
    out: &mut S,
) -> Result<(), Printed>
    requires { AreTaken (P.takes printer.now) (map content assign.now.values.items) }
    ensures sends { SendsBlock (P.texts printer.now (map content assign.now.values.items) block) (S.held out.old) (S.held out.new) result }
    ensures counted { CountsSent (S.counts out.old) (S.counts out.new) result }
{
    let text = match printer.text(alloc, assign, block) {
        Ok(text) => text,
        Err(Stop::Refused(fault)) => return Err(Printed::Refused(fault)),
        Err(Stop::Memory) => return Err(Printed::Memory),
    };
    match block_lines(text) {
        Ok(lines) => send(out, lines.as_slice()),
        Err(Memory) => Err(Printed::Memory),
    }
}
