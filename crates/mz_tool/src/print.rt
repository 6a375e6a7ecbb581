// A solver's stream of a model's solutions, printed.

ghost use Rattle.std.specs.Prelude.{◌≡◌, ◌<◌, ℕ, List, IfOk, length};
ghost use Rattle.mz_core.specs.Program.{plain_program};
ghost use Rattle.mz_include.specs.Ends.{IfRefused, OnReadFault};
ghost use Rattle.mz_words.specs.Requests.{IsWithinLimits, print, settings};
ghost use Rattle.mz_analysis.specs.Analysis.{IsRead};
ghost use Rattle.mz_print_model.specs.Given.{IsTaken, solution_texts};
ghost use Rattle.mz_print_model.specs.Printing.{IsPrinting};
ghost use Rattle.mz_print_stream.specs.Promises.{CountsIn, CountsOut as CountsPut, Promises};
ghost use Rattle.fz_items.specs.Forms.{forms};
ghost use Rattle.mz_tool.specs.Headline.{limits_of};
ghost use Rattle.mz_tool.specs.Status.{CountsInput, CountsOut, CountsRead};
ghost use Rattle.mz_tool.specs.StepsChecking.{HasProgram, IsNamedRefusal};
ghost use Rattle.mz_tool.specs.StepsEnding.{IsNamedEnd, IsNamedOwner, status_of};
ghost use Rattle.mz_tool.specs.StepsPrinting.{IsEndOf, IsStreamOwner, PrintedEnd, PrintsChecked, RefusedEnd};

use crate::checking::{Checked, checked_model, stopped};
use crate::end::{End, Owner, failed};
use mz_analysis::file_name;
use mz_base::{Fault, Names};
use mz_include::GatherEnd;
use mz_include::with_data::SourcesWithData;
use mz_io::{Files, Sink, Source};
use mz_print_model::{SolutionPrinting, printing};
use mz_print_stream::{Printed, print_stream};
use mz_words::Options;
use std::alloc::Global;

/// The most bytes that a solver's stream may have.
pub const STREAM_LIMIT: u64 = 1_073_741_824;

/// What a fault's place is in: the stream, which has the last of the numbers, or the file of this number.
fn owner_of(read: &SourcesWithData, fault: Fault) -> Owner
    requires { 0 < length read.now.sources.files.items }
    ensures is { (table : List (List ℕ)) → IsStreamOwner table read.now fault result }
    ensures named { (table : List (List ℕ)) → IsRead table read.now → IsNamedOwner table result }
{
    if fault.span.file == u64::MAX {
        Owner::Stream
    } else {
        Owner::File(file_name(read, fault.span.file))
    }
}

/// How the command ends, where the printing of the stream ends so.
fn end_of(read: &SourcesWithData, printed: Printed) -> End
    requires { 0 < length read.now.sources.files.items }
    ensures is { (table : List (List ℕ)) → IsEndOf table read.now printed result }
    ensures named { (table : List (List ℕ)) → IsRead table read.now → IsNamedEnd table result }
{
    match printed {
        Printed::Done => End::Done,
        Printed::Refused(fault) => End::Refused(fault, owner_of(read, fault)),
        Printed::ReadFault => End::ReadFault,
        Printed::WriteFault => End::WriteFault,
        Printed::Memory => End::Memory,
    }
}

/// What prints the solutions of a checked model.
fn printing_of<'a>(
    alloc: Global,
    options: &Options<'_>,
    checked: &'a Checked,
    names: &'a Names,
) -> Result<SolutionPrinting<'a>, GatherEnd>
    requires limits { IsWithinLimits (settings options.now) }
    requires read { IsRead names.now checked.now.read }
    requires program { HasProgram names.now checked.now }
    ensures printing { IfOk result (IsPrinting (limits_of (settings options.now)) names.now (plain_program checked.now.program)) }
    ensures refused { IfRefused result (IsNamedRefusal (limits_of (settings options.now)) names.now checked.now.read) }
    ensures owner { IfRefused result (λ _ n. n < length names.now) }
    ensures no_read_fault { OnReadFault result ⊥ }
{
    match printing(
        alloc,
        &checked.program,
        names,
        options.budget,
        options.int_range,
    ) {
        Ok(printing) => Ok(printing),
        Err(stop) => Err(stopped(&checked.read, stop)),
    }
}

/// Prints the stream by the texts of a model's solutions.
fn print_by<I: Source, S: Sink>(
    alloc: Global,
    printing: SolutionPrinting<'_>,
    input: &mut I,
    out: &mut S,
) -> Printed
    requires { IsTaken printing.printer (forms printing.shapes.items) }
    ensures printed { Promises (solution_texts printing.entry.printer) (forms printing.entry.shapes.items) STREAM_LIMIT
        (I.left input.old) (I.left input.new) (S.held out.old) (S.held out.new) result }
    ensures counted { CountsIn (I.faults input.old) (I.faults input.new) result }
    ensures counted_out { CountsPut (S.counts out.old) (S.counts out.new) result }
{
    let SolutionPrinting { printer, shapes } = printing;
    print_stream(alloc, shapes, STREAM_LIMIT, &printer, input, out)
}

/// Prints the stream of a checked model's solutions.
fn print_checked<I: Source, S: Sink>(
    alloc: Global,
    options: &Options<'_>,
    checked: &Checked,
    names: &Names,
    input: &mut I,
    out: &mut S,
) -> End
    requires limits { IsWithinLimits (settings options.now) }
    requires read { IsRead names.now checked.now.read }
    requires program { HasProgram names.now checked.now }
    ensures printed { PrintsChecked (limits_of (settings options.now)) names.now checked.now (I.left input.old) (I.left input.new) (S.held out.old) (S.held out.new) result }
    ensures named { IsNamedEnd names.now result }
    ensures counted { CountsInput (I.faults input.old) (I.faults input.new) (status_of result) }
    ensures counted_out { CountsOut (S.counts out.old) (S.counts out.new) (status_of result) }
{
    match printing_of(alloc, options, checked, names) {
        Ok(printing) => end_of(&checked.read, print_by(alloc, printing, input, out)),
        Err(end) => failed(&end),
    }
}

/// Does all that `check` does, and then prints a solver's stream: the text of each solution as it comes, and each mark.
pub(crate) fn print<F: Files, I: Source, S: Sink>(
    alloc: Global,
    options: &Options<'_>,
    files: &mut F,
    names: &mut Names,
    input: &mut I,
    out: &mut S,
) -> End
    requires { IsWithinLimits (settings options.now) }
    ensures printed { PrintedEnd names.new (F.texts files.old) (settings options.now) (I.left input.old) (I.left input.new) (S.held out.old) (S.held out.new) result }
    ensures refused { RefusedEnd names.new (F.texts files.old) (settings options.now) result }
    ensures named { IsNamedEnd names.new result }
    ensures counted { CountsRead (print (settings options.now)) (F.counts files.old) (F.counts files.new) (I.faults input.old) (I.faults input.new) (status_of result) }
    ensures output { CountsOut (S.counts out.old) (S.counts out.new) (status_of result) }
    ensures texts { F.texts files.new ≡ F.texts files.old }
{
    match checked_model(alloc, options, files, names) {
        Ok(checked) => print_checked(alloc, options, &checked, &*names, input, out),
        Err(end) => failed(&end),
    }
}
