// A model with its included files and its data, compiled or checked.

ghost use Rattle.std.specs.Prelude.{◌≡◌, ◌<◌, All, IfOk, length};
ghost use Rattle.mz_base.specs.Names.{AreDistinct, text_of};
ghost use Rattle.mz_core.specs.Program.{plain_program};
ghost use Rattle.mz_include.specs.Ends.{IfRefused, OnReadFault, CountsFiles};
ghost use Rattle.mz_io.specs.Sink.{Held, SinkCounts};
ghost use Rattle.mz_words.specs.Requests.{IsWithinLimits, compile, check, settings};
ghost use Rattle.fz_program.specs.Flat.{program, WellFormed};
ghost use Rattle.mz_analysis.specs.Analysis.{IsRead, names_of};
ghost use Rattle.mz_analysis.specs.Promise.{IsOwnIdentifier};
ghost use Rattle.mz_tool.specs.Compiled.{IsCompiled};
ghost use Rattle.mz_tool.specs.Headline.{limits_of};
ghost use Rattle.mz_tool.specs.Status.{CountsFiles as Counts, CountsOut, IsRefusal};
ghost use Rattle.mz_tool.specs.StepsChecking.{HasProgram, IsNamedRefusal};
ghost use Rattle.mz_tool.specs.StepsCompiling.{IsFlatOf, IsWritten};
ghost use Rattle.mz_tool.specs.StepsEnding.{Ends, IsNamedEnd, status_of};

use crate::checking::{Checked, checked_model, stopped};
use crate::compiled;
use crate::end::{End, failed};
use fz_program::FzProgram;
use fz_text::{Wrote, write};
use mz_base::Names;
use mz_include::GatherEnd;
use mz_io::{Files, Sink};
use mz_words::Options;
use std::alloc::Global;

/// The FlatZinc program of a checked model.
fn flat_of(
    alloc: Global,
    options: &Options<'_>,
    checked: &Checked,
    names: &Names,
) -> Result<FzProgram, GatherEnd>
    requires limits { IsWithinLimits (settings options.now) }
    requires distinct { AreDistinct names.now }
    requires read { IsRead names.now checked.now.read }
    requires program { HasProgram names.now checked.now }
    requires spelled { All (λ n. IsOwnIdentifier (text_of names.now n)) (names_of (plain_program checked.now.program).decls) }
    ensures compiled { IfOk result (λ flat. IsCompiled (limits_of (settings options.now)) names.now (plain_program checked.now.program) (program flat)) }
    ensures refused { IfRefused result (IsNamedRefusal (limits_of (settings options.now)) names.now checked.now.read) }
    ensures owner { IfRefused result (λ _ n. n < length names.now) }
    ensures no_read_fault { OnReadFault result ⊥ }
{
    match compiled(
        alloc,
        &checked.program,
        names,
        options.budget,
        options.int_range,
    ) {
        Ok(flat) => Ok(flat),
        Err(stop) => Err(stopped(&checked.read, stop)),
    }
}

/// The FlatZinc program of the model of these options.
pub(crate) fn flat<F: Files>(
    alloc: Global,
    options: &Options<'_>,
    files: &mut F,
    names: &mut Names,
) -> Result<FzProgram, GatherEnd>
    requires { IsWithinLimits (settings options.now) }
    ensures flat { IfOk result (λ flat. IsFlatOf names.new (F.texts files.old) (settings options.now) (program flat)) }
    ensures refused { IfRefused result (λ f n. IsRefusal names.new (F.texts files.old) (settings options.now) f (text_of names.new n)) }
    ensures owner { IfRefused result (λ _ n. n < length names.new) }
    ensures counted { CountsFiles (F.counts files.old) (F.counts files.new) result }
    ensures texts { F.texts files.new ≡ F.texts files.old }
{
    match checked_model(alloc, options, files, names) {
        Ok(checked) => flat_of(alloc, options, &checked, &*names),
        Err(end) => Err(end),
    }
}

/// Writes a program.
pub(crate) fn write_program<S: Sink>(alloc: Global, flat: &FzProgram, out: &mut S) -> End
    requires { WellFormed (program flat.now) }
    ensures left { IsWritten (program flat.now) (S.held out.old) (S.held out.new) result }
    ensures counted { CountsOut (S.counts out.old) (S.counts out.new) (status_of result) }
{
    match write(alloc, flat, out) {
        Wrote::All => End::Done,
        Wrote::Failed => End::WriteFault,
        Wrote::Memory => End::Memory,
    }
}

/// Compiles the model of these options, and writes its FlatZinc.
pub(crate) fn compile<F: Files, S: Sink>(
    alloc: Global,
    options: &Options<'_>,
    files: &mut F,
    names: &mut Names,
    out: &mut S,
) -> End
    requires { IsWithinLimits (settings options.now) }
    ensures ended { Ends names.new (F.texts files.old) (compile (settings options.now)) (S.held out.old) (S.held out.new) result }
    ensures named { IsNamedEnd names.new result }
    ensures files { Counts (F.counts files.old) (F.counts files.new) (status_of result) }
    ensures output { CountsOut (S.counts out.old) (S.counts out.new) (status_of result) }
    ensures texts { F.texts files.new ≡ F.texts files.old }
{
    match flat(alloc, options, files, names) {
        Ok(flat) => write_program(alloc, &flat, out),
        Err(end) => failed(&end),
    }
}

/// Does all that `compile` does, and writes nothing.
pub(crate) fn check<F: Files>(
    alloc: Global,
    options: &Options<'_>,
    files: &mut F,
    names: &mut Names,
) -> End
    requires { IsWithinLimits (settings options.now) }
    ensures ended { (h : Held) → Ends names.new (F.texts files.old) (check (settings options.now)) h h result }
    ensures named { IsNamedEnd names.new result }
    ensures files { Counts (F.counts files.old) (F.counts files.new) (status_of result) }
    ensures writes_nothing { (counts : SinkCounts) → CountsOut counts counts (status_of result) }
    ensures texts { F.texts files.new ≡ F.texts files.old }
{
    match flat(alloc, options, files, names) {
        Ok(_flat) => End::Done,
        Err(end) => failed(&end),
    }
}
