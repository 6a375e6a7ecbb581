// The files of a model, read and typed to a program.

ghost use Rattle.std.specs.Prelude.{◌≡◌, ◌<◌, ℕ, List, IfOk, length};
ghost use Rattle.mz_base.specs.Names.{text_of};
ghost use Rattle.mz_include.specs.Ends.{IfRefused, OnReadFault, CountsFiles};
ghost use Rattle.mz_words.specs.Requests.{settings};
ghost use Rattle.mz_analysis.specs.Analysis.{IsRead};
ghost use Rattle.mz_tool.specs.Status.{IsRefusal};
ghost use Rattle.mz_tool.specs.StepsChecking.{HasProgram, IsChecked, IsEarlyRefusal, IsNamedFailure, Stops};

use crate::reading::read_files;
use mz_analysis::{file_name, typed_model};
use mz_base::{Names, Stop};
use mz_core::Program;
use mz_include::GatherEnd;
use mz_include::with_data::SourcesWithData;
use mz_io::Files;
use mz_words::Options;
use std::alloc::Global;

/// The files of a model with its data, and the program that they are typed to.
#[derive(Drop)]
pub(crate) struct Checked {
    pub read: SourcesWithData,
    pub program: Program,
}

/// How it ends where the files that were read stop at this.
pub(crate) fn stopped(read: &SourcesWithData, stop: Stop) -> GatherEnd
    requires { 0 < length read.now.sources.files.items }
    ensures stops { (table : List (List ℕ)) → Stops table read.now stop result }
    ensures named { (table : List (List ℕ)) → IsRead table read.now → IsNamedFailure table result }
{
    match stop {
        Stop::Refused(fault) => {
            let owner = file_name(read, fault.span.file);
            GatherEnd::Refused(fault, owner)
        }
        Stop::Memory => GatherEnd::Memory,
    }
}

/// The program of files that were read, by the table of their names: the names are tested, then the types and the data.
fn checked_files(alloc: Global, read: SourcesWithData, names: &Names) -> Result<Checked, GatherEnd>
    requires { IsRead names.now read }
    ensures kept { IfOk result (λ c. c.read ≡ read) }
    ensures program { IfOk result (HasProgram names.now) }
    ensures refused { IfRefused result (IsEarlyRefusal names.now read) }
    ensures owner { IfRefused result (λ _ n. n < length names.now) }
    ensures no_read_fault { OnReadFault result ⊥ }
{
    match typed_model(alloc, &read, names) {
        Ok(program) => Ok(Checked { read, program }),
        Err(stop) => Err(stopped(&read, stop)),
    }
}

/// The model of these options, read with its included files and its data, and typed to a program.
pub(crate) fn checked_model<F: Files>(
    alloc: Global,
    options: &Options<'_>,
    files: &mut F,
    names: &mut Names,
) -> Result<Checked, GatherEnd>
    ensures checked { IfOk result (IsChecked names.new (F.texts files.old) (settings options.now)) }
    ensures refused { IfRefused result (λ f n. IsRefusal names.new (F.texts files.old) (settings options.now) f (text_of names.new n)) }
    ensures owner { IfRefused result (λ _ n. n < length names.new) }
    ensures counted { CountsFiles (F.counts files.old) (F.counts files.new) result }
    ensures texts { F.texts files.new ≡ F.texts files.old }
{
    match read_files(alloc, options, files, names) {
        Ok(read) => checked_files(alloc, read, &*names),
        Err(end) => Err(end),
    }
}
