// The files of a request, read, with the table of their names.

ghost use Rattle.std.specs.Prelude.{◌≡◌, ◌<◌, IfOk, length};
ghost use Rattle.mz_base.specs.Names.{AreDistinct, text_of};
ghost use Rattle.mz_words.specs.Requests.{settings};
ghost use Rattle.mz_include.specs.Ends.{IfRefused, CountsFiles};
ghost use Rattle.mz_include.specs.WithData.{IsSourcesWithData, FailsWithData};
ghost use Rattle.mz_analysis.specs.Analysis.{IsRead, files_read, items_read};
ghost use Rattle.mz_tool.specs.StepsChecking.{data_names};

use mz_base::Names;
use mz_include::GatherEnd;
use mz_include::with_data::{SourcesWithData, gather_with_data};
use mz_io::Files;
use mz_words::Options;
use std::alloc::Global;

/// Reads the model of these options with its included files and its data, as `gather_with_data` does. On Ok the texts of the table
/// differ.
pub(crate) fn read_files<F: Files>(
    alloc: Global,
    options: &Options<'_>,
    files: &mut F,
    names: &mut Names,
) -> Result<SourcesWithData, GatherEnd>
    ensures sources { IfOk result (λ s. IsSourcesWithData names.new (F.texts files.old) (settings options.now).model (settings options.now).data_files (files_read names.new s) (items_read s)) }
    ensures read { IfOk result (λ s. IsRead names.new s) }
    ensures given { IfOk result (λ s. data_names names.new s ≡ (settings options.now).data_files) }
    ensures distinct { IfOk result (λ _. AreDistinct names.new) }
    ensures refused { IfRefused result (λ f n. FailsWithData names.new (F.texts files.old) (settings options.now).model (settings options.now).data_files f (text_of names.new n)) }
    ensures owner { IfRefused result (λ _ n. n < length names.new) }
    ensures counted { CountsFiles (F.counts files.old) (F.counts files.new) result }
    ensures texts { F.texts files.new ≡ F.texts files.old }
{
    let read = match gather_with_data(
        alloc,
        options.model,
        options.data_files.as_slice(),
        files,
        names,
    ) {
        Ok(read) => read,
        Err(end) => return Err(end),
    };
    // a search changes nothing, and its clause says that the table's texts differ
    let _found = names.find(options.model);
    Ok(read)
}
