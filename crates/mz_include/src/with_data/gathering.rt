// A model with its included files and its data files.

ghost use Rattle.std.specs.Prelude.{◌≡◌, ◌<◌, length, map, IfOk};
ghost use Rattle.mz_base.specs.Names.{Grows, text_of};
ghost use Rattle.mz_tree.specs.Data.{given};
ghost use Rattle.mz_io.specs.Counts.{Rose};
ghost use Rattle.mz_include.specs.Ends.{IfRefused, OnReadFault, CountsFiles};
ghost use Rattle.mz_include.specs.Views.{file};
ghost use Rattle.mz_include.specs.WithData.{IsSourcesWithData, FailsWithData, AreKnownWithData, words_of};

use crate::with_data::data_files::read_data_files;
use crate::{GatherEnd, gather};
use mz_base::{Name, Names};
use mz_io::Files;
use mz_tree::{Data, Sources};
use std::alloc::Global;

/// The files of a model with its data.
///
/// `sources` has the model and the files that it includes. `data_files` has the names of the data files as they were fetched, in
/// the order in which they were given, and `given_data` the items of all of them in this order. The places in the data go on with
/// the numbers of the files: the first data file has the number of files in `sources`, and each one after it the next number.
#[derive(Debug, Drop)]
pub struct SourcesWithData {
    pub sources: Sources,
    pub data_files: Vec<Name>,
    pub given_data: Data,
}

/// The model `model`, the files that it includes, and then these data files, in the order in which they are given.
///
/// The model's files are read as `crate::gather` reads them, and all of them before the first data file. A data file is
/// fetched by the name that is given, within 67,108,864 bytes, lexed whole, and then parsed, before the next one. A name that is
/// given twice is read twice.
///
/// The first file that fails is answered. `Refused` has the fault, and the name of the file of its place: for a data file that is
/// missing or too long, the file's own first byte; for a fault in it, Lexical, LeftOut, Bounds or Syntax, its place there.
/// `ReadFault` comes where a fetch answers Failed.
///
/// After every answer the files are as they were, and the table of names has the names that it had; it may have more.
pub fn gather_with_data<F: Files>(
    alloc: Global,
    model: &str,
    data_files: &[&str],
    files: &mut F,
    names: &mut Names,
) -> Result<SourcesWithData, GatherEnd>
    // Ok: the model with its included files, and the items of its data files. Every name in them is of the table, and every place
    // in a file has the file's number.
    ensures sources { IfOk result (λ s. IsSourcesWithData names.new (F.texts files.old) model.now (words_of data_files.now) (map (file names.new) s.sources.files.items) (map given s.given_data.items.items)) }
    ensures known { IfOk result (λ s. AreKnownWithData names.new (words_of data_files.now) s) }

    // Each other answer has its cause; running out of memory alone is free.
    ensures refused { IfRefused result (λ f n. FailsWithData names.new (F.texts files.old) model.now (words_of data_files.now) f (text_of names.new n)) }
    ensures owner { IfRefused result (λ _ n. n < length names.new) }
    ensures read_fault { OnReadFault result (Rose (F.counts files.old).faults (F.counts files.new).faults) }
    ensures counted { CountsFiles (F.counts files.old) (F.counts files.new) result }

    // What every answer leaves.
    ensures texts { F.texts files.new ≡ F.texts files.old }
    ensures grows { Grows names.old names.new }
{
    let sources = match gather(alloc, model, files, names) {
        Ok(sources) => sources,
        Err(end) => return Err(end),
    };
    let read = match read_data_files(alloc, &sources, data_files, files, names) {
        Ok(read) => read,
        Err(end) => return Err(end),
    };
    Ok(SourcesWithData {
        sources,
        data_files: read.names,
        given_data: Data { items: read.items },
    })
}
