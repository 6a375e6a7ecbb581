// The data files of a model, read in the order in which they are given.

ghost use Rattle.std.specs.Prelude.{◌≡◌, ◌<◌, ◌+◌, [], ◌∷◌, ◌++◌, length, map, IfOk, OnOk, All};
ghost use Rattle.mz_base.specs.Names.{Grows, text_of};
ghost use Rattle.mz_tree.specs.Data.{given};
ghost use Rattle.mz_include.specs.Ends.{IfRefused, CountsFiles};
ghost use Rattle.mz_include.specs.DataFiles.{AreDataRead, FailsFirst};
ghost use Rattle.mz_include.specs.WithData.{IsGivenKnown, words_of};

use crate::GatherEnd;
use crate::with_data::read::read_data_file;
use mz_base::{Memory, Name, Names};
use mz_io::Files;
use mz_tree::{Data, DataItem, Sources};
use std::alloc::Global;

/// The names of data files, and the items of all of them, in order.
#[derive(Drop)]
pub struct DataFiles {
    pub names: Vec<Name>,
    pub items: Vec<DataItem>,
}

/// Puts one more data file last. After `Memory` it may be there in part.
fn push(read: &mut DataFiles, name: Name, mut given_data: Data) -> Result<(), Memory>
    ensures names { OnOk result (read.new.names.items ≡ read.old.names.items ++ name ∷ []) }
    ensures items { OnOk result (read.new.items.items ≡ read.old.items.items ++ given_data.items.items) }
{
    read.names.push(name)?;
    read.items.append(&mut given_data.items)?;
    Ok(())
}

/// The data files of these names, which are numbered after the files of the model.
pub fn read_data_files<F: Files>(
    alloc: Global,
    sources: &Sources,
    data_files: &[&str],
    files: &mut F,
    names: &mut Names,
) -> Result<DataFiles, GatherEnd>
    ensures read { IfOk result (λ r. AreDataRead names.new (F.texts files.old) (length sources.now.files.items) (words_of data_files.now) (map given r.items.items)) }
    ensures items { IfOk result (λ r. All (IsGivenKnown (length names.new) (length sources.now.files.items + length r.names.items)) (map given r.items.items)) }
    ensures named { IfOk result (λ r. All (λ n. n < length names.new) r.names.items) }
    ensures data_files { IfOk result (λ r. map (text_of names.new) r.names.items ≡ words_of data_files.now) }
    ensures refused { IfRefused result (λ f n. FailsFirst names.new (F.texts files.old) (length sources.now.files.items) (words_of data_files.now) f (text_of names.new n)) }
    ensures owner { IfRefused result (λ _ n. n < length names.new) }
    ensures counted { CountsFiles (F.counts files.old) (F.counts files.new) result }
    ensures texts { F.texts files.new ≡ F.texts files.old }
    ensures grows { Grows names.old names.new }
{
    let mut read = DataFiles {
        names: Vec::new(alloc),
        items: Vec::new(alloc),
    };
    for word in data_files {
        let turn = sources.files.len() as u64 + read.names.len() as u64;
        let name = names.intern(word)?;
        let data = match read_data_file(alloc, turn, name, files, names) {
            Ok(data) => data,
            Err(end) => return Err(end),
        };
        push(&mut read, name, data)?;
    }
    Ok(read)
}
