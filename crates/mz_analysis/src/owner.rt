// The file of a place.

ghost use Rattle.std.specs.Prelude.{◌≡◌, ◌<◌, List, ℕ, length, map, All};
ghost use Rattle.mz_base.specs.Names.{text_of};
ghost use Rattle.mz_include.specs.Views.{file};
ghost use Rattle.mz_analysis.specs.Analysis.{own_name, data_name, file_name, IsRead, files_read};

use mz_base::Name;
use mz_include::with_data::SourcesWithData;
use mz_tree::SourceFile;

/// The name of the model's own file.
fn own_name(files: &[SourceFile]) -> Name
    requires { 0 < length files.now }
    ensures is { (table : List (List ℕ)) → text_of table result ≡ own_name (map (file table) files.now) }
    ensures named { (table : List (List ℕ)) → All (λ f. f.name < length table) files.now → result < length table }
{
    match files.first() {
        Some(model) => model.name,
        None => unreachable!(),
    }
}

/// The name of the data file of this number, from 0; the model's own where there is none.
fn data_name(read: &SourcesWithData, number: usize) -> Name
    requires { 0 < length read.now.sources.files.items }
    ensures is { (table : List (List ℕ)) → text_of table result ≡ data_name (files_read table read.now) (map (text_of table) read.now.data_files.items) number }
    ensures named { (table : List (List ℕ)) → IsRead table read.now → result < length table }
{
    match read.data_files.as_slice().get(number) {
        Some(name) => *name,
        None => own_name(read.sources.files.as_slice()),
    }
}

/// The name of the file of this number, from 0: the files of the model, and after them the data files. The model's own where no file
/// has the number.
pub fn file_name(read: &SourcesWithData, number: u64) -> Name
    requires { 0 < length read.now.sources.files.items }
    ensures is { (table : List (List ℕ)) → text_of table result ≡ file_name (files_read table read.now) (map (text_of table) read.now.data_files.items) number }
    ensures named { (table : List (List ℕ)) → IsRead table read.now → result < length table }
{
    let files = read.sources.files.as_slice();
    match files.get(number as usize) {
        Some(file) => file.name,
        None => data_name(read, (number as usize).saturating_sub(files.len())),
    }
}
