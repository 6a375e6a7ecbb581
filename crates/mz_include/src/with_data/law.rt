// What holds of every model with its data files, and of its first failure.

ghost use Rattle.mz_include.specs.DataPromise.{ExcludeEachOther, AreReadOnce, HaveOneFailure, DataFaultsAreInTheirFiles, StaySo};

/// Where the texts of the files are told, files that are read and a first failure exclude each other.
pub fn read_or_failure()
    ensures { ExcludeEachOther }
{}

/// Where the texts of the files are told, a model has at most one list of files, and its data files have at most one list of
/// items.
pub fn read_once()
    ensures { AreReadOnce }
{}

/// Where the texts of the files are told, there is at most one first failure.
pub fn one_failure()
    ensures { HaveOneFailure }
{}

/// The number in the place of a data file's failure is that of the data file with the name that is told.
pub fn data_fault_in_its_file()
    ensures { DataFaultsAreInTheirFiles }
{}

/// What is read stays read, and a first failure stays one, where the table of names grows.
pub fn kept_by_names()
    ensures { StaySo }
{}
