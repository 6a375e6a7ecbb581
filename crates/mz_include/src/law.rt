// What holds of every model's files, and of its first failure.

ghost use Rattle.mz_include.specs.Promise.{ExcludeEachOther, HasOneModel, HasOneFailure, FaultsAreInTheirFiles, StaySo, DeclarationsAreSpelled};

/// Where the texts of the files are told, a model's files and a first failure exclude each other.
pub fn sources_or_failure()
    ensures { ExcludeEachOther }
{}

/// Where the texts of the files are told, a model has at most one list of files.
pub fn one_model()
    ensures { HasOneModel }
{}

/// Where the texts of the files are told, a model has at most one first failure.
pub fn one_failure()
    ensures { HasOneFailure }
{}

/// The number in the place of a first failure is that of the file with the name that is told: the
/// model has 0, and the others follow in the order in which they were first named.
pub fn fault_in_its_file()
    ensures { FaultsAreInTheirFiles }
{}

/// A model's files stay its files, a first failure stays one, and what is known of the names and
/// places in files stays known, where the table of names grows.
pub fn kept_by_names()
    ensures { StaySo }
{}

/// The names that the declarations of a model's files give are identifiers.
pub fn declarations_are_spelled()
    ensures { DeclarationsAreSpelled }
{}
