// The places of typed programs are places of their files.

ghost use Rattle.mz_analysis.specs.PlacePromise.{TypingKeepsPlaces, ProgramsLieInTheirFiles};

/// Does nothing: its contract says that the places of what a scoped model is typed to with its data
/// are in the files of the model and the data, and so those of the typed program of files that were
/// read.
pub fn typed_programs_lie_in_their_files()
    ensures typing { TypingKeepsPlaces }
    ensures files { ProgramsLieInTheirFiles }
{}
