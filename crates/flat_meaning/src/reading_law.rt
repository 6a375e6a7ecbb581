// What holds of values that are read off by names.

ghost use Rattle.flat_meaning.specs.Solutions.{ReadsItself};
ghost use Rattle.flat_meaning.specs.Laws.{VariablesAreFound, ItemsAreFound};

/// The law that distinct names, each given the value at its place, are given just these values: so the assignment that is
/// read off from values, by the names of their variables, determines the values.
pub fn read_off_by_names()
    ensures { ReadsItself }
{}

/// The law that by distinct names each variable that is shown, and each array, is found at its place.
pub fn names_are_found()
    ensures variables { VariablesAreFound }
    ensures items { ItemsAreFound }
{}
