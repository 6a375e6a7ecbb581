// What holds of all trees.

ghost use Rattle.mz_tree.specs.Kinds.{HasNamesAndPlaces};

/// The law that in an item whose names are numbers below a count, and whose places are in one file, the list of its names
/// has such numbers alone, and the list of its places such places.
pub fn names_and_places()
    ensures { HasNamesAndPlaces }
{}
