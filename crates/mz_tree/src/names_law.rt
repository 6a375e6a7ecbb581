// What holds of the names in data.

ghost use Rattle.mz_tree.specs.Named.{AreNamedLater};

/// The law that data whose names are of a table has its names in the table that it grows to.
pub fn names_stay()
    ensures { AreNamedLater }
{}
