// What holds of the occurrences of names in a model with its data.

ghost use Rattle.mz_scope.specs.Named.{AreAllNamed};

/// The law that the names of all occurrences are names of the table that has the names of the items and of the data.
pub fn all_named()
    ensures { AreAllNamed }
{}
