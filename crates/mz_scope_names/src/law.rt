// What holds of all occurrences.

ghost use Rattle.mz_scope_names.specs.Named.{AreNamedAlike};

/// The law that the names of an item's occurrences are names of the table that holds all names of the item.
pub fn named_alike()
    ensures { AreNamedAlike }
{}
