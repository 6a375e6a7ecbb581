// What holds of the arguments of rows.

ghost use Rattle.mz_symbol_rows.specs.Laws.{ArgumentsAreValues};

/// The law that a symbol that has a value is an argument as it stands.
pub fn arguments_are_values()
    ensures { ArgumentsAreValues }
{}
