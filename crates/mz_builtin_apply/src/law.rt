// What holds of the tables of the library.

ghost use Rattle.mz_builtin_apply.specs.Tables.{AreInStep};

/// What a line means and its signature stand at one place: both tables have one list of names.
pub fn tables_are_in_step()
    ensures { AreInStep }
{}
