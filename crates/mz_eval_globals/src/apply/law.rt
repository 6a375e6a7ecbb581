// What holds of the lists of globals.

ghost use Rattle.mz_eval_globals.specs.Lists.{AreInStep};

/// What a global means and its signature stand at one place: both lists have one order of names,
/// with as many arguments.
pub fn lists_are_in_step()
    ensures { AreInStep }
{}
