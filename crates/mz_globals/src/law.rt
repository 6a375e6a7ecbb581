// What holds of the meanings.

ghost use Rattle.mz_globals.specs.Laws.{StartsAreEnough};

/// Where no task uses less than nothing, what is used at the starts of tasks tells of every time.
pub fn starts_are_enough()
    ensures { StartsAreEnough }
{}
