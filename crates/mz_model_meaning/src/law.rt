// What one walk over a model tells of all.

ghost use Rattle.mz_model_meaning.specs.Refusals.{StopsAlways, GoesAlways, IsNotRefused};

/// The law that one walk over a model, which stops at a fault or goes through, tells how each walk
/// ends, whatever values the variables have and whatever is chosen.
pub fn walks_are_told_by_one()
    ensures stops { StopsAlways }
    ensures goes { GoesAlways }
    ensures not_refused { IsNotRefused }
{}
