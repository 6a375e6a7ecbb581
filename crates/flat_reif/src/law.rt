// What holds of all steps of a flattening.

ghost use Rattle.flat_reif.specs.States.{FlattenedBoth};

/// The law that two steps, one after the other, are one.
pub fn steps_follow_each_other()
    ensures { FlattenedBoth }
{}
