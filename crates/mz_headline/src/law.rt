// What the boundary of the walk and the boundary of the flattening give together.

ghost use Rattle.mz_headline.specs.Laws.{BoundariesJoin};

/// The law that a program which is faithful to an instance keeps the solutions of the model that the
/// instance is made of.
pub fn boundaries_join()
    ensures { BoundariesJoin }
{}
