// That flattening is faithful.

ghost use Rattle.flat.specs.Laws.{FlatteningIsFaithful};

/// The law that the program which is left when an instance has been flattened is faithful to it: where the
/// front is declared, the roots and what absent options and empty domains ask are posted, and the
/// objective is a variable.
pub fn flattening_is_faithful()
    ensures { FlatteningIsFaithful }
{}
