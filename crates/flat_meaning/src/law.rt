// Where the variables of an instance are in a program that is faithful to it.

ghost use Rattle.flat_meaning.specs.Found.{FrontIsFound};

/// The law that in a program which is faithful to an instance each variable of the instance is found
/// by its name, at the places that are the numbers of its parts.
pub fn front_is_found()
    ensures { FrontIsFound }
{}
