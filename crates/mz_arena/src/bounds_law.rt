// What holds of the terms and the bounds of every arena.

ghost use Rattle.mz_arena.specs.InBounds.{BoundsAreSets, DomainsLie, TermsLie};
ghost use Rattle.mz_arena.specs.Accesses.{AccessIsMonotone, SetAccessIsMonotone};

/// Where the variables and the choices have values in their bounds, each term lies in the bounds of
/// its node. Values in their domains are in their bounds.
pub fn terms_lie_in_bounds()
    ensures terms { TermsLie }
    ensures domains { DomainsLie }
    ensures sets { BoundsAreSets }
{}

/// An access with narrower bounds, to a list whose elements have narrower bounds, has narrower
/// bounds, where it reaches a place.
pub fn accesses_are_monotone()
    ensures numbers { AccessIsMonotone }
    ensures sets { SetAccessIsMonotone }
{}
