// Laws of sets, for callers' proofs.

ghost use Rattle.mz_value.specs.Ranges.{AreDetermined};

/// Two sets with the same elements are equal: a set has one canonical list of ranges.
pub fn same_members()
    ensures { AreDetermined }
{}
