// Laws of the stream, for callers' proofs.

ghost use Rattle.soln_reader.specs.Cuts.{HasOneReading, HasSameEvents, IsCutFreely};
ghost use Rattle.soln_reader.specs.Values.{BeginsFit, GivesValues, StaysFitAsFed, StaysFitAsNeeded};

/// What a reader gives of a stream is the stream's, however it was cut into pieces.
pub fn cut_freely()
    ensures { IsCutFreely }
{}

/// A stream has one list of blocks and marks, and one end.
pub fn one_reading()
    ensures { HasOneReading }
{}

/// Two readers that are fed the same bytes give the same, however these are cut.
pub fn same_events()
    ensures { HasSameEvents }
{}

/// Each value of a block is of its shape's form, and in its domains.
pub fn values_fit()
    ensures begun { BeginsFit }
    ensures fed { StaysFitAsFed }
    ensures given { GivesValues }
    ensures needed { StaysFitAsNeeded }
{}
