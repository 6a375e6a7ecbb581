// Laws of printing a stream, for callers' proofs.

ghost use Rattle.mz_print_stream.specs.Driving.{BeginsSo, IsBadThere, IsCompleteThere, IsCutThere, StaysAsFed, StaysAsGiven, StaysAsNeeded, StaysAtTheEnd};
ghost use Rattle.mz_print_stream.specs.Printing.{HasOnePrinting, MarksAreRead};
ghost use Rattle.mz_print_stream.specs.Reading.{AddsEvents, EachIsRead, HasOneReading, ReadsTheStream};
ghost use Rattle.mz_print_stream.specs.StepsDrain.{StandsOn};

/// What is read where no more bytes come is the stream.
pub fn reads_the_stream()
    ensures { ReadsTheStream }
{}

/// Bytes are read in one way.
pub fn one_reading()
    ensures { HasOneReading }
{}

/// All bytes are read in some way.
pub fn each_is_read()
    ensures { EachIsRead }
{}

/// As more bytes come, events are added to those before.
pub fn events_are_added()
    ensures { AddsEvents }
{}

/// A stream is printed in one way.
pub fn one_printing()
    ensures { HasOnePrinting }
{}

/// A mark that is written is read as that mark.
pub fn marks_are_read()
    ensures { MarksAreRead }
{}

/// What a reader has been fed and has given: how it begins, what keeps it, and what it tells of all that was taken.
pub fn pieces_are_read()
    ensures begun { BeginsSo }
    ensures fed { StaysAsFed }
    ensures last { StaysAtTheEnd }
    ensures given { StaysAsGiven }
    ensures needed { StaysAsNeeded }
    ensures cut { IsCutThere }
    ensures complete { IsCompleteThere }
    ensures bad { IsBadThere }
{}

/// A drain after which more bytes are needed has written all that was taken.
pub fn drained_on()
    ensures { StandsOn }
{}
