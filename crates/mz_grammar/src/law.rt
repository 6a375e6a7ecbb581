// What holds of the grammars.

ghost use Rattle.mz_grammar.specs.Promise.{HasOneReading, HasOneDataReading};

/// A list of tokens is at most one model file: it has at most one list of items.
pub fn one_reading()
    ensures { HasOneReading }
{}

/// A list of tokens is at most one data file.
pub fn one_data_reading()
    ensures { HasOneDataReading }
{}
