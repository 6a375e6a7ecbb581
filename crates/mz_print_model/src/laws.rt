// What is read back of a solution that is written by these shapes.

ghost use Rattle.mz_print_model.specs.ReadOff.{AreReadOff};

/// The values of an instance's variables, as the stream has them under their names, are read back by its shapes: an array
/// has its elements' values, and an option is absent where its occurrence is false.
pub fn variables_are_read_off()
    ensures { AreReadOff }
{}
