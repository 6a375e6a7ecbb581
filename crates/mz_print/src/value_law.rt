// What the crates above cite.

ghost use Rattle.mz_print.specs.Lines.{AreTheDefault};
ghost use Rattle.mz_print.specs.Printable.{PrintsValues};

/// The lines of a program's variables, with the values of a solution, are the default text of its assignment.
pub fn lines_are_the_default()
    ensures { AreTheDefault }
{}

/// Values of printable forms, in their domains, can be printed.
pub fn values_are_printable()
    ensures { PrintsValues }
{}
