// What holds of each program that is built, and of each row with a result.

ghost use Rattle.fz_build.specs.Laws.{AreDefinedOnce, FreeValuesDetermine, ResultsMayDefine};

/// The law that a program that is made step by step has the model's variables and then introduced ones,
/// and that each introduced variable but a choice has exactly one row that defines it, from variables
/// before it.
pub fn introduced_variables_are_defined_once()
    ensures { AreDefinedOnce }
{}

/// The law that the values of the model's variables and of the choices go on to one solution at most.
pub fn free_values_determine_solutions()
    ensures { FreeValuesDetermine }
{}

/// The law that inputs of a row's kinds, whose result has a domain with a value, may define a variable of
/// this domain. A linear row must besides stay within 64 bits with the variable.
pub fn results_may_define()
    ensures { ResultsMayDefine }
{}
