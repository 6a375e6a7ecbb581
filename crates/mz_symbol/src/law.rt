// What holds of readings and runs.

ghost use Rattle.mz_symbol.specs.Laws.{TermsRead, ChoicesRead, KeptByNodes, KeptByChoice, BareReads, MeansGivesBare, BareFollows};

/// The law that each assignment reads a run, where the choices are the values of their nodes.
pub fn terms_read_runs()
    ensures terms { TermsRead }
    ensures choices { ChoicesRead }
{}

/// The law that what holds of each run is kept by nodes and by choices.
pub fn runs_are_kept()
    ensures nodes { KeptByNodes }
    ensures choice { KeptByChoice }
{}

/// The law that a clause under each reading gives that of an evaluation without values.
pub fn bare_clauses_follow()
    ensures read { BareReads }
    ensures readings { MeansGivesBare }
    ensures bare { BareFollows }
{}
