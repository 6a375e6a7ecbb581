// What holds of every model's names.

ghost use Rattle.mz_analysis.specs.Promise.{HaveOneScopedModel, ScopedOrRefused, TypedOrRefused, TypesAreRefusedInFiles, OrderMakesNoDifference, HaveOneTypedProgram, HaveOneFault, DeclarationsAreNumbered, NamesAreOwn};

/// Files have at most one scoped model.
pub fn one_scoped_model()
    ensures { HaveOneScopedModel }
{}

/// Files that have a scoped model aren't refused for their names.
pub fn scoped_or_refused()
    ensures { ScopedOrRefused }
{}

/// Files that have a typed model aren't refused for their names or types.
pub fn typed_or_refused()
    ensures { TypedOrRefused }
{}

/// The types of a model are refused at a place in one of its files.
pub fn types_refused_in_files()
    ensures { TypesAreRefusedInFiles }
{}

/// Files have at most one typed program.
pub fn typed_programs_are_one()
    ensures { HaveOneTypedProgram }
{}

/// Files have at most one first fault of names, types and data.
pub fn faults_are_one()
    ensures { HaveOneFault }
{}

/// The order in which the types of a model are typed makes no difference.
pub fn any_order_of_types()
    ensures { OrderMakesNoDifference }
{}

/// The declarations of a typed program, in the order of evaluation, have their places as slots, and no name stands twice.
pub fn declarations_are_numbered()
    ensures { DeclarationsAreNumbered }
{}

/// The names of a typed program's declarations are identifiers, and none begins with `X_`.
pub fn names_are_own()
    ensures { NamesAreOwn }
{}
