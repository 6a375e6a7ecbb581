// What holds of the grammars and of the lines of their EBNF.

ghost use Rattle.mz_grammar_ebnf.specs.Promise.{AnnotationsAreDerived, DataFilesAreDerived, DataFilesHaveTokenParts, DataItemsAreDerived, DeclarationsAreDerived, DeclarationsHaveIdentifiers, DerivedDataFilesAreTaken, DerivesOneDataFile, ExpressionsAreDerived, LeftOutIsAForm, MarksAreDerived, ModelsAreBounded, ModelsAreDerived, ModelsHaveTokenParts, MoreMayBeOpen, MoreMayBeOpenInData, NoDerivedDataFileIsRefused, TypesAreDerived};

/// What the rules take of a data file is derived by the lines of the EBNF, with no more tokens open at once than there is room for.
pub fn data_files_are_derived()
    ensures taken { DataFilesAreDerived }
    ensures answered { DataItemsAreDerived }
{}

/// What the lines of the EBNF derive, the rules take, and no reader by them refuses it. So they derive one file at most of a list of tokens.
pub fn derived_data_files_are_taken()
    ensures taken { DerivedDataFilesAreTaken }
    ensures never_refused { NoDerivedDataFileIsRefused }
    ensures one { DerivesOneDataFile }
{}

/// What the rules take of a model is derived by the lines of the EBNF, with no more tokens open at once than there is room for.
pub fn models_are_derived()
    ensures { ModelsAreDerived }
{}

/// So it is of the parts of a model that are read by themselves.
pub fn parts_are_derived()
    ensures expressions { ExpressionsAreDerived }
    ensures declarations { DeclarationsAreDerived }
    ensures types { TypesAreDerived }
    ensures marks { MarksAreDerived }
    ensures annotations { AnnotationsAreDerived }
{}

/// Where a model is refused as left out, one of the forms that are left out of the language stands at that token.
pub fn left_out_is_a_form()
    ensures { LeftOutIsAForm }
{}

/// What the EBNF derives with this many tokens open at once, it derives where more may be open.
pub fn more_may_be_open()
    ensures data_files { MoreMayBeOpenInData }
    ensures models { MoreMayBeOpen }
{}

/// Every name and every place in what the EBNF derives of a list of tokens is that of one of these tokens, and the name that a
/// declaration at top level gives that of an identifier.
pub fn names_and_places_are_tokens()
    ensures models { ModelsHaveTokenParts }
    ensures declarations { DeclarationsHaveIdentifiers }
    ensures data_files { DataFilesHaveTokenParts }
{}

/// The expressions in what the EBNF derives of a model are nested at most as deep as the tokens that may be open at once allow.
pub fn models_are_bounded()
    ensures { ModelsAreBounded }
{}
