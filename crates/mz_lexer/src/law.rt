// What holds of all tokens.

ghost use Rattle.mz_lexer.specs.Lexes.{IsDetermined, IdentifiersAreFlat};

/// The law that the bytes of a file are one list of tokens, or have one first fault, and never both.
pub fn one_outcome()
    ensures { IsDetermined }
{}

/// The law that the word of every identifier token is an identifier of FlatZinc too.
pub fn identifiers_are_flat()
    ensures { IdentifiersAreFlat }
{}
