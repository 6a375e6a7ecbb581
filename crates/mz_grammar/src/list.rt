// What a list between brackets is, and what it may still become.

/// What closes a list, and which list it is.
#[derive(Clone, Copy, Debug, PartialEq, Eq)]
pub enum Closing {
    /// `)`
    Paren,
    /// `]` of an access, of index types or of a comprehension
    Bracket,
    /// `]` of an array literal, where `:` after an element is left out of the language
    Elements,
    /// `}`
    Brace,
}

/// Whether the arguments read so far may be generators.
#[derive(Clone, Copy, Debug, PartialEq, Eq)]
pub enum Generators {
    /// They may, and none or a whole generator was read last.
    Possible,
    /// They may, and the names read last wait for their `in`.
    AwaitingIn,
    /// They may not.
    Impossible,
}
