// The limits of the language and of its files, each once.

/// The greatest integer: 2^61. The least is its negative.
pub const INTEGER_LIMIT: i64 = 1 << 61;

/// How many bytes a file may have: 64 MiB.
pub const FILE_LIMIT: u64 = 67_108_864;

/// How many tokens may be open at once: brackets, `if`, `let`, prefix operators, texts that show expressions, and the
/// `[` of an access up to the last `]` of its atom.
pub const OPEN_LIMIT: u32 = 120;
