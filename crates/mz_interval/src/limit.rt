// The limit of all numbers.

/// The magnitude that no number passes: 2^61.
pub const LIMIT: i64 = 1 << 61;
