// How high trees may be.

/// How deep expressions may be nested in a file, where at most `OPEN_LIMIT` tokens are open at once.
/// Round an expression in brackets stand one form, then at most one access for each token that may still be open, and
/// the twelve levels of binary operators.
pub const HEIGHT_LIMIT: u64 = 8833;
