// The limits of the numbers in words.

use mz_base::INTEGER_LIMIT;

/// The greatest budget. The least is 1.
pub const BUDGET_LIMIT: u64 = 100_000_000;

/// The greatest range of an unbounded variable, which is the greatest integer. The least is 1.
pub const INT_RANGE_LIMIT: u64 = INTEGER_LIMIT as u64;

/// The greatest number that `make` takes. The least is 1.
pub const MAKE_LIMIT: u64 = 10_000;
