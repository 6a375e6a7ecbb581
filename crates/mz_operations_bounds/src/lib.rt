// The bounds of operations on integers, from the bounds of their operands: pairs of a lower and an upper end, without a limit.
#![tactic(auto)]

mod ends;
mod lists;
mod powers;

pub use ends::{arith_ends, sign_ends};
pub use lists::{extreme_ends, folded_ends, hull_if_any, in_limit};
pub use powers::raised_ends;
