// Ranges of integers, and the range of an operation's value from those of its operands; of products, quotients and remainders
// also the bounds from any ends, without a limit.
#![tactic(auto)]

mod interval;
mod limit;
mod product;
mod quotient;
mod remainder;
mod wide;

pub use interval::Interval;
pub use product::product_ends;
pub use quotient::quotient_ends;
pub use remainder::remainder_ends;
