// The globals of counting: what they and the globals of sets say of their arguments, and their terms.
#![tactic(auto)]

mod covers;
mod memberships;
mod occurrences;
pub mod of_values;
mod values;
mod windows;

pub use covers::cardinality;
pub use memberships::among;
pub use occurrences::{count, count_of, times};
pub use values::different_values;
pub use windows::sliding_sum;
