// Terms of rows over the elements of var arrays: quantifiers, counts, sums, extremes, clauses, unions and powers; and the line of a list of symbols.
#![tactic(auto)]

mod arrays;
mod clauses;
mod extremes;
mod items;
pub mod lines;
mod powers;
pub mod sums;
mod sure;
pub mod unions;

pub use arrays::line_of;
pub use clauses::clause;
pub use extremes::extreme;
pub use powers::power;
pub use sure::{is_sure, node_at};
