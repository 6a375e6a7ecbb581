// Bounds of operators and built-ins over cells: of a row with a var argument, and what the rows give that read bounds alone.
#![tactic(auto)]

mod arguments;
mod by_bounds;
mod made;
mod scalars;
mod uppers;

pub use by_bounds::value_by_bounds;
pub use made::made_bounds;
pub use scalars::scalar_bounds;
