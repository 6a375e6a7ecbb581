// Terms of rows over symbols of single values, options and sets, one function a row. A row that may be undefined makes a partial term.
#![tactic(auto)]

mod arithmetic;
mod comparisons;
mod connectives;
mod law;
mod nodes;
pub mod options;
pub mod sets;
mod sorts;

pub use arithmetic::{arith, ordinal, sign};
pub use comparisons::{equal, order, unequal};
pub use connectives::{logic, negation};
pub use law::arguments_are_values;
