// What calls and operators call: the best of their candidates, and the nodes that they become.
#![tactic(auto)]

mod best;
mod calls;
mod candidates;
mod chains;
mod integers;
mod left_out;
mod operators;
mod pairs;
mod rows;

pub use calls::{applied, row_node};
pub use chains::{Chained, Operand, appended, chain_node};
pub use operators::{groups_right, prefix_name};
pub use rows::rows_for;
