// Branches of an `if` under var conditions, of any type, and arrays that are written row by row, under every reading.
#![tactic(auto)]

mod charges;
mod choosing;
mod conditions;
mod drawing;
mod folding;
mod joining;
mod lines;
mod tables;
mod truths;
mod undefined;

pub use choosing::chosen_branch;
pub use tables::table_cell_in;
pub use undefined::{has_no_value, unvalued};
