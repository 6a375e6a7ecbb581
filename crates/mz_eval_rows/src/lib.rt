// Rows over cells in a run: what a row gives of its arguments, with its value under each reading, and `++` of var arrays.
#![tactic(auto)]

mod asserted;
mod handed;
mod joined;
mod reshaped;
mod rows;
mod settled;

pub use joined::row_of_two;
pub use mz_eval_row_symbols::Argument;
pub use rows::{row_of_all, row_of_one, rows_of_par};
