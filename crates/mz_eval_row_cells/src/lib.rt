// Operators and built-ins over cells: what a row gives of its arguments, par and var, with its faults, and what it costs.
#![tactic(auto)]

mod applied;
mod costs;
mod faults;
mod integers;
mod limits;
mod numbers;
mod opened;
mod row_of;
mod sets;
mod showing;

pub use costs::{cost_of_all, cost_of_one, cost_of_two, size_of, sizes_of};
pub use numbers::row_at;
pub use row_of::{all_given, row_of_all, row_of_one, row_of_two};
