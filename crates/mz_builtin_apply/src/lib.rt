// What rows of the table of operators and built-ins cost and give of values, and a law of both tables.
#![tactic(auto)]

mod applied;
mod costs;
mod faults;
mod law;
mod limits;
mod readings;

pub use applied::apply_row;
pub use costs::{cost_of, counts_from};
pub use faults::{is_applied, is_failed};
pub use law::tables_are_in_step;
pub use readings::read_as;
