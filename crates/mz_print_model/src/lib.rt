// A typed program → what prints its solutions, and the shapes of its variables, by which a solver's stream of them is read.
#![tactic(auto)]

mod laws;
mod making;
mod names;
mod top_call;

pub use laws::variables_are_read_off;
pub use making::shapes;
pub use mz_model::model;
pub use top_call::{SolutionPrinting, printing};
