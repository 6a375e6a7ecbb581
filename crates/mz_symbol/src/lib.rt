// Symbols and runs: what stands for the values of var cells, and the nodes, choices, arrays, work and weight of an expansion.
#![tactic(auto)]

mod choices;
mod cons;
mod constants;
mod credit;
mod law;
mod lines;
mod run;
mod types;

pub use law::{bare_clauses_follow, runs_are_kept, terms_read_runs};
pub use run::Run;
pub use types::{Free, Line, Listing, Lists, Symbol};
