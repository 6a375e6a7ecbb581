// Calls of globals, on values and over cells: which global a number has, what a call costs, what it is refused for, and what it gives.
#![tactic(auto)]

pub mod apply;
mod calls;
mod costs;
mod givens;
mod numbers;

pub use calls::{call_bound, global_cell};
pub use costs::cost_of_call;
pub use numbers::global_numbered;
