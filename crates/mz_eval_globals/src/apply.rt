// Calls of globals on values: what they cost, what they are refused for, and what they give; and a law of the two lists of globals.

mod applied;
mod checks;
mod costs;
mod givens;
mod law;
mod misfits;
mod refusals;
mod sums;
mod values;

pub use applied::apply_global;
pub use checks::checks_of;
pub use costs::global_cost;
pub use givens::{Given, given_of};
pub use law::lists_are_in_step;
pub use refusals::refusal_of;
pub use values::value;
