// The first declaration without a value whose type has no bound.
#![tactic(auto)]

mod places;
mod program;
mod walk;

pub use program::first_unbounded;
