// The terms of the globals of sets: of arrays of sets, and of sets of indices.
#![tactic(auto)]

mod arguments;
mod channels;
mod disjoint;
mod indices;
mod links;
mod partition;

pub use arguments::{set_of_integers, sets_of, truths_of};
pub use channels::channel;
pub use disjoint::all_disjoint;
pub use links::link;
pub use partition::partition_set;
