// The overload that a call takes.
#![tactic(auto)]

mod resolution;

pub use resolution::{Resolution, choose};
