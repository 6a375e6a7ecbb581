// What typing a scoped model gives: the typed program, or the first fault of types. Definitions, and in proofs/ what holds of each node that typing makes.
#![tactic(auto)]

mod callee;
mod meaning;

pub use callee::Callee;
pub use meaning::Meaning;
