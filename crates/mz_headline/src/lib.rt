// What the FlatZinc program that is written for a model is to the model, by the two boundaries between them.
#![tactic(auto)]

mod law;

pub use law::boundaries_join;
