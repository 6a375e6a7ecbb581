// The walk over a model, term by term: a typed program → its instance.
#![tactic(auto)]

mod conjuncts;
mod constraints;
mod declarations;
mod ending;
mod evaluation;
mod forms;
mod matching;
mod objective;
mod start;
mod types;
mod walk;
mod whole;

pub use walk::model;
