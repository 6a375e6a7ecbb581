// The globals of scheduling and packing: what they, tables, automata and graphs say of their arguments, and their terms.
#![tactic(auto)]

mod apart;
mod bins;
mod loads;
pub mod of_values;
mod relations;
mod resources;

pub use apart::{diffn, disjunctive, disjunctive_strict};
pub use bins::packing;
pub use loads::packing_load;
pub use resources::cumulative;
