// What is refused of the names of a model, with the first occurrence that each test finds, and the scoped model.
#![tactic(auto)]

mod first;
mod law;
mod refusals;
mod repeated;
mod scoping;
mod solves;
mod spaces;
mod testing;

pub use first::{first_misfit, first_missing, first_reserved, first_unknown};
pub use law::all_named;
pub use repeated::first_repeated;
pub use scoping::scope;
pub use solves::{end_of, solves_of};
pub use spaces::{bound_names, declared_names, listed_names, valued_names};
