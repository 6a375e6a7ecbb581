// What a FlatZinc program and its solutions are to the instance and the model that it is made of.
#![tactic(auto)]

mod law;
mod reading_law;

pub use law::front_is_found;
pub use reading_law::{names_are_found, read_off_by_names};
