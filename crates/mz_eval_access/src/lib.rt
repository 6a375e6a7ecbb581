// Accesses to arrays of cells.
#![tactic(auto)]

mod accessing;
mod indexing;
mod numbers;
mod placing;

pub use accessing::{access_bound, par_element};
pub use indexing::place_of;
pub use numbers::number_place;
