// The places of an array's elements, from the ranges of its indices.
#![tactic(auto)]

mod index_sets;
mod law;
mod slices;

pub use index_sets::IndexSets;
pub use law::places_are_distinct;
pub use slices::{capped, count_in, length_of, place_in};
