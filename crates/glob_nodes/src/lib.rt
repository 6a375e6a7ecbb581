// What the globals' terms are made of: nodes with what they say, conjunctions and counts over lists and pairs, and arguments.
#![tactic(auto)]

mod arguments;
mod each;
mod guards;
mod known;
mod listing;
mod nodes;
mod numbering;
mod numbers;
mod passing;
mod ranges;
mod relation;
mod sets;
mod summing;
mod sums;
mod zips;

pub use arguments::{Numbers, integer, numbers_of};
pub use each::{each_next, each_two, to_each};
pub use guards::{where_arrays, where_number_array, where_numbers_array};
pub use listing::{extreme, list_of};
pub use nodes::{
    Compare, Join, add, compared, joined, made, multiply, negated, number, to_number, truth,
    where_defined,
};
pub use numbering::places_of;
pub use numbers::{constant, one_if, plus, product};
pub use passing::{Test, all_pass, each_passes, some_pass};
pub use ranges::{are_indices, is_index};
pub use relation::{Compared, Relation};
pub use sets::{lies_in, where_set};
pub use summing::{Part, summed};
pub use sums::counted;
pub use zips::zipped;
