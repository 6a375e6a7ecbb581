// What instances are: their parts and nodes, the values that these may have, and what they stand for.
#![tactic(auto)]

mod law;

pub use law::values_by_number_are_values_by_ids;
