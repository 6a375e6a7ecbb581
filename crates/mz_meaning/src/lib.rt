// What a model means. The definitions stand in `specs/`; here is what holds of all of them.
#![tactic(auto)]

mod laws;

pub use laws::{cells_have_their_type, evaluation_stops_at_few_kinds};
