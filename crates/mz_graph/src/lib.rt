// Orders and components of any graph, and the order through its layers: nothing here knows what the nodes stand for.
#![tactic(auto)]

mod components;
mod cycle;
mod evaluation;
mod law;
mod layer_laws;
mod layers;
mod order;
mod rows;
mod search;
mod turns;

pub use components::{Components, components_of};
pub use cycle::first_on_cycle;
pub use evaluation::{Evaluation, evaluation_order};
pub use law::{at_most_one_order, component_falls, together_in_a_component};
pub use layer_laws::{layered_order, needed_first};
pub use layers::members_of;
pub use order::order_of;
pub use rows::{append_to, empty_rows};
