// Terms over variables: nodes with numbers, shared by all that speak of them, each with its meaning and its bounds; and laws of bounds.
#![tactic(auto)]

mod access;
mod arena;
mod asked;
mod bounds_law;
mod choice;
mod instance;
mod law;
mod list;
mod listed;
mod node;
mod number;
mod reach;
mod set;
mod table;
mod truth;

pub use arena::Arena;
pub use bounds_law::{accesses_are_monotone, terms_lie_in_bounds};
pub use instance::{
    Instance, InstanceGoal, ModelVar, ParValue, VarCell, terms_are_told_by_free_nodes,
};
pub use law::growth_is_transitive;
pub use node::{Id, Node, NodeKind, Sort, charge};
