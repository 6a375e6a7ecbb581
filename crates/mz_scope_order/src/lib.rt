// The scoped model: what the files and the data of a run declare, each name with its value; and the orders in which declarations
// are evaluated and types are typed, from what declarations and functions use.
#![tactic(auto)]

mod arrange;
mod assigned;
mod data_items;
mod decls;
mod enums;
mod first_places;
mod given;
mod graphs;
mod items;
mod law;
mod listing;
mod parts;
mod places;
mod scoped;
mod sequence;
mod sketches;
mod subject;
mod tables;
mod type_order;

pub use arrange::arranged;
pub use law::{
    answers_by_uses, cycle_by_uses, graphs_are_closed, graphs_are_faithful, order_by_uses,
    types_are_ranked,
};
pub use parts::{ModelParts, model_parts};
pub use scoped::{Scoped, ScopedDecl, ScopedEnum};
pub use sequence::{Sequence, sequence_of};
pub use sketches::{decl_sketches, function_sketches};
pub use subject::Subject;
