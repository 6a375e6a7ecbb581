// Types and their order, and the typed tree that every later stage reads.
#![tactic(auto)]

mod join;
mod laws;
mod make;
mod order;
mod paths;
mod program;
mod tree;
mod types;

pub use join::join_types;
pub use laws::{trees_are_read_by_layers, types_are_ordered};
pub use make::{copy_type, make_type};
pub use order::{below, dims_below, same_type};
pub use paths::coercions;
pub use program::{CoreFunction, CoreGoal, Program};
pub use tree::{Core, CoreDecl, CoreForm, CoreGen, CoreItem, CoreStep, CoreType};
pub use types::{Base, Coercion, Ix, Signature, TypeInst};
