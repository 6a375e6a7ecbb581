// What each name in a model and its data is there for, and what declarations and functions use of the names outside them.
#![tactic(auto)]

mod adding;
mod given;
mod items;
mod law;
mod making;
mod name_use;
mod occurrence;
mod set;
mod sketch;
#[tactic(auto, unfolding(crate::specs::Uses::in_tree, mz_tree::specs::Views::tree, mz_tree::specs::Views::shape, mz_tree::specs::Views::let_of, mz_tree::specs::Views::part, mz_tree::specs::Views::based, mz_tree::specs::Views::declaration, mz_tree::specs::Views::generator, mz_tree::specs::Views::written))]
mod use_walk;
mod walk;

pub use given::{cases_in, occurrences};
pub use law::named_alike;
pub use making::{sketch_of_decl, sketch_of_function};
pub use name_use::NameUse;
pub use occurrence::{Occurrence, Role};
pub use set::NameSet;
pub use sketch::Sketch;
