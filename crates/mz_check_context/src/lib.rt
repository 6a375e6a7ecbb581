// What is known where an expression is typed: what the model's names mean, the types that are typed so far, and the local names in scope with what binds them.
#![tactic(auto)]

mod comprehensions;
mod context;
mod functions;
mod generator;
mod groups;
mod heading;
mod local;
mod meanings;
mod names;
mod newest;
mod scope;
mod written;

pub use comprehensions::comprehended;
pub use context::{Context, TypeTables};
pub use functions::{FunctionNames, Overloads};
pub use generator::{TypedGen, member_of, running_type};
pub use groups::Groups;
pub use heading::{Heading, param_type, signature_of, type_in};
pub use local::{TypedItem, let_node};
pub use meanings::Meanings;
pub use names::{bare_call, named};
pub use scope::{LocalName, Scope};
pub use written::{TypedBase, TypedIndex, TypedValues, declared};
