// What an evaluation goes through: the cells of names, worlds and scopes, work, and literals.
#![tactic(auto)]

mod env;
mod literals;
mod scopes;
mod types;
mod work;

pub use literals::{all_cases, literal_text};
pub use scopes::{at_slot, seek};
pub use types::{Context, Env, Scope, World};
pub use work::done;
