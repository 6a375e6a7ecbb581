// The globals of the language: what each says of values, what a call costs, and what it is refused for. The definitions stand in `specs/`; here are the types that name the globals and their tests, the list of their names, and a law.
#![tactic(auto)]

mod checks;
mod global;
mod law;
mod names;

pub use checks::{Checks, Cost, Fit, Places, Refusal, Sums};
pub use global::{Global, Relation};
pub use law::starts_are_enough;
pub use names::{NamedGlobal, global_at};
