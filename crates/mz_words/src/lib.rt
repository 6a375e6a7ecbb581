// The words of a command line as `clap` finds them, and the request that they make: a command, its files and its options, or a number.
#![tactic(auto)]

pub mod command;
mod law;
mod reading;
mod request;

pub use command::{BUDGET_LIMIT, INT_RANGE_LIMIT, MAKE_LIMIT, WordsError};
pub use law::worked_examples;
pub use reading::read_words;
pub use request::{DEFAULT_BUDGET, DEFAULT_INT_RANGE, Options, Request};
