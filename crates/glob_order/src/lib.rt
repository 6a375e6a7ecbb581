// The globals of order: what they say of their arguments, and their terms.
#![tactic(auto)]

mod alike;
mod extremes;
mod lexical;
pub mod of_values;
mod preceding;
mod relations;
mod sorting;

pub use alike::{all_different, all_equal, different_but_zero, ordered};
pub use extremes::{extreme_is, member};
pub use lexical::lex;
pub use preceding::precede;
pub use sorting::sort;
