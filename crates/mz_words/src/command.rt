// A command with files, or with a number: its words as `clap` finds them.

mod commands;
mod error;
mod limits;
mod reading;

pub use error::WordsError;
pub use limits::{BUDGET_LIMIT, INT_RANGE_LIMIT, MAKE_LIMIT};
pub use reading::{FileWords, read_files, read_number};
