// The grammar of models and of data files, and a place in a list of tokens where its rules are read. It stands in `specs/`; here are the types that name its parts.
#![tactic(auto)]

mod cursor;
mod law;
mod level;
mod list;
mod look;

pub use cursor::Cursor;
pub use law::{one_data_reading, one_reading};
pub use level::Level;
pub use list::{Closing, Generators};
pub use look::{is_sym, is_word};
pub use mz_base::OPEN_LIMIT;
