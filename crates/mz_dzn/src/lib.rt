// The data of data files, read from their tokens.
#![tactic(auto)]

mod dimensions;
mod file;
mod list;
mod step;
mod value;
mod word;

pub use file::data_items;
