// A model with the files that it includes, and its data files after them.

mod data_files;
mod gathering;
mod law;
mod read;

pub use gathering::{SourcesWithData, gather_with_data};
pub use law::{data_fault_in_its_file, kept_by_names, one_failure, read_once, read_or_failure};
