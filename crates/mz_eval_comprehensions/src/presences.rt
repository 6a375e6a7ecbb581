// Whether the elements of a comprehension occur, under each reading of a run.

mod conditions;
mod elements;
mod types;

pub use conditions::{both_occur, occurs_in, occurs_where};
pub use elements::present;
pub use types::Presence;
