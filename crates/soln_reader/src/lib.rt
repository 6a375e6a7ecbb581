// What a solver writes, read into solutions and marks.
#![tactic(auto)]

mod block;
mod laws;
mod line;
mod next;
mod reader;
mod settle;
mod step;
mod undo;
mod walk;

pub use laws::{cut_freely, one_reading, same_events, values_fit};
pub use line::LINE_LIMIT;
pub use next::{Mark, Next};
pub use reader::SolnReader;
