// The table of operators, built-ins and globals, and the signatures that their names have.
#![tactic(auto)]

mod candidates;
mod choices;
mod entry;
mod fits;
mod lists;
mod names;
mod params;
mod readings;
mod table;
mod types;

pub use candidates::{fitting, signatures};
pub use entry::{Letter, Line, Mark, Of, Outcome, Param};
pub use names::{global, known, number_of};
pub use table::{built_ins, globals};
