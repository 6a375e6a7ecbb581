// Typing: the types of declarations and functions in their order, functions that are declared twice, and the typing of an
// expression and of a written type: what it is typed to, or the first fault.
#![tactic(auto)]

mod binding;
mod cycle;
mod duplicates;
mod ending;
mod headings;
mod laws;
mod model_names;
mod places;
mod same;
mod texts;
mod types;
mod written;

pub use cycle::check;
pub use duplicates::duplicate;
pub use model_names::untyped;
pub use types::with_types;
pub use written::check_written;
