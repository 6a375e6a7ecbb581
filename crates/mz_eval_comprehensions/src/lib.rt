// Comprehensions under each reading, step by step: the elements of generators one after the other, whether they occur, and what is made of the heads.
#![tactic(auto)]

pub mod drawn;
mod gathering;
mod making;
pub mod presences;
mod running;
mod turns;
mod types;
mod whole;

pub use crate::drawn::{both_occur, occurs_where};
pub use gathering::gathered_with;
pub use making::{add_element, add_set, nothing_made};
pub use running::elements_in;
pub use turns::{all_turns, next_turn};
pub use types::{Elements, Made, Members, Turn, Turns};
pub use whole::comprehended;
