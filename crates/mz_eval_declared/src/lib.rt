// Declared sets and free locals, over cells and under each reading: guards tell whether what is declared holds.
#![tactic(auto)]

mod arrays;
mod choices;
mod fitting;
mod local;
mod ranges;
mod sets;
mod suiting;
mod want;

pub use arrays::chosen_line;
pub use choices::chosen_one;
pub use fitting::{fitted, kept};
pub use local::chosen;
pub use ranges::declared_count;
pub use sets::{argument_suits_in, kept_in, suits_in};
pub use suiting::{argument_suits, suits};
pub use want::{Want, all_have_sets, has_set, index_want, want_of};
