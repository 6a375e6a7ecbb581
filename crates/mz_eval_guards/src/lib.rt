// Whether all that is declared holds, by par cells alone or by a node, and the cells that it guards.
#![tactic(auto)]

mod guarding;
mod joining;
mod lines;
mod lying;
mod there;
mod types;

pub use guarding::guarded;
pub use joining::{both, never, surely, unsure};
pub use lying::lies_in;
pub use mz_eval_symbols::cell_of_symbol;
pub use there::there_in;
pub use types::Guard;
